use crate::pictures::ramp;
use level_store::{Hold, LevelStore, ReachAnswer};
use std::test::Fail;

// Level 2 has two pixels: the first block has 4 columns, and the last column takes in the one before it.
#[test]
fn a_level_is_made_once_and_read_by_two(rt: HostRuntime) -> Result<(), Fail> {
    let mut store = LevelStore::new(rt.alloc(), ramp(rt.alloc())?, 1, 2)?;
    assert_eq!(rt; store.reach(1, 2), ReachAnswer::Write);
    assert_eq!(rt; store.reach(2, 2), ReachAnswer::Pending { writer: 1 });
    assert_eq!(rt; store.reach(2, 3), ReachAnswer::Full);
    store.demote(&rt, rt.alloc(), 1)?;
    assert_eq!(rt; store.reach(2, 2), ReachAnswer::Read);
    store.leave(1);
    assert_eq!(rt; store.evict(), None);
    assert_eq!(rt; store.hold(2), Some(Hold::Reads { level: 2 }));
    let plane = store.plane(2).ok_or("a plane")?;
    assert!(rt; plane.sides() == (2, 1));
    assert_eq!(rt; plane.values(), [11, 11, 12, 14, 13, 13].as_slice());
    store.leave(2);
    assert!(rt; store.plane(2).is_none());
    assert_eq!(rt; store.evict(), Some(2));
    Ok(())
}
