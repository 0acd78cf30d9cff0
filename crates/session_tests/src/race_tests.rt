//! Workers run beside the editor, and look before each node.
use crate::race::Race;
use crate::subjects::{PIXEL, published_at, subject};
use outside::Pipe;
use session::run_desk;
use std::test::Fail;

const SCRIPT: &str =
    r#"{"settings":{"workers":2,"stage_pixels":0},"steps":[{"do":"set","module":"exposure","params":{"black":0,"gain":8192}},{"do":"set","module":"exposure","params":{"black":0,"gain":2048}}]}"#;

#[test]
fn a_run_that_a_change_overtakes_is_not_published(rt: HostRuntime) -> Result<(), Fail> {
    let alloc = rt.alloc();
    let subject = subject(alloc, SCRIPT, PIXEL)?;
    let gate = Race::new();
    let desk = run_desk(&rt, alloc, &subject, &gate)?;
    assert!(rt; gate.was_run());
    assert_eq!(rt; published_at(&desk, Pipe::Full, 1), 0);
    assert_eq!(rt; published_at(&desk, Pipe::Full, 2), 1);
    assert_eq!(rt; published_at(&desk, Pipe::Preview, 2), 1);
    Ok(())
}
