//! A session's runs find again what earlier runs made.
use crate::notes::Notes;
use crate::subjects::{PIXEL, published, subject};
use session::run_desk;
use std::test::Fail;

// A settle around each of three exposures.
const SETTLES: &str =
    r#"{"settings":{"workers":1},"steps":[{"do":"settle"},{"do":"set","module":"exposure","params":{"black":0,"gain":8192}},{"do":"settle"},{"do":"set","module":"exposure","params":{"black":0,"gain":2048}},{"do":"settle"},{"do":"set","module":"exposure","params":{"black":0,"gain":1024}},{"do":"settle"}]}"#;

// A settle around one exposure, with nothing kept of stages.
const LEVELS: &str =
    r#"{"settings":{"workers":1,"stage_pixels":0},"steps":[{"do":"settle"},{"do":"set","module":"exposure","params":{"black":0,"gain":8192}},{"do":"settle"}]}"#;

#[test]
fn a_stage_that_was_kept_is_not_made_again(rt: HostRuntime) -> Result<(), Fail> {
    let alloc = rt.alloc();
    let subject = subject(alloc, SETTLES, PIXEL)?;
    let gate = Notes::new();
    let desk = run_desk(&rt, alloc, &subject, &gate)?;
    assert_eq!(rt; published(&desk), (8, true));
    assert_eq!(rt; gate.first_nodes_later(), 0);
    for moment in 1..4_usize {
        assert!(rt; gate.second_nodes(moment) > 0);
    }
    Ok(())
}

#[test]
fn a_level_that_was_made_is_read_again(rt: HostRuntime) -> Result<(), Fail> {
    let alloc = rt.alloc();
    let mut picture = Vec::new(alloc);
    picture.extend_from_slice(b"P5\n800 1\n255\n")?;
    for _ in 0..800_u32 {
        picture.push(32)?;
    }
    let subject = subject(alloc, LEVELS, &picture)?;
    let gate = Notes::new();
    let desk = run_desk(&rt, alloc, &subject, &gate)?;
    assert_eq!(rt; published(&desk), (4, true));
    assert_eq!(rt; gate.levels(), (1, 1));
    Ok(())
}
