//! What a session publishes, and of which moment.
use crate::subjects::{PIXEL, published, published_at, subject};
use dev_core::DeskState;
use outside::{JobName, OpenGate, Pipe};
use session::run_desk;
use std::test::Fail;

// A settle, an exposure, a settle, a view, a settle.
const VIEW: &str =
    r#"{"steps":[{"do":"settle"},{"do":"set","module":"exposure","params":{"black":0,"gain":8192}},{"do":"settle"},{"do":"view","factor":2,"cx":32768,"cy":32768,"w":4,"h":4}]}"#;

// Two exposures, an export, and five more.
const EXPORT: &str =
    r#"{"steps":[{"do":"set","module":"exposure","params":{"black":0,"gain":8192}},{"do":"set","module":"exposure","params":{"black":0,"gain":2048}},{"do":"export","depth":8},{"do":"set","module":"exposure","params":{"black":0,"gain":1024}},{"do":"set","module":"exposure","params":{"black":0,"gain":512}},{"do":"set","module":"exposure","params":{"black":0,"gain":256}},{"do":"set","module":"exposure","params":{"black":0,"gain":128}},{"do":"set","module":"exposure","params":{"black":0,"gain":64}}]}"#;

// Whether the first ticket's picture is of this moment and has these bytes.
fn is_ticket(desk: &DeskState, moment: u32, bytes: &[u8]) -> bool {
    for frame in desk.frames() {
        if frame.name() == JobName::Ticket(1) {
            return frame.moment() == moment && frame.bytes() == bytes;
        }
    }
    false
}

#[test]
fn a_view_concerns_the_full_pipe_alone(rt: HostRuntime) -> Result<(), Fail> {
    let alloc = rt.alloc();
    let subject = subject(alloc, VIEW, PIXEL)?;
    let desk = run_desk(&rt, alloc, &subject, &OpenGate)?;
    assert_eq!(rt; published(&desk), (5, true));
    assert_eq!(rt; published_at(&desk, Pipe::Full, 2), 1);
    assert_eq!(rt; published_at(&desk, Pipe::Preview, 2), 0);
    Ok(())
}

#[test]
fn an_export_is_of_the_moment_at_which_it_was_asked(rt: HostRuntime) -> Result<(), Fail> {
    let alloc = rt.alloc();
    let subject = subject(alloc, EXPORT, PIXEL)?;
    let desk = run_desk(&rt, alloc, &subject, &OpenGate)?;
    assert!(rt; is_ticket(&desk, 2, b"P6\n1 1\n255\n\x10\x10\x10"));
    Ok(())
}
