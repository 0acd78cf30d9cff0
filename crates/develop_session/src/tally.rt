ghost use Rattle.std.specs.Prelude.{◌≡◌, IfOk, string_bytes};
ghost use Rattle.develop_session.specs.Texts.{completeness, replayed_text};

use std::alloc::{AllocError, Global};

// How many events there were, how many lines they left, and whether all was done.
#[derive(Clone, Copy)]
pub(crate) struct Tally {
    pub(crate) events: usize,
    pub(crate) lines: usize,
    pub(crate) complete: bool,
}

fn completeness(complete: bool) -> &'static str
    ensures { result.now ≡ completeness complete }
{
    if complete { "complete" } else { "open" }
}

// The line that is said of a replay.
pub(crate) fn replayed_line(alloc: Global, tally: Tally) -> Result<String, AllocError>
    ensures { IfOk result (λ t. string_bytes t ≡ replayed_text tally) }
{
    let Tally {
        events,
        lines,
        complete,
    } = tally;
    let completeness = completeness(complete);
    format!(in alloc; "events {events} lines {lines} {completeness}\n")
}
