//! The tickets of a script.
ghost use Rattle.std.specs.Prelude.{◌≡◌, ◌≤◌, length, IfSome};
ghost use Rattle.edit_steps.specs.Ranges.{IsStepWithin};
ghost use Rattle.edit_steps.specs.Script.{changes};
ghost use Rattle.journal.specs.Tickets.{asks_from, numbered, ask_of, is_ask, is_settle};

use edit_steps::{Script, Step};

/// A step that asks for a picture, and the moment that the picture shows.
#[derive(Clone, Copy, Debug)]
pub struct Ask {
    pub moment: u32,
    pub step: Step,
}

/// Whether the step asks for a picture.
pub fn is_ask(step: &Step) -> bool
    ensures { result ≡ is_ask step.now }
{
    matches!(step, Step::Export { .. } | Step::Thumbnail { .. })
}

/// Whether the step waits until the desk is settled.
pub fn is_settle(step: &Step) -> bool
    ensures { result ≡ is_settle step.now }
{
    matches!(step, Step::Settle)
}

// What the step asks for that has this number, counted from 1, among those that ask.
fn ask_at(steps: &[Step], ticket: u32) -> Option<Ask>
    requires { length steps.now ≤ 536 }
    ensures { result ≡ numbered (asks_from 0 steps.now) ticket }
{
    if ticket == 0 {
        return None;
    }
    let mut left = ticket - 1;
    let mut moment = 0;
    for step in steps {
        if is_ask(step) {
            if left == 0 {
                return Some(Ask {
                    moment,
                    step: *step,
                });
            }
            left -= 1;
        }
        if step.is_change() {
            moment += 1;
        }
    }
    None
}

/// What a ticket of a script asks for; `None` exactly where the script has no ticket of this number.
pub fn ask_of(script: &Script, ticket: u32) -> Option<Ask>
    ensures ask { result ≡ ask_of script.now ticket }
    ensures within { IfSome result (λ a. IsStepWithin a.step) }
    ensures moment { IfSome result (λ a. a.moment ≤ changes script.now) }
{
    ask_at(script.steps(), ticket)
}
