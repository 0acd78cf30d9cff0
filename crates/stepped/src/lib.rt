//! The core driven by events: a machine that makes one step after another, without threads.
//!
//! An event is one thing that the editor or a worker does. `step_one` makes one event, where it may
//! happen, and `stepped` makes a list of them. What each does to a plain state is one table of its own,
//! and an outcome is seen as that state.
#![tactic(auto)]

mod answer;
mod desk_rows;
mod level_rows;
mod machine;
mod open_run;
mod outcome;
mod seats;
mod stage_rows;

pub use answer::{Answer, StepEnd};
pub use outcome::{Outcome, step_one, stepped};
