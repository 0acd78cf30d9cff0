//! The desk that threads share. Each call takes one turn at the desk and adds one entry to its journal, or
//! none.
//!
//! A thread has a pass, whose number is its worker's number; the editor has 0. What job a pass holds is read
//! from its own entries alone. A thread that finds nothing to do sleeps until another thread rings the bell.
#![tactic(auto)]

mod edited;
mod editing;
mod next_job;
mod shared;
mod turns;
mod working;

pub use edited::Edited;
pub use next_job::NextJob;
pub use shared::{DeskPass, SharedDesk};
