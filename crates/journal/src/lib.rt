//! The journal of a desk: its entries, the desk that they leave, and which job each worker has.
//!
//! A *moment* is the number of changes that a script has made so far. A desk gives out jobs: of *pipes*,
//! at the present moment, and of *tickets*, at the moment at which each was asked. Everything that is
//! done at it is one entry of its journal, and what the desk is follows from the journal alone.
#![tactic(auto)]

mod asking;
mod desk;
mod entry;
mod law;

pub use asking::{Ask, ask_of, is_ask, is_settle};
pub use desk::{Desk, Hold, Slot, TicketState};
pub use entry::{Entry, NextStep};
pub use law::lines_are_good;
