//! A value with those that it was before, and those that were taken back: an edit makes a new value,
//! undo goes back to the one before, redo forward to the one that an undo left. How far undo reaches is
//! a depth that is chosen once.
#![tactic(auto)]

mod undo;

pub use undo::Undo;
