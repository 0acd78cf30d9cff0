//! The mipmap levels of one source for the workers of one thread's machine: which levels have a slot, the
//! planes of those that are written, and what each worker holds. A caller says the number of a worker, and
//! needs to know nothing but what that worker holds.
#![tactic(auto)]

mod hold;
mod holds;
mod levels;
mod store;

pub use hold::{Hold, ReachAnswer};
pub use store::LevelStore;
