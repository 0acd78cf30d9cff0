//! The mipmap levels of one source that stand in a cache of a few slots: who writes a level, how many read
//! it, and which one goes where a slot is wanted. This is the list alone, for one thread at a time; the
//! planes of the levels stand beside it.
#![tactic(auto)]

pub use entry::{Entry, Held};
pub use mip_state::MipState;
pub use passes::{Reached, ReadPass, WritePass};

mod entry;
mod lists;
mod mip_state;
mod passes;
