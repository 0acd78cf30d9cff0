//! The order in which the module instances of a picture apply: a list of 3 to 64 distinct slots, of
//! which the first three are fixed. Settings and history stand in other crates.
#![tactic(auto)]

pub use fault::OrderFault;
pub use lists::{FIXED, MAX_SLOTS};
pub use sequence::Order;
pub use slots::Slot;

mod fault;
mod lists;
mod sequence;
mod slots;
