//! The history stack: items of module settings, how many of them count, and the order of the module
//! instances; and the edits on it, each with its fault, its effect and the kind of change it makes.
#![tactic(auto)]

pub use changes::{Kind, Kinds};
pub use edits::Edit;
pub use fault::EditFault;
pub use items::Item;
pub use stack::History;

mod changes;
mod edits;
mod fault;
mod faults;
mod items;
mod lists;
mod stack;
