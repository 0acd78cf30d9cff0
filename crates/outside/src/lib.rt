//! The outside of the program: a shelf of named files, and an output that is told texts.
//!
//! Both are traits whose calls may fail. A failed call shows its cause by a count of faults that
//! rose. `MemoryShelf` and `MemorySaid` are told what they hold, and fail at chosen calls;
//! `HostShelf` and `HostSaid` are real files and a real output. A `Gate` is what the threads of a session
//! pass on their way.
#![tactic(auto)]

mod answered;
mod beside;
mod calls;
mod failed;
mod front;
mod gate;
mod host_files;
mod host_said;
mod host_shelf;
mod job_name;
mod memory_said;
mod memory_shelf;
mod name;
mod said;
mod shelf;
mod write_whole;

pub use failed::Failed;
pub use front::read_front;
pub use gate::{Gate, OpenGate, Point};
pub use host_said::HostSaid;
pub use host_shelf::HostShelf;
pub use job_name::{JobName, Pipe};
pub use memory_said::MemorySaid;
pub use memory_shelf::MemoryShelf;
pub use name::Name;
pub use said::Said;
pub use shelf::Shelf;
