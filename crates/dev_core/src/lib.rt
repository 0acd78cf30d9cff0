//! The desk: which job shows which moment of a script, and the journal of all that was done.
//!
//! The desk gives out jobs, of pipes at the present moment and of tickets at the moment at which each was
//! asked, and takes back the frames that they make. Everything that it does is one entry of its journal,
//! and what the desk is follows from the journal alone.
#![tactic(auto)]

mod desk_state;
mod frame;
mod job;
mod next;
mod room;
mod showing;
mod subject;
mod told;

pub use desk_state::DeskState;
pub use frame::Frame;
pub use job::Job;
pub use next::Next;
pub use room::Roomy;
pub use subject::Subject;
