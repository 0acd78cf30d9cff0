//! The runs of a worker: a job is made over what the stage cache and the mipmap cache have, looked after
//! between its nodes, and begun anew where a change has overtaken it.
#![tactic(auto)]

mod attempts;
mod begin;
mod ends;
mod input;
mod looks;
mod node_set;
mod nodes;
mod passes;
mod run;
mod synced;

pub use attempts::attempt;
pub use ends::{Attempt, JobEnd};
pub use looks::{Looked, look};
pub use node_set::NodeSet;
pub use passes::Passes;
pub use run::run_job;
