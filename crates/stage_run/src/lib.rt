//! The pictures of one run: its pieces, its planned regions, and the stage that it has reached. Each call
//! is one event of the run. It needs no thread of its own, and where memory runs out, all is as before.
#![tactic(auto)]

mod gathering;
mod reached;
mod run;

pub use gathering::stages_asked;
pub use reached::At;
pub use run::StageRun;
