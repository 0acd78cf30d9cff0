//! The stages of earlier runs, kept for several threads: a stage cache in a lock that they take in turns.
//!
//! Each call is one turn. What it found and kept is an element of the lock's story, and the story replays: each of its answers is
//! the one that a cache of one thread gives after those before it.
#![tactic(auto)]

mod event;
mod law;
mod shared_stage;
mod stage_name;
mod stage_state;

pub use event::{AskedStages, StageEvent};
pub use law::last_answer;
pub use shared_stage::{SharedStage, StagePass};
pub use stage_name::StageName;
pub use stage_state::StageState;
