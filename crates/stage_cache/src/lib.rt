//! The stages of earlier runs, kept so that a run begins where an earlier one had the same module
//! instances applied.
//!
//! A stage is found by its whole *prefix*, the level and the list of instances, and never by a hash
//! alone. The cache keeps a number of stages and a number of pixels at most; those that were used
//! longest ago go first.
#![tactic(auto)]

mod cache;
mod entries;
mod kept;

pub use cache::StageCache;
pub use kept::Kept;
