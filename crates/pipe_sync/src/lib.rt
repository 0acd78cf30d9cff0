//! The nodes of a pixelpipe, kept in step with a history. A piece that stays active with the same
//! values stays as it is; only the others are committed anew.
#![tactic(auto)]

mod nodes;
mod renewing;

pub use nodes::Nodes;
