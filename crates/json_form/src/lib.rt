//! The texts of scripts and events as JSON values.
#![tactic(auto)]

mod text;

pub use text::{LONGEST, TextEnd, value_of};
