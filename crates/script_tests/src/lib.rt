//! The tests of scripts and of the runs of a pixelpipe: what no clause of their crates says, by
//! public calls. A crate without tests of its own is proved once.
#![tactic(auto)]

#[cfg(test)]
mod band_tests;
#[cfg(test)]
mod edit_script_tests;
#[cfg(test)]
mod edit_steps_tests;
#[cfg(test)]
mod pipe_nodes_tests;
#[cfg(test)]
mod pipe_run_tests;
#[cfg(test)]
mod pipe_sync_tests;
