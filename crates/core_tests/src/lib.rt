//! The tests of the core: what no clause of its crates says, by public calls. A crate without tests of
//! its own is proved once.
#![tactic(auto)]

#[cfg(test)]
mod desk_tests;
#[cfg(test)]
mod dev_core_tests;
#[cfg(test)]
mod piece_tests;
#[cfg(test)]
mod pieces;
#[cfg(test)]
mod shared_stage_tests;
#[cfg(test)]
mod stage_cache_tests;
#[cfg(test)]
mod stepped_tests;
#[cfg(test)]
mod subjects;
