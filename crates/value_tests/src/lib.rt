//! The tests of the values: what no clause of their crates says, by public calls. A crate without
//! tests of its own is proved once.
#![tactic(auto)]

#[cfg(test)]
mod geometry_tests;
#[cfg(test)]
mod history_tests;
#[cfg(test)]
mod kernel_tests;
#[cfg(test)]
mod level_store_tests;
#[cfg(test)]
mod mip_cache_tests;
#[cfg(test)]
mod module_order_tests;
#[cfg(test)]
mod outside_tests;
#[cfg(test)]
mod params_tests;
#[cfg(test)]
mod pictures;
#[cfg(test)]
mod px_tests;
#[cfg(test)]
mod shared_mips_tests;
#[cfg(test)]
mod turn_lock_tests;
#[cfg(test)]
mod undo_stack_tests;
#[cfg(test)]
mod wide_exposure_tests;
