//! A session in threads: one editor and several workers share a desk, a cache of stages and a cache of mipmap
//! levels, and end when all is done.
#![tactic(auto)]

mod beginning;
mod editing;
mod ending;
mod serving;
mod session;
mod shared;
mod threads;
mod worker;

pub use session::run_desk;
