//! The tests of a session: what no clause says of its threads. A gate notes where they come by, or holds them back.
#![tactic(auto)]

#[cfg(test)]
mod caches_tests;
#[cfg(test)]
mod notes;
#[cfg(test)]
mod order_tests;
#[cfg(test)]
mod race;
#[cfg(test)]
mod race_tests;
#[cfg(test)]
mod subjects;
