//! A run that a number makes: a picture, a script of 40 steps over it, and the events of an editor and
//! two workers in turn. It needs no file, and is the same each time.
#![tactic(auto)]

mod course;
mod draws;
mod making;
mod next_of;
mod opening;
mod picture;
mod play;
mod steps;
mod subject;

pub use making::{GenerateEnd, Generated, generate};
