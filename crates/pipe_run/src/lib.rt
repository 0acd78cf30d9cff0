//! Runs over regions. A plan hands the region that a window needs backwards through the pieces of a
//! pipe; a run loads the first region, processes piece by piece, and finishes with the window. What it
//! makes is what the same pieces make over whole pictures.
#![tactic(auto)]

mod making;
mod planning;
mod running;

pub use making::{finish, load, process};
pub use planning::plan;
pub use running::run;
