//! A lock that threads take in turns, and whose value carries a story. What a thread has seen of the story stays
//! a beginning of every later one, and the elements that bear its number are just its own.
//! A thread takes the value by its `Pass`, gives it back, and reads the mark of the value without a turn.
#![tactic(auto)]

mod board;
mod close;
mod deal;
mod lock;
mod pass;
mod plays;
mod steps;
mod told;
mod turn;
mod view;

pub use lock::TurnLock;
pub use pass::Pass;
pub use told::Told;
pub use turn::Turn;
