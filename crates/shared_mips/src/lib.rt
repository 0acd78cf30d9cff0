//! The mipmap levels of one source, for several threads. Which levels have a slot, who writes them and how
//! many read them is a list that the threads take in turns, and whose story says what each of them did. The
//! planes stand in eight cells beside it, each with one writer or with readers, so that a plane is read
//! without a turn.
#![tactic(auto)]

mod cache;
mod cells;
mod event;
mod holds;
mod index;
mod reached;
mod tag;
mod turns;

pub use cache::MipCache;
pub use event::MipEvent;
pub use holds::{ReadHold, WriteHold};
pub use index::{MipIndex, MipName};
pub use reached::SharedReached;
pub use turns::MipPass;
