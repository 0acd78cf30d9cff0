//! The commands of the program: from its words to a status, over a shelf of files and an output.
#![tactic(auto)]

mod command;
mod develop;
mod devices;
mod generation;
mod inputs;
mod replay;
mod sessions;
mod status;
mod subject;
mod tally;
mod words;

pub use develop::develop_once;
pub use generation::generate;
pub use replay::run_stepped;
pub use sessions::run_session;
pub use status::Status;
pub use words::run_words;
