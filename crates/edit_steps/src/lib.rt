//! Whole edit scripts: the settings of a session, the history that it begins with, and the steps, each of
//! which may follow those before it. A *draft* grows step by step; a *script* gives the history and the
//! views after each of its changes. How scripts are written as JSON stands in another crate.
#![tactic(auto)]

mod change;
mod draft;
mod fault;
mod judging;
mod kinds;
mod script;
mod settings;
mod step;

pub use draft::Draft;
pub use fault::{Reason, ScriptEnd, ScriptFault};
pub use judging::{MAX_CHANGES, MAX_EXPORTS, MAX_SETTLES, MAX_THUMBNAILS};
pub use script::Script;
pub use settings::Settings;
pub use step::Step;

/// How many items the history has at most that a script begins with.
pub const MAX_ITEMS: usize = 256;
