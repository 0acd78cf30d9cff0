//! The events of a stepped run, and how a list of them is read.
//!
//! An event is one thing that the editor or a worker does. Events are a JSON list (RFC 8259) of at most
//! 65,536 lists; the form is this project's own. A worker W is a whole number from 0 to 4 and a ticket T
//! one from 0 to 65,535, both written without a point or an exponent.
//!
//! | An event | Its words |
//! |---|---|
//! | `["editor"]` | "editor" |
//! | `["take", W, PIPE]` | "take", and for PIPE "full", "preview" or "second" |
//! | `["take_ticket", W, T]` | "take_ticket" |
//! | `["look", W]`, and alike with another word | "look", "restart", "find", "reach", "evict", "demote", "abandon", "load", "leave", "node", "keep", "finish", "publish", "finish_ticket", "give_back" |
#![tactic(auto)]

mod event;
mod fault;
mod form;
mod reading;

pub use event::Event;
pub use fault::{EventReason, EventsEnd, EventsFault};
pub use reading::read_events;
