ghost use Rattle.std.specs.Prelude.{◌≡◌, Some};
ghost use Rattle.events.specs.Texts.{event_reason_text};
ghost use Rattle.events.specs.declared.fault.EventsEnd.TheVariants.{Memory};

use std::alloc::{AllocError, AllocFailed};
use std::fmt;
use thiserror::Error;

/// Why events are refused.
#[derive(Clone, Copy, Debug, PartialEq, Eq)]
pub enum EventReason {
    /// The text has over 4,194,304 bytes.
    TooLong,
    /// The text is no JSON.
    Text,
    /// The value is no list, or an event hasn't its form.
    Form,
    /// There is a 65,537th event.
    TooMany,
    /// The event may not happen after those before it.
    NotAllowed,
}

impl fmt::Display for EventReason {
    ghost output = { λ reason. Some (event_reason_text reason) };

    fn fmt<W: fmt::Write>(&self, f: &mut fmt::Formatter<W>) -> fmt::Result {
        match self {
            EventReason::TooLong => f.write_str("too long"),
            EventReason::Text => f.write_str("text"),
            EventReason::Form => f.write_str("form"),
            EventReason::TooMany => f.write_str("too many"),
            EventReason::NotAllowed => f.write_str("not allowed"),
        }
    }
}

/// What was refused: an event, counted from 1, or 0 for the text or the list.
#[derive(Clone, Copy, Debug, PartialEq, Eq)]
pub struct EventsFault {
    pub place: u32,
    pub reason: EventReason,
}

/// Why no events were read.
#[derive(Debug, Drop, Error)]
pub enum EventsEnd {
    #[error("events refused at event {}: {}", .0.place, .0.reason)]
    Fault(EventsFault),
    #[error("out of memory")]
    Memory,
}

impl From<AllocError> for EventsEnd {
    ghost from_gives = { λ _ e. e ≡ Memory };

    fn from(_error: AllocError) -> EventsEnd {
        EventsEnd::Memory
    }
}

impl<T: Drop> From<AllocFailed<T>> for EventsEnd {
    ghost from_gives = { λ _ e. e ≡ Memory };

    fn from(_error: AllocFailed<T>) -> EventsEnd {
        EventsEnd::Memory
    }
}
