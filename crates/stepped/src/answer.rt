use std::alloc::AllocError;
use thiserror::Error;

/// What an event answers.
#[derive(Clone, Copy, Debug, PartialEq, Eq)]
pub enum Answer {
    Done,
    /// A change was made, and this is the moment now.
    Moment(u32),
    /// A picture was asked for, by this ticket.
    Ticket(u32),
    /// No change since the run's moment concerns its pipe.
    Go,
    /// A change since the run's moment concerns its pipe, and this is the moment now.
    Superseded(u32),
    /// The run goes on behind so many modules, with a stage that was kept.
    Found(u32),
    NotFound,
    /// The level is written, and the worker reads it.
    Read,
    /// The worker is to write the level.
    Write,
    /// That worker is writing the level.
    Pending(u32),
    /// The level has no slot, and none is free.
    Full,
    /// This level gave up its slot.
    Evicted(u8),
    NoneEvicted,
    /// The stage is kept.
    Stored,
    /// The stage has more pixels than may be kept.
    TooLarge,
}

/// Why an event didn't happen.
#[derive(Debug, Drop, Error)]
pub enum StepEnd {
    /// The event in this place, counted from 1, may not happen.
    #[error("event {place} is not allowed")]
    NotAllowed { place: u64 },
    #[error("out of memory")]
    Memory,
}

impl From<AllocError> for StepEnd {
    ghost use Rattle.std.specs.Prelude.{◌≡◌};
    ghost use Rattle.stepped.specs.declared.answer.StepEnd.TheVariants.{Memory};

    ghost from_gives = { λ _ e. e ≡ Memory };

    fn from(_error: AllocError) -> StepEnd {
        StepEnd::Memory
    }
}
