ghost use Rattle.std.specs.Prelude.{◌≡◌, IfOk, string_bytes};
ghost use Rattle.develop_session.specs.Texts.{code_of, refusal_text};

use edit_steps::Reason;
use events::EventReason;
use outside::Name;
use pnm::PnmFault;
use publish::PutEnd;
use std::alloc::{AllocError, Global};

/// How a command ended.
#[derive(Debug, Drop, PartialEq, Eq)]
pub enum Status {
    Ok,
    /// The words are no command.
    Usage,
    /// The script is refused: all of it at step 0, or the step with this number, counted from 1.
    ScriptRefused { step: u32, reason: Reason },
    /// The source is refused, with its first fault.
    SourceRefused { fault: PnmFault },
    /// The event in this place, counted from 1, is refused.
    EventsRefused { place: u32, reason: EventReason },
    /// A fault of the shelf at this name.
    ShelfFault { name: Name },
    /// A fault of the output, on a run that else was `Ok`.
    SaidFault,
    OutOfMemory,
}

impl From<AllocError> for Status {
    ghost use Rattle.develop_session.specs.declared.status.Status.TheVariants.{OutOfMemory};

    ghost from_gives = { λ _ status. status ≡ OutOfMemory };

    fn from(_error: AllocError) -> Status {
        Status::OutOfMemory
    }
}

impl From<PutEnd> for Status {
    ghost use Rattle.develop_session.specs.Failures.{put_status};

    ghost from_gives = { λ end status. status ≡ put_status end };

    fn from(end: PutEnd) -> Status {
        match end {
            PutEnd::Fault { name } => Status::ShelfFault { name },
            PutEnd::Memory => Status::OutOfMemory,
        }
    }
}

impl Status {
    /// The number with which the program exits.
    pub fn code(&self) -> u8
        ensures { result ≡ code_of self.now }
    {
        match self {
            Status::Ok => 0,
            Status::Usage => 1,
            Status::ScriptRefused { .. } => 2,
            Status::SourceRefused { .. } => 3,
            Status::EventsRefused { .. } => 4,
            Status::ShelfFault { .. } => 5,
            Status::SaidFault => 6,
            Status::OutOfMemory => 7,
        }
    }
}

// The line that is said of a refusal.
pub(crate) fn refusal_line(alloc: Global, status: &Status) -> Result<String, AllocError>
    ensures { IfOk result (λ t. string_bytes t ≡ refusal_text status.now) }
{
    match status {
        Status::Usage => String::from_str(
            alloc,
            "usage: devcore develop SCRIPT SOURCE OUT, stepped SCRIPT SOURCE EVENTS, session SCRIPT SOURCE, generate N\n",
        ),
        Status::ScriptRefused { step, reason } => {
            format!(in alloc; "script refused at step {step}: {reason}\n")
        }
        Status::SourceRefused { fault } => {
            format!(in alloc; "source refused at byte {}: {}\n", fault.place, fault.kind)
        }
        Status::EventsRefused { place, reason } => {
            format!(in alloc; "events refused at event {place}: {reason}\n")
        }
        Status::ShelfFault { name } => format!(in alloc; "shelf fault: {name}\n"),
        Status::OutOfMemory => String::from_str(alloc, "out of memory\n"),
        Status::Ok | Status::SaidFault => String::from_str(alloc, ""),
    }
}
