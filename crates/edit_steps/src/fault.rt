ghost use Rattle.std.specs.Prelude.{◌≡◌, Some};
ghost use Rattle.edit_steps.specs.Texts.{reason_text};
ghost use Rattle.edit_steps.specs.declared.fault.ScriptEnd.TheVariants.{Memory};

use history::EditFault;
use params::ParamFault;
use std::alloc::{AllocError, AllocFailed};
use std::fmt;
use thiserror::Error;

/// Why a script is refused.
#[derive(Clone, Copy, Debug, PartialEq, Eq)]
pub enum Reason {
    /// The text has over 4,194,304 bytes.
    TooLong,
    /// The text is no JSON.
    Text,
    /// The value hasn't the form of a script.
    Form,
    /// A value of a module or a blend is out of its range, or a module that doesn't blend has a blend.
    Param(ParamFault),
    /// The history doesn't allow the edit, or items, an end and an order are no history.
    Edit(EditFault),
    /// The opening history has more than 256 items, or there is a 257th change.
    TooManyChanges,
    /// There is a ninth export.
    TooManyExports,
    /// There is a 17th thumbnail.
    TooManyThumbnails,
    /// There is a 257th settle.
    TooManySettles,
    /// A second view where there is no second window.
    NoSecond,
    /// An undo where no edit is left to take back.
    NothingToUndo,
    /// A redo where no edit was taken back, or an edit came after.
    NothingToRedo,
}

impl fmt::Display for Reason {
    ghost output = { λ reason. Some (reason_text reason) };

    fn fmt<W: fmt::Write>(&self, f: &mut fmt::Formatter<W>) -> fmt::Result {
        match self {
            Reason::TooLong => f.write_str("too long"),
            Reason::Text => f.write_str("text"),
            Reason::Form => f.write_str("form"),
            Reason::Param(fault) => write!(f, "param {} {}", fault.field, fault.value),
            Reason::Edit(EditFault::FixedModule) => f.write_str("fixed module"),
            Reason::Edit(EditFault::NoInstance) => f.write_str("no instance"),
            Reason::Edit(EditFault::BadParams(fault)) => {
                write!(f, "param {} {}", fault.field, fault.value)
            }
            Reason::Edit(EditFault::EndPast) => f.write_str("end past"),
            Reason::Edit(EditFault::InstanceTaken) => f.write_str("instance taken"),
            Reason::Edit(EditFault::TooManyInstances) => f.write_str("too many instances"),
            Reason::Edit(EditFault::OrderRule) => f.write_str("order rule"),
            Reason::TooManyChanges => f.write_str("too many changes"),
            Reason::TooManyExports => f.write_str("too many exports"),
            Reason::TooManyThumbnails => f.write_str("too many thumbnails"),
            Reason::TooManySettles => f.write_str("too many settles"),
            Reason::NoSecond => f.write_str("no second window"),
            Reason::NothingToUndo => f.write_str("nothing to undo"),
            Reason::NothingToRedo => f.write_str("nothing to redo"),
        }
    }
}

/// What was refused: a step, counted from 1, or 0 for all that isn't a step.
#[derive(Clone, Copy, Debug, PartialEq, Eq)]
pub struct ScriptFault {
    pub step: u32,
    pub reason: Reason,
}

/// Why there is no script.
#[derive(Debug, Drop, Error)]
pub enum ScriptEnd {
    #[error("script refused at step {}: {}", .0.step, .0.reason)]
    Fault(ScriptFault),
    #[error("out of memory")]
    Memory,
}

impl From<AllocError> for ScriptEnd {
    ghost from_gives = { λ _ e. e ≡ Memory };

    fn from(_error: AllocError) -> ScriptEnd {
        ScriptEnd::Memory
    }
}

impl<T: Drop> From<AllocFailed<T>> for ScriptEnd {
    ghost from_gives = { λ _ e. e ≡ Memory };

    fn from(_error: AllocFailed<T>) -> ScriptEnd {
        ScriptEnd::Memory
    }
}
