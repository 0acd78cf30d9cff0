ghost use Rattle.std.specs.Prelude.{◌≡◌};
ghost use Rattle.outside.specs.declared.failed.Failed.TheVariants.{Memory};

use std::alloc::{AllocError, AllocFailed};
use thiserror::Error;

/// Why a call to the outside gave nothing.
#[derive(Clone, Copy, Debug, Drop, PartialEq, Eq, Error)]
pub enum Failed {
    /// The file or the output refused. The count of faults of that name rose.
    #[error("fault")]
    Fault,
    /// No memory was left for the call.
    #[error("out of memory")]
    Memory,
}

impl From<AllocError> for Failed {
    ghost from_gives = { λ _ e. e ≡ Memory };

    fn from(_error: AllocError) -> Failed {
        Failed::Memory
    }
}

impl<T: Drop> From<AllocFailed<T>> for Failed {
    ghost from_gives = { λ _ e. e ≡ Memory };

    fn from(_error: AllocFailed<T>) -> Failed {
        Failed::Memory
    }
}
