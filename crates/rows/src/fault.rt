ghost use Rattle.std.specs.Prelude.{◌≡◌};
ghost use Rattle.rows.specs.declared.fault.RowsEnd.TheVariants.{Memory};

use hex::FromHexError;
use std::alloc::{AllocError, AllocFailed};
use thiserror::Error;

/// Why a line of the table was not run.
#[derive(Debug, Drop, Error)]
pub enum RowsEnd {
    /// The line has no form of the table, or names a value that isn't above it.
    #[error("no row and no value")]
    Form,
    #[error("out of memory")]
    Memory,
}

impl From<AllocError> for RowsEnd {
    ghost from_gives = { λ _ end. end ≡ Memory };

    fn from(_error: AllocError) -> RowsEnd {
        RowsEnd::Memory
    }
}

impl<T: Drop> From<AllocFailed<T>> for RowsEnd {
    ghost from_gives = { λ _ end. end ≡ Memory };

    fn from(_error: AllocFailed<T>) -> RowsEnd {
        RowsEnd::Memory
    }
}

impl From<FromHexError> for RowsEnd {
    fn from(error: FromHexError) -> RowsEnd {
        match error {
            FromHexError::OutOfMemory => RowsEnd::Memory,
            _ => RowsEnd::Form,
        }
    }
}
