use outside::Name;
use std::alloc::AllocError;
use thiserror::Error;

/// Why not all files were put.
#[derive(Debug, Drop, Error)]
pub enum PutEnd {
    /// The shelf refused the file of this name.
    #[error("the file {name} was refused")]
    Fault { name: Name },
    #[error("out of memory")]
    Memory,
}

impl From<AllocError> for PutEnd {
    ghost use Rattle.std.specs.Prelude.{◌≡◌};
    ghost use Rattle.publish.specs.declared.put_end.PutEnd.TheVariants.{Memory};

    ghost from_gives = { λ _ e. e ≡ Memory };

    fn from(_error: AllocError) -> PutEnd {
        PutEnd::Memory
    }
}
