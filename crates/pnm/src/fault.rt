ghost use Rattle.std.specs.Prelude.{Some};
ghost use Rattle.pnm.specs.Texts.{kind_text};

use std::alloc::AllocError;
use std::fmt;
use thiserror::Error;

/// Why bytes aren't a picture.
#[derive(Clone, Copy, Debug, PartialEq, Eq)]
pub enum PnmKind {
    /// The bytes begin with none of Netpbm's magics.
    BadMagic,
    /// A Netpbm form that isn't read here.
    OtherForm,
    /// A gap, a digit or a side is missing or 0.
    BadHeader,
    /// A side or the number of pixels is above the limit.
    TooLarge,
    /// A mosaic with a side of 1.
    TooSmall,
    /// The greatest sample is 0 or above 65,535.
    BadMaxval,
    /// The raster ends early.
    Short,
}

impl fmt::Display for PnmKind {
    ghost output = { λ kind. Some (kind_text kind) };

    fn fmt<W: fmt::Write>(&self, f: &mut fmt::Formatter<W>) -> fmt::Result {
        f.write_str(match self {
            PnmKind::BadMagic => "bad magic",
            PnmKind::OtherForm => "other form",
            PnmKind::BadHeader => "bad header",
            PnmKind::TooLarge => "too large",
            PnmKind::TooSmall => "too small",
            PnmKind::BadMaxval => "bad maxval",
            PnmKind::Short => "short",
        })
    }
}

/// What was refused, and at which byte, counted from 0.
#[derive(Clone, Copy, Debug, PartialEq, Eq)]
pub struct PnmFault {
    pub kind: PnmKind,
    pub place: u64,
}

/// Why nothing was read.
#[derive(Debug, Drop, Error)]
pub enum PnmEnd {
    #[error("source refused at byte {}: {}", .0.place, .0.kind)]
    Fault(PnmFault),
    #[error("out of memory")]
    Memory,
}

impl From<AllocError> for PnmEnd {
    ghost use Rattle.std.specs.Prelude.{◌≡◌};
    ghost use Rattle.pnm.specs.declared.fault.PnmEnd.TheVariants.{Memory};

    ghost from_gives = { λ _ e. e ≡ Memory };

    fn from(_: AllocError) -> PnmEnd {
        PnmEnd::Memory
    }
}
