//! An instance of exposure as a piece.
ghost use Rattle.std.specs.Prelude.{◌≡◌, ◌<◌, IfOk, None};
ghost use Rattle.params.specs.declared.settings.Params.TheVariants.{Exposure as exposure_params};
ghost use Rattle.pipe_nodes.specs.Active.{IsFit};

use params::{Exposure, Params};
use pipe_nodes::{Active, Piece, Steps, commit};
use std::alloc::{AllocError, Global};
use std::sync::ledger::{Blank, Ledger};

/// Takes 1000 away and doubles.
pub(crate) const DOUBLING: Exposure = Exposure {
    black: 1000,
    gain: 8192,
    stops: 0,
};

/// The instance of that number.
pub(crate) fn active_of(instance: u8, exposure: Exposure) -> Active
    ensures { result ≡ record { instance = instance; params = exposure_params exposure; blend = None } }
{
    Active {
        instance,
        params: Params::Exposure(exposure),
        blend: None,
    }
}

/// Commits in a ledger of its own.
pub(crate) fn committed<L: Ledger>(
    alloc: Global,
    active: &Active,
    blank: Blank,
) -> Result<Piece, AllocError>
    requires fit { IsFit active.now }
    requires name { blank.name ≡ L.name }
    requires parts { blank.parts ≡ L.parts }
    requires some { 0 < blank.parts }
    ensures { IfOk result (λ p. p ≡ active.now) }
{
    let mut steps = Steps::<L>::start(blank);
    commit(alloc, active, &mut steps)
}
