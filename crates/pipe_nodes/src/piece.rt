ghost use Rattle.std.specs.Prelude.{◌≡◌, ◌+◌, IfOk, IsSome, Some, if◌then◌else◌, is_ok};
ghost use Rattle.params.specs.declared.settings.Params.TheVariants.{ToneCurve as curve_params};
ghost use Rattle.modules_colour.specs.Curving.{Tables, IsTableOf};
ghost use Rattle.params.specs.declared.settings.ToneCurve.{ToneCurve as Curve};
ghost use Rattle.params.specs.Ranges.{IsWithin};
ghost use Rattle.pipe_nodes.specs.Active.{IsFit};

use crate::active::Active;
use crate::steps::Steps;
use modules_colour::CurveTable;
use params::{Params, ToneCurve};
use std::alloc::{AllocError, Global};
use std::marker::Model;
use std::sync::ledger::Ledger;

/// A module instance made ready to work on pictures: a tone curve has the tables of its channels. Only
/// `commit` makes one.
#[derive(Debug, Drop)]
pub struct Piece {
    active: Active,
    table: Option<CurveTable>,
}

impl Model for Piece {
    ghost use Rattle.pipe_nodes.specs.declared.active.Active.{Active};
    ghost use Rattle.pipe_nodes.specs.Piece.{IsReady};

    ghost Value = { Active };

    ghost view = { λ p. p.active };

    ghost invariant = { λ p. IsReady p.active p.table };
}

// The tables of a tone curve; other modules have none.
fn table_of(alloc: Global, params: &Params) -> Result<Option<CurveTable>, AllocError>
    requires { IsWithin params.now }
    ensures some { IfOk result (λ made. (curve : Curve) → params.now ≡ curve_params curve → IsSome made) }
    ensures are { IfOk result (λ made. (curve : Curve) (t : Tables) → params.now ≡ curve_params curve → made ≡ Some t → IsTableOf curve t) }
{
    match params {
        Params::ToneCurve(curve) => Ok(Some(CurveTable::make(alloc, curve)?)),
        _ => Ok(None),
    }
}

impl Piece {
    /// The module instance that was committed.
    pub fn active(&self) -> &Active
        ensures active { result.now ≡ self.now }
        ensures fit { IsFit self.now }
    {
        &self.active
    }

    // The instance made ready.
    pub(crate) fn of(alloc: Global, active: Active) -> Result<Piece, AllocError>
        requires fit { IsFit active }
        ensures { IfOk result (λ p. p ≡ active) }
    {
        prove!(params::check(&active.params).is_ok());
        let table = table_of(alloc, &active.params)?;
        Ok(Piece { active, table })
    }

    // The tables of the tone curve that the piece is.
    pub(crate) fn table(&self, _curve: &ToneCurve) -> &CurveTable
        requires { self.now.params ≡ curve_params _curve.now }
        ensures { IsTableOf _curve.now result.now }
    {
        match &self.table {
            Some(table) => table,
            None => unreachable!(),
        }
    }
}

/// Makes a module instance ready to work, which is one step.
pub fn commit<L: Ledger>(
    alloc: Global,
    active: &Active,
    steps: &mut Steps<L>,
) -> Result<Piece, AllocError>
    requires fit { IsFit active.now }
    ensures piece { IfOk result (λ p. p ≡ active.now) }
    ensures one { steps.new ≡ (if is_ok result then steps.old + 1 else steps.old) }
{
    let piece = Piece::of(alloc, active.copy(alloc)?)?;
    steps.tick();
    Ok(piece)
}
