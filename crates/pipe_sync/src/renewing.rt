//! New pieces from old ones.
ghost use Rattle.std.specs.Prelude.{◌≡◌, ◌+◌, ◌≤◌, IfOk};
ghost use Rattle.pipe_nodes.specs.Active.{IsFit};
ghost use Rattle.pipe_nodes.specs.Actives.{actives_of};
ghost use Rattle.pipe_nodes.specs.Kinds.{IsRun};
ghost use Rattle.px.specs.declared.kind.PlaneKind.{PlaneKind};
ghost use Rattle.pipe_sync.specs.Changed.{change_at, changed_places};

use history::History;
use pipe_nodes::{Active, Piece, Steps, actives, commit};
use std::alloc::{AllocError, Global};
use std::collections::VecDeque;
use std::sync::ledger::Ledger;

// Does nothing: what is active in a history is a run from every kind of picture.
pub(crate) fn is_run(history: &History)
    ensures { (k : PlaneKind) → IsRun k (actives_of history.now) }
{
    let _ = history.order().len();
}

// The piece that stood at the instance's place where it is of the same instance with the same values,
// or else a new one.
fn kept_or_new<L: Ledger>(
    alloc: Global,
    old: Option<Piece>,
    active: &Active,
    steps: &mut Steps<L>,
) -> Result<Piece, AllocError>
    requires fit { IsFit active.now }
    ensures piece { IfOk result (λ p. p ≡ active.now) }
    ensures more { steps.old ≤ steps.new }
    ensures few { steps.new ≤ steps.old + change_at old active.now }
{
    if let Some(piece) = old {
        if piece.active() == active {
            return Ok(piece);
        }
    }
    commit(alloc, active, steps)
}

// The pieces of what is active in a history: of the old ones, each that stays at its place.
pub(crate) fn renewed<L: Ledger>(
    alloc: Global,
    old: Vec<Piece>,
    history: &History,
    steps: &mut Steps<L>,
) -> Result<Vec<Piece>, AllocError>
    ensures pieces { IfOk result (λ list. list.items ≡ actives_of history.now) }
    ensures more { steps.old ≤ steps.new }
    ensures few { steps.new ≤ steps.old + changed_places old.items (actives_of history.now) }
{
    let actives = actives(alloc, history)?;
    let mut left = VecDeque::from_vec(old);
    let mut pieces = Vec::with_capacity(alloc, actives.len())?;
    for active in &actives {
        pieces.push_reserved(kept_or_new(alloc, left.pop_front(), active, steps)?);
    }
    Ok(pieces)
}
