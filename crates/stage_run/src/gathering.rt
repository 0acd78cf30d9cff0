//! The pieces of a run, and what it asks of a stage cache.
ghost use Rattle.std.specs.Prelude.{◌≡◌, ◌+◌, ◌≤◌, [], length, drop, IfOk, OnOk};
ghost use Rattle.px.specs.declared.kind.PlaneKind.{PlaneKind};
ghost use Rattle.pipe_nodes.specs.Actives.{actives_of};
ghost use Rattle.pipe_nodes.specs.Kinds.{IsRun};
ghost use Rattle.stage_run.specs.Asked.{prefixes};

use history::History;
use pipe_nodes::{Piece, Prefix, Steps, active_count, actives, commit};
use px::Region;
use std::alloc::{AllocError, Global};
use std::sync::ledger::Ledger;

// The pieces of what is active in a history, each committed anew: as many steps as there are pieces.
pub(crate) fn pieces_of<L: Ledger>(
    alloc: Global,
    history: &History,
    steps: &mut Steps<L>,
) -> Result<Vec<Piece>, AllocError>
    ensures pieces { IfOk result (λ list. list.items ≡ actives_of history.now) }
    ensures few { IfOk result (λ list. length list.items ≤ 64) }
    ensures run { IfOk result (λ list. (k : PlaneKind) → IsRun k list.items) }
    ensures steps { OnOk result (steps.new ≡ steps.old + length (actives_of history.now)) }
    ensures few_steps { steps.new ≤ steps.old + length (actives_of history.now) }
{
    let actives = actives(alloc, history)?;
    let mut pieces = Vec::with_capacity(alloc, active_count(history) as usize)?;
    for active in &actives {
        pieces.push(commit(alloc, active, steps)?)?;
    }
    Ok(pieces)
}

/// Each prefix of the pieces over that level, with the region at its place, the shortest one first. Region
/// 0 has no prefix.
pub fn stages_asked(
    alloc: Global,
    level: u8,
    pieces: &[Piece],
    regions: &[Region],
) -> Result<Vec<(Prefix, Region)>, AllocError>
    requires level { level ≤ 8 }
    requires count { length regions.now ≡ length pieces.now + 1 }
    ensures { IfOk result (λ list. list.items ≡ prefixes level [] pieces.now (drop 1 regions.now)) }
{
    let mut list = Vec::with_capacity(alloc, pieces.len())?;
    let mut prefix = Prefix::start(alloc, level)?;
    for (i, piece) in pieces.iter().enumerate() {
        prefix = prefix.then(alloc, piece.active())?;
        list.push((prefix.share()?, regions[i + 1]))?;
    }
    Ok(list)
}
