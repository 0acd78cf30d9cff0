//! A whole run.
ghost use Rattle.std.specs.Prelude.{◌≡◌, ◌+◌, ◌≤◌, length, IfOk, OnOk};
ghost use Rattle.std.specs.Arc.{arc_value};
ghost use Rattle.px.specs.declared.kind.PlaneKind.{PlaneKind};
ghost use Rattle.px.specs.declared.kind.PlaneKind.TheVariants.{Rgb};
ghost use Rattle.px.specs.Cut.{IsCutOf, IsWhole, picture_of};
ghost use Rattle.pipe_nodes.specs.Kinds.{IsRun};
ghost use Rattle.pipe_nodes.specs.Whole.{whole};
ghost use Rattle.pipe_nodes.specs.Windows.{CanShow, windowed};
ghost use Rattle.pipe_run.specs.Planned.{sides_at, planned, AreInside};
ghost use Rattle.pipe_run.specs.Running.{Ends};

use crate::making::{finish, load, process};
use crate::planning::plan;
use modules_raw::Source;
use pipe_nodes::{Piece, Show, Staged, Steps, Window};
use px::{Plane, Region};
use std::alloc::{AllocError, Global};
use std::sync::Arc;
use std::sync::ledger::Ledger;
use std::thread::Threads;

// The stage behind all pieces, over the planned regions one after another.
fn stage_behind<R: Threads + Sync, L: Ledger>(
    rt: &R,
    alloc: Global,
    source: &Arc<Source>,
    level: u8,
    pieces: &[Piece],
    regions: &[Region],
    window: &Window,
    steps: &mut Steps<L>,
) -> Result<Staged, AllocError>
    requires level { level ≤ 8 }
    requires run { (k : PlaneKind) → IsRun k pieces.now }
    requires count { length regions.now ≡ length pieces.now + 1 }
    requires planned { regions.now ≡ planned pieces.now (sides_at (arc_value source.now) level) window.now }
    requires inside { AreInside pieces.now (sides_at (arc_value source.now) level) regions.now }
    ensures ends { IfOk result (λ s. Ends (arc_value source.now) level pieces.now window.now s) }
    ensures steps { OnOk result (steps.new ≡ steps.old + length pieces.now) }
    ensures few { steps.new ≤ steps.old + length pieces.now }
{
    let mut staged = load(rt, alloc, source, level, None, regions[0])?;
    for (i, piece) in pieces.iter().enumerate() {
        staged = process(rt, alloc, piece, &staged, regions[i + 1], steps)?;
    }
    Ok(staged)
}

/// A run of the pieces from its plan to its window, one step for each piece. It shows what the same pieces
/// make over whole pictures, and holds no plane beyond the planned regions.
pub fn run<R: Threads + Sync, L: Ledger>(
    rt: &R,
    alloc: Global,
    source: &Arc<Source>,
    pieces: &[Piece],
    show: &Show,
    steps: &mut Steps<L>,
) -> Result<Plane, AllocError>
    requires level { show.now.level ≤ 8 }
    requires window { CanShow show.now.window }
    requires run { (k : PlaneKind) → IsRun k pieces.now }
    ensures whole { IfOk result IsWhole }
    ensures rgb { IfOk result (λ p. p.kind ≡ Rgb) }
    ensures cut { IfOk result (λ p. IsCutOf (windowed (whole (picture_of (arc_value source.now)) show.now.level pieces.now) show.now.window) p) }
    ensures steps { OnOk result (steps.new ≡ steps.old + length pieces.now) }
    ensures few { steps.new ≤ steps.old + length pieces.now }
{
    let regions = plan(alloc, pieces, source, show)?;
    let level = show.level;
    let staged = stage_behind(
        rt,
        alloc,
        source,
        level,
        pieces,
        &regions,
        &show.window,
        steps,
    )?;
    finish(rt, alloc, &staged, show)
}
