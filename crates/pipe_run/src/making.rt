//! The steps of a run: its input, one piece, and the window.
ghost use Rattle.std.specs.Prelude.{◌≡◌, ◌+◌, ◌≤◌, [], ◌∷◌, ◌++◌, IfOk, IfSome, is_ok, if◌then◌else◌};
ghost use Rattle.std.specs.Arc.{arc_value};
ghost use Rattle.px.specs.declared.kind.PlaneKind.TheVariants.{Rgb};
ghost use Rattle.px.specs.Area.{Covers, IsIn};
ghost use Rattle.px.specs.Cut.{IsCutOf, IsWhole, picture_of};
ghost use Rattle.pipe_nodes.specs.Applied.{CanApply};
ghost use Rattle.geometry.specs.Sides.{sides_after};
ghost use Rattle.pipe_nodes.specs.Kinds.{kind_after};
ghost use Rattle.pipe_nodes.specs.Prefix.{prefix};
ghost use Rattle.pipe_nodes.specs.Staged.{IsRight};
ghost use Rattle.pipe_nodes.specs.Whole.{input_of, whole};
ghost use Rattle.pipe_nodes.specs.Windows.{CanShow, needed_of, windowed};
ghost use Rattle.pipe_run.specs.Planned.{sides_at};
ghost use Rattle.pipe_run.specs.Running.{IsReady};

use modules_raw::Source;
use pipe_nodes::{Piece, Prefix, Show, Staged, Steps, window_of};
use px::{Plane, Region};
use std::alloc::{AllocError, Global};
use std::sync::Arc;
use std::sync::ledger::Ledger;
use std::thread::Threads;

// A region of a level of a source, from a plane of that level where one is ready.
fn input<R: Threads + Sync>(
    rt: &R,
    alloc: Global,
    source: &Source,
    level: u8,
    ready: Option<&Plane>,
    region: Region,
) -> Result<Plane, AllocError>
    requires level { level ≤ 8 }
    requires inside { IsIn region (sides_at source.now level).0 (sides_at source.now level).1 }
    requires ready { IfSome ready (λ p. IsReady source.now level region p.now) }
    ensures area { IfOk result (λ p. p.area ≡ region) }
    ensures cut { IfOk result (λ p. IsCutOf (input_of (picture_of source.now) level) p) }
{
    if let Some(plane) = ready {
        return plane.cut(alloc, region);
    }
    if level == 0 {
        return source.plane().cut(alloc, region);
    }
    let whole = modules_raw::level(rt, alloc, source, level)?;
    whole.cut(alloc, region)
}

/// The stage with which a run begins: a region of a level of a source, and no piece yet. Where a plane of
/// that level is ready that covers the region, it is cut out of it.
pub fn load<R: Threads + Sync>(
    rt: &R,
    alloc: Global,
    source: &Arc<Source>,
    level: u8,
    ready: Option<&Plane>,
    region: Region,
) -> Result<Staged, AllocError>
    requires level { level ≤ 8 }
    requires inside { IsIn region (sides_at (arc_value source.now) level).0 (sides_at (arc_value source.now) level).1 }
    requires ready { IfSome ready (λ p. IsReady (arc_value source.now) level region p.now) }
    ensures prefix { IfOk result (λ s. s.prefix ≡ prefix level []) }
    ensures area { IfOk result (λ s. s.plane.area ≡ region) }
    ensures source { IfOk result (λ s. s.source ≡ arc_value source.now) }
    ensures kind { IfOk result (λ s. s.plane.kind ≡ (input_of (picture_of (arc_value source.now)) level).kind) }
    ensures sides { IfOk result (λ s. (s.plane.w, s.plane.h) ≡ sides_at (arc_value source.now) level) }
    ensures right { IfOk result IsRight }
{
    let plane = input(rt, alloc, source, level, ready, region)?;
    let prefix = Prefix::start(alloc, level)?;
    Staged::of(alloc, prefix, plane, Arc::try_clone(source)?)
}

/// The stage behind one piece more, over a region of its output. It is one step of work. The region lies
/// in that output, the stage before covers what it needs, and is RGB unless the piece is of raw
/// preparation, temperature or demosaic.
pub fn process<R: Threads + Sync, L: Ledger>(
    rt: &R,
    alloc: Global,
    piece: &Piece,
    from: &Staged,
    region: Region,
    steps: &mut Steps<L>,
) -> Result<Staged, AllocError>
    requires { CanApply piece.now.params from.now.plane region }
    ensures prefix { IfOk result (λ s. s.prefix ≡ prefix from.now.prefix.level (from.now.prefix.actives ++ piece.now ∷ [])) }
    ensures area { IfOk result (λ s. s.plane.area ≡ region) }
    ensures source { IfOk result (λ s. s.source ≡ from.now.source) }
    ensures kind { IfOk result (λ s. s.plane.kind ≡ kind_after from.now.plane.kind piece.now.params) }
    ensures sides { IfOk result (λ s. (s.plane.w, s.plane.h) ≡ sides_after piece.now.params (from.now.plane.w, from.now.plane.h)) }
    ensures right { IfOk result IsRight }
    ensures one { steps.new ≡ (if is_ok result then steps.old + 1 else steps.old) }
{
    let plane = piece.render(rt, alloc, from, region)?;
    let prefix = from.prefix().then(alloc, piece.active())?;
    let source = Arc::try_clone(from.source())?;
    let staged = Staged::of(alloc, prefix, plane, source)?;
    steps.tick();
    Ok(staged)
}

/// What a window shows of the picture of a stage, as a whole plane: the window of the run over whole
/// pictures. The stage is RGB and covers what the window needs.
pub fn finish<R: Threads + Sync>(
    rt: &R,
    alloc: Global,
    staged: &Staged,
    show: &Show,
) -> Result<Plane, AllocError>
    requires rgb { staged.now.plane.kind ≡ Rgb }
    requires window { CanShow show.now.window }
    requires covers { Covers staged.now.plane.area (needed_of staged.now.plane.w staged.now.plane.h show.now.window) }
    ensures whole { IfOk result IsWhole }
    ensures rgb { IfOk result (λ p. p.kind ≡ Rgb) }
    ensures cut { IfOk result (λ p. IsCutOf (windowed (whole (picture_of staged.now.source) staged.now.prefix.level staged.now.prefix.actives) show.now.window) p) }
{
    window_of(rt, alloc, staged.plane(), &show.window)
}
