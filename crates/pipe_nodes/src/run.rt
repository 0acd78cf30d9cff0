//! The plain run: whole pictures, without caches.
ghost use Rattle.std.specs.Prelude.{◌≡◌, ◌≤◌, IfOk, unwrap_or};
ghost use Rattle.px.specs.declared.kind.PlaneKind.{PlaneKind};
ghost use Rattle.px.specs.declared.kind.PlaneKind.TheVariants.{Rgb};
ghost use Rattle.px.specs.Cut.{IsCutOf, IsWhole};
ghost use Rattle.px.specs.Picture.{Picture};
ghost use Rattle.pnm.specs.Pnm.{written};
ghost use Rattle.pipe_nodes.specs.Actives.{actives_of};
ghost use Rattle.pipe_nodes.specs.Course.{IsMadeBy};
ghost use Rattle.pipe_nodes.specs.Kinds.{AllTake, IsRun, kind_behind};
ghost use Rattle.pipe_nodes.specs.Whole.{input_of, whole};
ghost use Rattle.pipe_nodes.specs.Windows.{CanShow, needed_of, windowed};

use crate::bands::{run_bands, standing};
use crate::course::Course;
use crate::gather::actives;
use crate::legs::{run_to_last, run_written};
use crate::piece::Piece;
use crate::regions::{region_before, shape_made};
use crate::show::{Show, Window};
use crate::windowing::{needed_region, window_of};
use history::History;
use modules_raw::{Source, level};
use pnm::Raster;
use px::{Depth, Plane};
use std::alloc::{AllocError, Global};
use std::thread::Threads;

// The level of the source, where it isn't the source itself.
fn level_of<R: Threads + Sync>(
    rt: &R,
    alloc: Global,
    source: &Source,
    l: u8,
) -> Result<Option<Plane>, AllocError>
    requires level { l ≤ 8 }
    requires whole { IsWhole source.now }
    ensures whole { IfOk result (λ made. IsWhole (unwrap_or made source.now)) }
    ensures cut { IfOk result (λ made. (q : Picture) → IsCutOf q source.now → IsCutOf (input_of q l) (unwrap_or made source.now)) }
{
    if l == 0 {
        return Ok(None);
    }
    Ok(Some(level(rt, alloc, source, l)?))
}

// The pieces of what is active in a history.
fn committed(alloc: Global, history: &History) -> Result<Vec<Piece>, AllocError>
    ensures value { IfOk result (λ list. list.items ≡ actives_of history.now) }
    ensures run { IfOk result (λ list. (k : PlaneKind) → IsRun k list.items) }
{
    let actives = actives(alloc, history)?;
    let mut pieces = Vec::with_capacity(alloc, actives.len())?;
    for active in &actives {
        pieces.push_reserved(Piece::of(alloc, active.copy(alloc)?)?);
    }
    Ok(pieces)
}

// What the last leg makes of a whole picture, over the region that a window needs.
fn run_last<R: Threads + Sync>(
    rt: &R,
    alloc: Global,
    course: Course,
    plane: &Plane,
    pieces: &[Piece],
    window: &Window,
) -> Result<Plane, AllocError>
    requires out { course.geometry.out ≡ (plane.now.w, plane.now.h) }
    requires whole { IsWhole plane.now }
    requires takes { AllTake plane.now.kind pieces.now }
    requires rgb { kind_behind plane.now.kind pieces.now ≡ Rgb }
    requires can { CanShow window.now }
    ensures area { IfOk result (λ p. p.area ≡ needed_of p.w p.h window.now) }
    ensures rgb { IfOk result (λ p. p.kind ≡ Rgb) }
    ensures made { IfOk result (IsMadeBy pieces.now course plane.now) }
{
    let (w, h) = plane.sides();
    let (_, columns, rows) = shape_made(pieces, plane.kind(), w, h);
    let region = needed_region(window, columns, rows);
    prove!(plane.region().covers(region_before(pieces, w, h, region)));
    run_bands(rt, alloc, course, plane, pieces, region)
}

/// What a window shows of the picture that what is active in a history makes of a level of a source, as a
/// whole RGB plane: a run over whole pictures, by bands of rows side by side.
pub fn uncached<R: Threads + Sync>(
    rt: &R,
    alloc: Global,
    source: &Source,
    history: &History,
    show: &Show,
) -> Result<Plane, AllocError>
    requires level { show.now.level ≤ 8 }
    requires window { CanShow show.now.window }
    ensures whole { IfOk result IsWhole }
    ensures rgb { IfOk result (λ p. p.kind ≡ Rgb) }
    ensures cut { IfOk result (λ p. (q : Picture) → IsCutOf q source.now → IsCutOf (windowed (whole q show.now.level (actives_of history.now)) show.now.window) p) }
{
    let pieces = committed(alloc, history)?;
    let whole = source.plane();
    let first = level_of(rt, alloc, source, show.level)?;
    let input = standing(&first, whole);
    let course = Course::start(source, show.level);
    let last = run_to_last(rt, alloc, course, input, None, &pieces)?;
    let plane = standing(&last.made, input);
    let made = run_last(rt, alloc, last.course, plane, last.pieces, &show.window)?;
    match show.window {
        Window::Whole => Ok(made),
        _ => window_of(rt, alloc, &made, &show.window),
    }
}

/// The bytes of a P6 of that depth, with its sides, of the whole picture that what is active in a history
/// makes of the picture of a raster. Each band is decoded, made and written by itself, so that neither a
/// plane of the source nor one of the result stands whole.
pub fn developed_bytes<R: Threads + Sync>(
    rt: &R,
    alloc: Global,
    raster: &Raster<'_>,
    history: &History,
    depth: Depth,
) -> Result<(u32, u32, Vec<u8>), AllocError>
    ensures wide { IfOk result (λ made. (q : Picture) → IsCutOf q raster.now → made.0 ≡ (whole q 0 (actives_of history.now)).w) }
    ensures high { IfOk result (λ made. (q : Picture) → IsCutOf q raster.now → made.1 ≡ (whole q 0 (actives_of history.now)).h) }
    ensures bytes { IfOk result (λ made. (q : Picture) → IsCutOf q raster.now → made.2.items ≡ written (whole q 0 (actives_of history.now)) depth) }
{
    let pieces = committed(alloc, history)?;
    let (w, h) = raster.sides();
    let course = Course::at(w, h, 0);
    run_written(rt, alloc, course, raster, &pieces, depth)
}
