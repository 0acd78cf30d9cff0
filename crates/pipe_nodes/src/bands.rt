//! Runs of pieces by bands of rows, side by side. A band goes through all pieces before the next one, in
//! small planes that stay in a processor's cache.
ghost use Rattle.std.specs.Prelude.{◌≡◌, ◌<◌, ◌≤◌, IfOk, None, unwrap_or};
ghost use Rattle.std.specs.Option.{option_or};
ghost use Rattle.px.specs.declared.kind.PlaneKind.TheVariants.{Rgb};
ghost use Rattle.px.specs.Area.{Covers};
ghost use Rattle.px.specs.Bands.{IsShaped};
ghost use Rattle.px.specs.Cut.{Cut, IsCutOf, IsWhole};
ghost use Rattle.px.specs.Picture.{Picture};
ghost use Rattle.pnm.specs.Pnm.{written};
ghost use Rattle.pipe_nodes.specs.Course.{CanRun, IsMadeBy, sides_made};
ghost use Rattle.pipe_nodes.specs.Kinds.{AllTake, kind_behind};

use crate::course::Course;
use crate::input::Input;
use crate::making::make;
use crate::piece::Piece;
use crate::regions::{region_before, shape_made};
use geometry::roi_out;
use params::Params;
use px::{Depth, Plane, Region, paint_bands};
use std::alloc::{AllocError, Global};
use std::thread::Threads;

// As many pixels of a band as leave two of its planes in a processor's cache.
const BAND_PIXELS: u32 = 24_576;

// How many rows above and below a module looks at.
pub(crate) fn reach(params: &Params) -> u32 {
    match params {
        Params::BoxBlur(blur) => blur.radius,
        Params::Sharpen(sharpen) => sharpen.radius,
        _ => 0,
    }
}

// How many rows a band of a leg has at most, where a row has so many columns. A module that looks around
// begins each band with the rows above it, so there a band has as many rows of its own.
fn band_rows(pieces: &[Piece], columns: u32) -> u32
    ensures { 0 < result }
{
    let around = match pieces.first() {
        Some(piece) => reach(&piece.active().params).min(64),
        None => 0,
    };
    (BAND_PIXELS / columns.max(1)).max(around).max(1)
}

// The plane that was made, or else the one before.
pub(crate) fn standing<'a>(made: &'a Option<Plane>, before: &'a Plane) -> &'a Plane
    ensures { result.now ≡ unwrap_or made.now before.now }
{
    match made {
        Some(plane) => plane,
        None => before,
    }
}

// A region of the plane that was made, or else of the one before.
fn narrowed(
    alloc: Global,
    made: Option<Plane>,
    before: &Plane,
    region: Region,
) -> Result<Plane, AllocError>
    requires covers { Covers (unwrap_or made before.now).area region }
    ensures area { IfOk result (λ p. p.area ≡ region) }
    ensures cut { IfOk result (λ p. (q : Picture) → IsCutOf q (unwrap_or made before.now) → IsCutOf q p) }
{
    match made {
        Some(plane) => {
            if plane.region() == region {
                return Ok(plane);
            }
            plane.cut(alloc, region)
        }
        None => before.cut(alloc, region),
    }
}

// The plane that stands now, if one was made, and the one that it takes the place of.
fn passed_on(next: Option<Plane>, made: Option<Plane>) -> (Option<Plane>, Option<Plane>)
    ensures { result.0 ≡ option_or next made }
{
    match next {
        Some(plane) => (Some(plane), made),
        None => (made, None),
    }
}

// A region of what the pieces make of the plane that was made, or else of the input, one after the other. A
// spare plane, which nobody needs any more, lends the next one its memory.
pub(crate) fn run_in_turn(
    alloc: Global,
    course: Course,
    input: &Plane,
    made: Option<Plane>,
    spare: Option<Plane>,
    pieces: &[Piece],
    region: Region,
) -> Result<Plane, AllocError>
    requires out { course.geometry.out ≡ ((unwrap_or made input.now).w, (unwrap_or made input.now).h) }
    requires can { CanRun pieces.now (unwrap_or made input.now) region }
    ensures shaped { IfOk result (IsShaped (kind_behind (unwrap_or made input.now).kind pieces.now) (sides_made pieces.now ((unwrap_or made input.now).w, (unwrap_or made input.now).h)).0 (sides_made pieces.now ((unwrap_or made input.now).w, (unwrap_or made input.now).h)).1 region) }
    ensures made { IfOk result (IsMadeBy pieces.now course (unwrap_or made input.now)) }
{
    let Some((piece, later)) = pieces.split_first() else {
        return narrowed(alloc, made, input, region);
    };
    let active = piece.active();
    let plane = standing(&made, input);
    let (w, h) = plane.sides();
    prove!(params::check(&active.params).is_ok());
    let (columns, rows) = roi_out(&active.params, w, h);
    let needed = region_before(later, columns, rows, region);
    let next = make(
        alloc,
        spare,
        piece,
        course.level(),
        &course.tracing(),
        plane,
        needed,
    )?;
    let mut behind = course;
    behind.push(active);
    let (made, spare) = passed_on(next, made);
    run_in_turn(alloc, behind, input, made, spare, later, region)
}

/// A region of what the pieces make of a run's input, put together from bands of rows.
pub(crate) fn run_bands<R: Threads + Sync, I: Input + Sync>(
    rt: &R,
    alloc: Global,
    course: Course,
    input: &I,
    pieces: &[Piece],
    region: Region,
) -> Result<Plane, AllocError>
    requires out { course.geometry.out ≡ ((I.seen input.now).w, (I.seen input.now).h) }
    requires can { CanRun pieces.now (I.seen input.now) region }
    ensures shaped { IfOk result (IsShaped (kind_behind (I.seen input.now).kind pieces.now) (sides_made pieces.now ((I.seen input.now).w, (I.seen input.now).h)).0 (sides_made pieces.now ((I.seen input.now).w, (I.seen input.now).h)).1 region) }
    ensures made { IfOk result (IsMadeBy pieces.now course (I.seen input.now)) }
{
    let (own, w, h) = input.shape();
    let (kind, columns, high) = shape_made(pieces, own, w, h);
    let make = |band: Region| -> Result<Plane, AllocError>
        requires out { course.geometry.out ≡ ((I.seen input.now).w, (I.seen input.now).h) }
        requires can { CanRun pieces.now (I.seen input.now) band }
        ensures shaped { IfOk result (IsShaped (kind_behind (I.seen input.entry.now).kind pieces.entry.now) (sides_made pieces.entry.now ((I.seen input.entry.now).w, (I.seen input.entry.now).h)).0 (sides_made pieces.entry.now ((I.seen input.entry.now).w, (I.seen input.entry.now).h)).1 band) }
        ensures made { IfOk result (IsMadeBy pieces.entry.now course (I.seen input.entry.now)) }
    { input.run(alloc, course, pieces, band) };
    let rows = band_rows(pieces, region.w);
    paint_bands(rt, alloc, kind, columns, high, region, rows, make)
}

/// The bytes, as a P6 of that depth, of the whole picture that the pieces make of a whole input, with its
/// sides. No plane of that picture stands whole.
pub(crate) fn run_bytes<R: Threads + Sync, I: Input + Sync>(
    rt: &R,
    alloc: Global,
    course: Course,
    input: &I,
    pieces: &[Piece],
    depth: Depth,
) -> Result<(u32, u32, Vec<u8>), AllocError>
    requires out { course.geometry.out ≡ ((I.seen input.now).w, (I.seen input.now).h) }
    requires whole { IsWhole (I.seen input.now) }
    requires takes { AllTake (I.seen input.now).kind pieces.now }
    requires rgb { kind_behind (I.seen input.now).kind pieces.now ≡ Rgb }
    ensures sides { IfOk result (λ made. (made.0, made.1) ≡ sides_made pieces.now ((I.seen input.now).w, (I.seen input.now).h)) }
    ensures bytes { IfOk result (λ made. (q : Picture) → ((o : Cut) → IsMadeBy pieces.now course (I.seen input.now) o → IsCutOf q o) → made.2.items ≡ written q depth) }
{
    let (own, w, h) = input.shape();
    let (_, columns, high) = shape_made(pieces, own, w, h);
    let region = Region::whole(columns, high);
    prove!(input.held().covers(region_before(pieces, w, h, region)));
    let make = |band: Region| -> Result<Plane, AllocError>
        requires out { course.geometry.out ≡ ((I.seen input.now).w, (I.seen input.now).h) }
        requires can { CanRun pieces.now (I.seen input.now) band }
        ensures shaped { IfOk result (IsShaped (kind_behind (I.seen input.entry.now).kind pieces.entry.now) (sides_made pieces.entry.now ((I.seen input.entry.now).w, (I.seen input.entry.now).h)).0 (sides_made pieces.entry.now ((I.seen input.entry.now).w, (I.seen input.entry.now).h)).1 band) }
        ensures made { IfOk result (IsMadeBy pieces.entry.now course (I.seen input.entry.now)) }
    { input.run(alloc, course, pieces, band) };
    let rows = band_rows(pieces, columns);
    let bytes = pnm::write_bands(rt, alloc, columns, high, depth, rows, make)?;
    Ok((columns, high, bytes))
}
