//! The legs of a run: pieces that go through bands together. A leg ends before a piece for which a band would need
//! much more than its own rows, so that such a piece begins with a whole picture.
ghost use Rattle.std.specs.Prelude.{◌≡◌, ℕ, ◌<◌, ◌≤◌, List, ◌++◌, IfOk, length, unwrap_or};
ghost use Rattle.px.specs.Bands.{IsShaped};
ghost use Rattle.px.specs.declared.kind.PlaneKind.TheVariants.{Rgb};
ghost use Rattle.px.specs.Cut.{Cut, IsCutOf, IsWhole};
ghost use Rattle.px.specs.Picture.{Picture};
ghost use Rattle.pnm.specs.Pnm.{written};
ghost use Rattle.pipe_nodes.specs.declared.active.Active.{Active as AnyActive};
ghost use Rattle.pipe_nodes.specs.Course.{HasCome, IsMadeBy, IsLastLeg, sides_made};
ghost use Rattle.pipe_nodes.specs.Kinds.{AllTake, kind_behind};

use crate::bands::{reach, run_bands, run_bytes};
use crate::course::Course;
use crate::input::Input;
use crate::piece::Piece;
use crate::regions::{region_before, shape_made};
use params::Params;
use px::{Depth, Plane, Region};
use std::alloc::{AllocError, Global};
use std::thread::Threads;

// A radius up to which a piece is worth making again the rows that its band's neighbours make too.
const NEAR: u32 = 2;

// Whether a leg begins with a piece: it looks far around, or makes columns of rows.
fn begins_leg(piece: &Piece) -> bool {
    match &piece.active().params {
        Params::Orientation(turn) => turn.swap,
        params => reach(params) > NEAR,
    }
}

// How many pieces the first leg has.
fn leg_len(pieces: &[Piece]) -> usize
    ensures few { result ≤ length pieces.now }
    ensures some { 0 < length pieces.now → 0 < result }
{
    for i in 1..pieces.len() {
        if begins_leg(&pieces[i]) {
            return i;
        }
    }
    pieces.len()
}

// How far a run has come behind these pieces.
fn course_behind(course: Course, pieces: &[Piece]) -> Course
    ensures out { result.geometry.out ≡ sides_made pieces.now course.geometry.out }
    ensures come { (q : Picture) (level : ℕ) (before : List AnyActive) → HasCome q level before course → HasCome q level (before ++ pieces.now) result }
{
    let Some((piece, later)) = pieces.split_first() else {
        return course;
    };
    let mut behind = course;
    behind.push(piece.active());
    course_behind(behind, later)
}

// The whole picture that the pieces of a leg make of a whole picture.
fn run_whole<R: Threads + Sync, I: Input + Sync>(
    rt: &R,
    alloc: Global,
    course: Course,
    input: &I,
    pieces: &[Piece],
) -> Result<Plane, AllocError>
    requires out { course.geometry.out ≡ ((I.seen input.now).w, (I.seen input.now).h) }
    requires whole { IsWhole (I.seen input.now) }
    requires takes { AllTake (I.seen input.now).kind pieces.now }
    ensures whole { IfOk result IsWhole }
    ensures kind { IfOk result (λ p. p.kind ≡ kind_behind (I.seen input.now).kind pieces.now) }
    ensures sides { IfOk result (λ p. (p.w, p.h) ≡ sides_made pieces.now ((I.seen input.now).w, (I.seen input.now).h)) }
    ensures made { IfOk result (IsMadeBy pieces.now course (I.seen input.now)) }
{
    let (own, w, h) = input.shape();
    let (_, columns, rows) = shape_made(pieces, own, w, h);
    let region = Region::whole(columns, rows);
    prove!(input.held().covers(region_before(pieces, w, h, region)));
    run_bands(rt, alloc, course, input, pieces, region)
}

// What a leg makes of the whole picture that was made, or else of the input.
fn run_leg<R: Threads + Sync, I: Input + Sync>(
    rt: &R,
    alloc: Global,
    course: Course,
    input: &I,
    made: &Option<Plane>,
    pieces: &[Piece],
) -> Result<Plane, AllocError>
    requires out { course.geometry.out ≡ ((unwrap_or made.now (I.seen input.now)).w, (unwrap_or made.now (I.seen input.now)).h) }
    requires whole { IsWhole (unwrap_or made.now (I.seen input.now)) }
    requires takes { AllTake (unwrap_or made.now (I.seen input.now)).kind pieces.now }
    ensures whole { IfOk result IsWhole }
    ensures kind { IfOk result (λ p. p.kind ≡ kind_behind (unwrap_or made.now (I.seen input.now)).kind pieces.now) }
    ensures sides { IfOk result (λ p. (p.w, p.h) ≡ sides_made pieces.now ((unwrap_or made.now (I.seen input.now)).w, (unwrap_or made.now (I.seen input.now)).h)) }
    ensures made { IfOk result (IsMadeBy pieces.now course (unwrap_or made.now (I.seen input.now))) }
{
    match made {
        Some(plane) => run_whole(rt, alloc, course, plane, pieces),
        None => run_whole(rt, alloc, course, input, pieces),
    }
}

/// What is left of a run when all its legs but the last one are done: how far it has come, the whole
/// picture there, where that isn't the one with which it began, and the pieces of the last leg.
#[derive(Drop)]
pub(crate) struct LastLeg<'a> {
    pub(crate) course: Course,
    pub(crate) made: Option<Plane>,
    pub(crate) pieces: &'a [Piece],
}

// Runs all legs but the last one, over whole pictures.
pub(crate) fn run_to_last<'a, R: Threads + Sync, I: Input + Sync>(
    rt: &R,
    alloc: Global,
    course: Course,
    input: &I,
    mut made: Option<Plane>,
    pieces: &'a [Piece],
) -> Result<LastLeg<'a>, AllocError>
    requires out { course.geometry.out ≡ ((unwrap_or made (I.seen input.now)).w, (unwrap_or made (I.seen input.now)).h) }
    requires whole { IsWhole (unwrap_or made (I.seen input.now)) }
    requires takes { AllTake (unwrap_or made (I.seen input.now)).kind pieces.now }
    ensures { IfOk result (λ leg. IsLastLeg pieces.now course (unwrap_or made (I.seen input.now)) leg.pieces.now leg.course (unwrap_or leg.made (I.seen input.now))) }
{
    let len = leg_len(pieces);
    if len == pieces.len() {
        return Ok(LastLeg {
            course,
            made,
            pieces,
        });
    }
    let (leg, later) = pieces.split_at(len);
    let next = run_leg(rt, alloc, course, input, &made, leg)?;
    made = Some(next);
    run_to_last(rt, alloc, course_behind(course, leg), input, made, later)
}

// The bytes of the whole picture that pieces make of a whole picture, leg by leg, with its sides.
pub(crate) fn run_written<R: Threads + Sync, I: Input + Sync>(
    rt: &R,
    alloc: Global,
    course: Course,
    input: &I,
    pieces: &[Piece],
    depth: Depth,
) -> Result<(u32, u32, Vec<u8>), AllocError>
    requires out { course.geometry.out ≡ ((I.seen input.now).w, (I.seen input.now).h) }
    requires whole { IsWhole (I.seen input.now) }
    requires takes { AllTake (I.seen input.now).kind pieces.now }
    requires rgb { kind_behind (I.seen input.now).kind pieces.now ≡ Rgb }
    ensures sides { IfOk result (λ made. (made.0, made.1) ≡ sides_made pieces.now ((I.seen input.now).w, (I.seen input.now).h)) }
    ensures bytes { IfOk result (λ made. (q : Picture) → ((o : Cut) → IsMadeBy pieces.now course (I.seen input.now) o → IsCutOf q o) → made.2.items ≡ written q depth) }
{
    let last = run_to_last(rt, alloc, course, input, None, pieces)?;
    match &last.made {
        Some(plane) => run_bytes(rt, alloc, last.course, plane, last.pieces, depth),
        None => run_bytes(rt, alloc, last.course, input, last.pieces, depth),
    }
}
