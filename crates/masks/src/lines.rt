//! Lines of pixels, by their distances from a mask's place.
ghost use Rattle.std.specs.Prelude.{◌≡◌, ℕ, ◌+◌, ◌*◌, ◌<◌, ◌≤◌, pos, neg_ℤ, ◌+ℤ◌, ◌*ℤ◌, unsigned_abs, if◌then◌else◌};
ghost use Rattle.px.specs.Trace.{TracesWithin};
ghost use Rattle.masks.specs.Ranges.{IsDirection};
ghost use Rattle.masks.specs.Lines.{across_at, along_at, step, step_across, step_down, IsLineOf, IsSmallLine};

use crate::places::{across, along, offset, size_of_level};
use px::Trace;

/// The distance of a line's first pixel along a mask's direction and across it, and how far each further
/// pixel leads.
#[derive(Clone, Copy)]
pub(crate) struct Line {
    pub(crate) along: i64,
    pub(crate) across: i64,
    pub(crate) along_step: i64,
    pub(crate) across_step: i64,
}

// How far one pixel further leads along one of the source's axes: back where `flip`.
fn signed_step(level: u8, flip: bool) -> i64
    requires level { level ≤ 8 }
    ensures value { result ≡ (if flip then neg_ℤ (pos (step level)) else pos (step level)) }
    ensures small { unsigned_abs result ≤ 512 }
{
    let step = 2 * i64::from(size_of_level(level));
    if flip { -step } else { step }
}

// How many half columns and half rows of the source one pixel to the right leads.
fn steps(trace: &Trace) -> (i64, i64)
    requires level { trace.now.level ≤ 8 }
    ensures across { result.0 ≡ step_across trace.now }
    ensures down { result.1 ≡ step_down trace.now }
    ensures small_across { unsigned_abs result.0 ≤ 512 }
    ensures small_down { unsigned_abs result.1 ≤ 512 }
{
    if trace.swap {
        return (0, signed_step(trace.level, trace.flip_y));
    }
    (signed_step(trace.level, trace.flip_x), 0)
}

/// A mask's place, in 1/65,536 of the source's sides `w` and `h`, and its direction.
#[derive(Clone, Copy)]
pub(crate) struct Anchor {
    pub(crate) w: u32,
    pub(crate) h: u32,
    pub(crate) x: u32,
    pub(crate) y: u32,
    pub(crate) dx: i32,
    pub(crate) dy: i32,
}

/// The line to the right from the pixel in column `x` and row `y`.
pub(crate) fn line_of(trace: &Trace, anchor: Anchor, x: u32, y: u32) -> Line
    requires level { trace.now.level ≤ 8 }
    requires inside { TracesWithin trace.now x y 16384 16384 }
    requires wide { anchor.w ≤ 16384 }
    requires high { anchor.h ≤ 16384 }
    requires column { anchor.x ≤ 65536 }
    requires row { anchor.y ≤ 65536 }
    requires direction { IsDirection anchor.dx anchor.dy }
    ensures line { IsLineOf trace.now anchor.w anchor.h anchor.x anchor.y anchor.dx anchor.dy x y result }
    ensures small { IsSmallLine result }
{
    let Anchor { w, h, dx, dy, .. } = anchor;
    let (u, v) = trace.of(x, y);
    let from_x = offset(w, anchor.x, trace.level, u);
    let from_y = offset(h, anchor.y, trace.level, v);
    let (step_x, step_y) = steps(trace);
    Line {
        along: along(from_x, from_y, dx, dy),
        across: across(from_x, from_y, dx, dy),
        along_step: along(step_x, step_y, dx, dy),
        across_step: across(step_x, step_y, dx, dy),
    }
}

// A distance `k` steps further.
fn moved(from: i64, step: i64, k: u32) -> i64
    requires from { unsigned_abs from ≤ 17179869184 }
    requires step { unsigned_abs step ≤ 1048576 }
    requires k { k ≤ 16384 }
    ensures value { result ≡ from +ℤ pos k *ℤ step }
    ensures small { unsigned_abs result ≤ 34359738368 }
{
    from + i64::from(k) * step
}

impl Line {
    /// How far pixel `k` of the line is along the mask's direction.
    pub(crate) fn along_at(self, k: u32) -> i64
        requires line { IsSmallLine self }
        requires k { k ≤ 16384 }
        ensures value { result ≡ along_at self k }
        ensures small { unsigned_abs result ≤ 34359738368 }
    {
        moved(self.along, self.along_step, k)
    }

    /// How far it is across it.
    pub(crate) fn across_at(self, k: u32) -> i64
        requires line { IsSmallLine self }
        requires k { k ≤ 16384 }
        ensures value { result ≡ across_at self k }
        ensures small { unsigned_abs result ≤ 34359738368 }
    {
        moved(self.across, self.across_step, k)
    }
}
