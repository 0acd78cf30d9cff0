//! Where one module's pixels come from, as a trace.
ghost use Rattle.std.specs.Prelude.{◌≡◌, ℕ, ◌<◌, ◌≤◌, if◌then◌else◌};
ghost use Rattle.params.specs.declared.settings.Params.TheVariants.{Orientation as orientation_params};
ghost use Rattle.params.specs.Each.{IsCropWithin};
ghost use Rattle.params.specs.Ranges.{IsWithin};
ghost use Rattle.px.specs.Area.{Fits};
ghost use Rattle.px.specs.Trace.{Traces, TracesWithin};
ghost use Rattle.geometry.specs.Sides.{kept_area};
ghost use Rattle.geometry.specs.Behind.{straight, end_of, IsTraceOf, IsThrough};

use crate::kept::kept_region;
use params::{Crop, Orientation, Params};
use px::Trace;

/// The trace that leads each pixel to the one so many columns to the right and rows down.
pub(crate) fn straight(x: u32, y: u32, level: u8) -> Trace
    requires right { x < 16384 }
    requires down { y < 16384 }
    ensures { result ≡ straight x y level }
{
    Trace {
        swap: false,
        flip_x: false,
        flip_y: false,
        add_x: x as i32,
        add_y: y as i32,
        level,
    }
}

// From where a side of so many columns or rows is counted: from the first one, or back from the last.
fn end_of(flip: bool, side: u32) -> i32
    requires some { 0 < side }
    requires within { side ≤ 16384 }
    ensures { result ≡ end_of flip side }
{
    if flip { (side - 1) as i32 } else { 0 }
}

// The trace of an orientation, over an input of sides `w` and `h`.
fn turned(orientation: &Orientation, w: u32, h: u32) -> Trace
    requires sides { Fits 0 0 w h }
    ensures { IsTraceOf (orientation_params orientation.now) (w, h) result }
{
    let (flip_x, flip_y) = (orientation.flip_x, orientation.flip_y);
    Trace {
        swap: orientation.swap,
        flip_x,
        flip_y,
        add_x: end_of(flip_x, w),
        add_y: end_of(flip_y, h),
        level: 0,
    }
}

// The trace of a crop, over an input of sides `w` and `h`.
fn cropped(crop: &Crop, w: u32, h: u32) -> Trace
    requires within { IsCropWithin crop.now }
    requires sides { Fits 0 0 w h }
    ensures { result ≡ straight (kept_area crop.now (w, h)).x (kept_area crop.now (w, h)).y 0 }
{
    let kept = kept_region(crop, w, h);
    straight(kept.x, kept.y, 0)
}

/// The trace of one module, over an input of sides `w` and `h`.
pub(crate) fn trace_of(params: &Params, w: u32, h: u32) -> Trace
    requires within { IsWithin params.now }
    requires sides { Fits 0 0 w h }
    ensures { IsTraceOf params.now (w, h) result }
{
    match params {
        Params::Orientation(orientation) => turned(orientation, w, h),
        Params::Crop(crop) => cropped(crop, w, h),
        _ => straight(0, 0, 0),
    }
}

// The two in their order, or the other way round.
fn swapped_if(swap: bool, pair: (bool, bool)) -> (bool, bool)
    ensures first { result.0 ≡ (if swap then pair.1 else pair.0) }
    ensures second { result.1 ≡ (if swap then pair.0 else pair.1) }
{
    if swap { (pair.1, pair.0) } else { pair }
}

/// The trace through `inner` and on through `outer`. It counts from where its first pixel comes from,
/// and flips an axis where one of the two does.
pub(crate) fn through(outer: Trace, inner: Trace) -> Trace
    requires near { TracesWithin inner 0 0 16384 16384 }
    requires far { (x y : ℕ) → Traces inner 0 0 x y → TracesWithin outer x y 16384 16384 }
    ensures { IsThrough outer inner result }
{
    let (x, y) = inner.of(0, 0);
    let (left, top) = outer.of(x, y);
    let flips = swapped_if(outer.swap, (inner.flip_x, inner.flip_y));
    Trace {
        swap: outer.swap != inner.swap,
        flip_x: outer.flip_x != flips.0,
        flip_y: outer.flip_y != flips.1,
        add_x: left as i32,
        add_y: top as i32,
        level: outer.level,
    }
}
