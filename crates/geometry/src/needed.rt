ghost use Rattle.std.specs.Prelude.{◌≡◌, ◌<◌};
ghost use Rattle.params.specs.Ranges.{IsWithin};
ghost use Rattle.px.specs.Area.{Fits, IsIn};
ghost use Rattle.geometry.specs.Sides.{sides_after};
ghost use Rattle.geometry.specs.Needed.{needed, between, reach, Suffices};

use crate::module_trace::trace_of;
use params::Params;
use px::Region;

// The rectangle whose first and last pixel, in any order, these two are.
fn between(first: (u32, u32), last: (u32, u32)) -> Region
    requires first { (first.0 < 16384) × (first.1 < 16384) }
    requires last { (last.0 < 16384) × (last.1 < 16384) }
    ensures { result ≡ between first last }
{
    let (x, y) = (first.0.min(last.0), first.1.min(last.1));
    Region {
        x,
        y,
        w: first.0.max(last.0) - x + 1,
        h: first.1.max(last.1) - y + 1,
    }
}

// The region of its input that a module needs which looks at one pixel for each: the rectangle between
// the pixels from which the first and the last one come.
fn traced(params: &Params, w: u32, h: u32, out: Region) -> Region
    requires within { IsWithin params.now }
    requires sides { Fits 0 0 w h }
    requires inside { IsIn out (sides_after params.now (w, h)).0 (sides_after params.now (w, h)).1 }
    requires one { reach params.now ≡ 0 }
    ensures region { result ≡ needed params.now (w, h) out }
    ensures suffices { Suffices params.now (w, h) out result }
    ensures inside { IsIn result w h }
{
    let trace = trace_of(params, w, h);
    let first = trace.of(out.x, out.y);
    let last = trace.of(out.x + out.w - 1, out.y + out.h - 1);
    between(first, last)
}

/// The region of a module's input, of sides `w` and `h`, that a region of its output needs: all pixels
/// that the module may look at for one of `out`. Demosaic needs one column and row more on each side, box
/// blur and sharpen `radius` more at every mipmap level, as far as they lie in the picture; orientation
/// and crop need the pixels from which those of `out` come, and the others the same pixels.
pub fn roi_back(params: &Params, w: u32, h: u32, out: Region) -> Region
    requires within { IsWithin params.now }
    requires sides { Fits 0 0 w h }
    requires inside { IsIn out (sides_after params.now (w, h)).0 (sides_after params.now (w, h)).1 }
    ensures region { result ≡ needed params.now (w, h) out }
    ensures suffices { Suffices params.now (w, h) out result }
    ensures inside { IsIn result w h }
{
    match params {
        Params::Demosaic => out.grow(1, w, h),
        Params::BoxBlur(blur) => out.grow(blur.radius, w, h),
        Params::Sharpen(sharpen) => out.grow(sharpen.radius, w, h),
        _ => traced(params, w, h, out),
    }
}
