//! Covers of regions.
ghost use Rattle.std.specs.Prelude.{◌≡◌, ℕ, ◌+◌, ◌<◌, ◌≤◌, length, slice_index, IfOk};
ghost use Rattle.params.specs.Ranges.{IsShapeWithin};
ghost use Rattle.px.specs.Area.{HasPixel};
ghost use Rattle.px.specs.Cover.{cover_at};
ghost use Rattle.px.specs.Trace.{Traces, TracesWithin};
ghost use Rattle.masks.specs.Coverage.{coverage_at, IsCovering};

use crate::edge::{Edge, fill_ellipse};
use crate::ellipse::rim;
use crate::gradient::fill_gradient;
use crate::guess::guess_of;
use crate::lines::{Anchor, line_of};
use params::Shape;
use px::{Cover, Region, RowPainter, Trace, paint_cover};
use std::alloc::{AllocError, Global};

// How far a mask covers `n` pixels of row `y`, from column `x` on. Each is traced to a pixel of a level
// of a source of sides `w` and `h`.
fn fill_shape(shape: &Shape, trace: &Trace, w: u32, h: u32, x: u32, y: u32, n: u32, row: &mut [u32])
    requires within { IsShapeWithin shape.now }
    requires wide { w ≤ 16384 }
    requires high { h ≤ 16384 }
    requires level { trace.now.level ≤ 8 }
    requires inside { TracesWithin trace.now x y 16384 16384 }
    requires small { n ≤ 16384 }
    requires end { n ≤ length row.old }
    ensures { (k u v : ℕ) → k < n → Traces trace.now (x + k) y u v → slice_index row.new k ≡ coverage_at shape.now w h trace.now.level u v }
{
    match *shape {
        Shape::Gradient {
            ax,
            ay,
            dx,
            dy,
            slope,
        } => {
            let anchor = Anchor {
                w,
                h,
                x: ax,
                y: ay,
                dx,
                dy,
            };
            fill_gradient(line_of(trace, anchor, x, y), slope, n, row);
        }
        Shape::Ellipse {
            cx,
            cy,
            ux,
            uy,
            a,
            b,
            feather,
        } => {
            let anchor = Anchor {
                w,
                h,
                x: cx,
                y: cy,
                dx: ux,
                dy: uy,
            };
            let rim = rim(ux, uy, a, b);
            let edge = Edge {
                a,
                b,
                feather,
                rim,
                guess: guess_of(rim),
            };
            fill_ellipse(line_of(trace, anchor, x, y), edge, n, row);
        }
    }
}

// Paints rows of a cover.
#[derive(Drop)]
struct MaskRows<'a> {
    shape: &'a Shape,
    trace: &'a Trace,
    w: u32,
    h: u32,
}

impl<'a> RowPainter for MaskRows<'a> {
    ghost use Rattle.std.specs.Prelude.{◌≤◌};
    ghost use Rattle.params.specs.Ranges.{IsShapeWithin};
    ghost use Rattle.px.specs.Trace.{TracesWithin};
    ghost use Rattle.masks.specs.Coverage.{IsCovering, IsMaskFit};

    ghost size = { λ _. 1 };

    ghost asks = { λ s x y. IsMaskFit s.shape.now s.trace.now s.w s.h × TracesWithin s.trace.now x y 16384 16384 };

    ghost gives = { λ s x y r. IsCovering s.shape.now s.trace.now s.w s.h x y r };

    fn fill_row(&self, x: u32, y: u32, n: u32, row: &mut [u32]) {
        if n == 0 {
            return;
        }
        fill_shape(self.shape, self.trace, self.w, self.h, x, y, n, row);
    }
}

/// How far a mask covers each pixel of a region: as far as the input pixel to which the trace leads from
/// there. `w` and `h` are the source's sides, and the trace says which level the input is.
pub fn coverage(
    alloc: Global,
    shape: &Shape,
    trace: &Trace,
    w: u32,
    h: u32,
    region: Region,
) -> Result<Cover, AllocError>
    requires within { IsShapeWithin shape.now }
    requires wide { w ≤ 16384 }
    requires high { h ≤ 16384 }
    requires level { trace.now.level ≤ 8 }
    requires inside { (x y : ℕ) → HasPixel region x y → TracesWithin trace.now x y 16384 16384 }
    ensures area { IfOk result (λ c. c.area ≡ region) }
    ensures covered { IfOk result (λ c. (x y u v : ℕ) → HasPixel region x y → Traces trace.now x y u v → cover_at c x y ≡ coverage_at shape.now w h trace.now.level u v) }
{
    paint_cover(alloc, region, &MaskRows { shape, trace, w, h })
}
