ghost use Rattle.std.specs.Prelude.{◌≡◌, IfOk};
ghost use Rattle.px.specs.declared.kind.PlaneKind.TheVariants.{Mosaic};
ghost use Rattle.px.specs.Area.{Covers, IsIn, grown};
ghost use Rattle.px.specs.Cut.{IsCutOf};
ghost use Rattle.px.specs.Picture.{Picture};
ghost use Rattle.modules_raw.specs.Demosaic.{demosaiced_by, demosaiced_picture};

use crate::mosaic_rows::MosaicRows;
use px::{Cfa, Plane, PlaneKind, Region, paint, paint_in_turn};
use std::alloc::{AllocError, Global};
use std::thread::Threads;

// A region of a mosaic made RGB.
fn demosaic_mosaic<R: Threads + Sync>(
    rt: &R,
    alloc: Global,
    cfa: Cfa,
    input: &Plane,
    region: Region,
) -> Result<Plane, AllocError>
    requires mosaic { input.now.kind ≡ Mosaic cfa }
    requires inside { IsIn region input.now.w input.now.h }
    requires covers { Covers input.now.area (grown region 1 input.now.w input.now.h) }
    ensures area { IfOk result (λ p. p.area ≡ region) }
    ensures cut { IfOk result (λ p. (q : Picture) → IsCutOf q input.now → IsCutOf (demosaiced_by (Mosaic cfa) q) p) }
{
    let (w, h) = input.sides();
    let painter = MosaicRows { input, cfa, w, h };
    paint(rt, alloc, PlaneKind::Rgb, w, h, region, &painter)
}

/// Demosaic, over one region: a pixel's own colour keeps its value; another colour is the floor mean of
/// the pixels of that colour in the 3x3 window round it, as far as the window lies in the whole picture.
/// The input covers the region and one pixel more on each side, as far as the picture goes. What is RGB
/// already stays as it is.
pub fn demosaic<R: Threads + Sync>(
    rt: &R,
    alloc: Global,
    input: &Plane,
    region: Region,
) -> Result<Plane, AllocError>
    requires inside { IsIn region input.now.w input.now.h }
    requires covers { Covers input.now.area (grown region 1 input.now.w input.now.h) }
    ensures area { IfOk result (λ p. p.area ≡ region) }
    ensures cut { IfOk result (λ p. (q : Picture) → IsCutOf q input.now → IsCutOf (demosaiced_picture q) p) }
{
    match input.kind() {
        PlaneKind::Mosaic(cfa) => demosaic_mosaic(rt, alloc, cfa, input, region),
        PlaneKind::Rgb => input.cut(alloc, region),
    }
}

// The same region of a mosaic, its rows one after another.
fn demosaic_mosaic_in_turn(
    alloc: Global,
    spare: Option<Plane>,
    cfa: Cfa,
    input: &Plane,
    region: Region,
) -> Result<Plane, AllocError>
    requires mosaic { input.now.kind ≡ Mosaic cfa }
    requires inside { IsIn region input.now.w input.now.h }
    requires covers { Covers input.now.area (grown region 1 input.now.w input.now.h) }
    ensures area { IfOk result (λ p. p.area ≡ region) }
    ensures cut { IfOk result (λ p. (q : Picture) → IsCutOf q input.now → IsCutOf (demosaiced_by (Mosaic cfa) q) p) }
{
    let (w, h) = input.sides();
    paint_in_turn(
        alloc,
        spare,
        PlaneKind::Rgb,
        w,
        h,
        region,
        &MosaicRows { input, cfa, w, h },
    )
}

/// The same region, its rows one after another, as a band of a run makes it. A spare plane lends it its memory.
pub fn demosaic_in_turn(
    alloc: Global,
    spare: Option<Plane>,
    input: &Plane,
    region: Region,
) -> Result<Plane, AllocError>
    requires inside { IsIn region input.now.w input.now.h }
    requires covers { Covers input.now.area (grown region 1 input.now.w input.now.h) }
    ensures area { IfOk result (λ p. p.area ≡ region) }
    ensures cut { IfOk result (λ p. (q : Picture) → IsCutOf q input.now → IsCutOf (demosaiced_picture q) p) }
{
    match input.kind() {
        PlaneKind::Mosaic(cfa) => demosaic_mosaic_in_turn(alloc, spare, cfa, input, region),
        PlaneKind::Rgb => input.cut(alloc, region),
    }
}
