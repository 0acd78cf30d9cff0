ghost use Rattle.std.specs.Prelude.{◌≡◌, IfOk};
ghost use Rattle.params.specs.declared.settings.Params.TheVariants.{Crop as crop_params, Orientation as orientation_params};
ghost use Rattle.params.specs.Ranges.{IsWithin};
ghost use Rattle.px.specs.declared.kind.PlaneKind.TheVariants.{Rgb};
ghost use Rattle.px.specs.Cut.{IsCutOf};
ghost use Rattle.px.specs.Picture.{Picture};
ghost use Rattle.geometry.specs.Needed.{reach};
ghost use Rattle.geometry.specs.Behind.{IsTraceOf};
ghost use Rattle.geometry.specs.Sides.{sides_after};
ghost use Rattle.px.specs.Cut.{IsPlane};
ghost use Rattle.modules_geometry.specs.Moved.{CanMove, moved_picture, turned_picture, cropped_picture};

use crate::moved_rows::MovedRows;
use geometry::Geometry;
use params::{Crop, Orientation, Params};
use px::{Plane, PlaneKind, Region, Trace, paint, paint_in_turn};
use std::alloc::{AllocError, Global};
use std::thread::Threads;

// The sides behind a module, and where its pixels come from.
fn places(params: &Params, input: &Plane) -> (u32, u32, Trace)
    requires within { IsWithin params.now }
    ensures sides { (result.0, result.1) ≡ sides_after params.now (input.now.w, input.now.h) }
    ensures trace { IsTraceOf params.now (input.now.w, input.now.h) result.2 }
    ensures valid { IsPlane input.now }
{
    let (w, h) = input.sides();
    let mut behind = Geometry::start(w, h, 0);
    behind.push(params);
    let (columns, rows) = behind.out_size();
    (columns, rows, behind.trace())
}

// A region of what a module makes that only moves pixels, its rows side by side.
fn moved<R: Threads + Sync>(
    rt: &R,
    alloc: Global,
    params: &Params,
    input: &Plane,
    region: Region,
) -> Result<Plane, AllocError>
    requires within { IsWithin params.now }
    requires one { reach params.now ≡ 0 }
    requires can { CanMove params.now input.now region }
    ensures area { IfOk result (λ p. p.area ≡ region) }
    ensures cut { IfOk result (λ p. (q : Picture) → IsCutOf q input.now → IsCutOf (moved_picture params.now q) p) }
{
    let (columns, rows, trace) = places(params, input);
    let painter = MovedRows { input, trace };
    paint(rt, alloc, PlaneKind::Rgb, columns, rows, region, &painter)
}

// The same region, its rows one after another.
fn moved_in_turn(
    alloc: Global,
    spare: Option<Plane>,
    params: &Params,
    input: &Plane,
    region: Region,
) -> Result<Plane, AllocError>
    requires within { IsWithin params.now }
    requires one { reach params.now ≡ 0 }
    requires can { CanMove params.now input.now region }
    ensures area { IfOk result (λ p. p.area ≡ region) }
    ensures cut { IfOk result (λ p. (q : Picture) → IsCutOf q input.now → IsCutOf (moved_picture params.now q) p) }
{
    let (columns, rows, trace) = places(params, input);
    let painter = MovedRows { input, trace };
    paint_in_turn(
        alloc,
        spare,
        PlaneKind::Rgb,
        columns,
        rows,
        region,
        &painter,
    )
}

/// Orientation: the sides swapped, then flipped, over one region of its output, its rows side by side.
/// The input is RGB and covers what the region needs.
pub fn orientation<R: Threads + Sync>(
    rt: &R,
    alloc: Global,
    params: &Orientation,
    input: &Plane,
    region: Region,
) -> Result<Plane, AllocError>
    requires can { CanMove (orientation_params params.now) input.now region }
    ensures area { IfOk result (λ p. p.area ≡ region) }
    ensures cut { IfOk result (λ p. (q : Picture) → IsCutOf q input.now → IsCutOf (turned_picture params.now q) p) }
{
    moved(rt, alloc, &Params::Orientation(*params), input, region)
}

/// The same region, its rows one after another, as a band of a run makes it. A spare plane lends it its memory.
pub fn orientation_in_turn(
    alloc: Global,
    spare: Option<Plane>,
    params: &Orientation,
    input: &Plane,
    region: Region,
) -> Result<Plane, AllocError>
    requires can { CanMove (orientation_params params.now) input.now region }
    ensures area { IfOk result (λ p. p.area ≡ region) }
    ensures cut { IfOk result (λ p. (q : Picture) → IsCutOf q input.now → IsCutOf (turned_picture params.now q) p) }
{
    moved_in_turn(alloc, spare, &Params::Orientation(*params), input, region)
}

/// Crop: the part of the input that it keeps, over one region of its output, its rows side by side. The
/// input is RGB and covers what the region needs.
pub fn crop<R: Threads + Sync>(
    rt: &R,
    alloc: Global,
    params: &Crop,
    input: &Plane,
    region: Region,
) -> Result<Plane, AllocError>
    requires within { IsWithin (crop_params params.now) }
    requires can { CanMove (crop_params params.now) input.now region }
    ensures area { IfOk result (λ p. p.area ≡ region) }
    ensures cut { IfOk result (λ p. (q : Picture) → IsCutOf q input.now → IsCutOf (cropped_picture params.now q) p) }
{
    moved(rt, alloc, &Params::Crop(*params), input, region)
}

/// The same region, its rows one after another, as a band of a run makes it. A spare plane lends it its memory.
pub fn crop_in_turn(
    alloc: Global,
    spare: Option<Plane>,
    params: &Crop,
    input: &Plane,
    region: Region,
) -> Result<Plane, AllocError>
    requires within { IsWithin (crop_params params.now) }
    requires can { CanMove (crop_params params.now) input.now region }
    ensures area { IfOk result (λ p. p.area ≡ region) }
    ensures cut { IfOk result (λ p. (q : Picture) → IsCutOf q input.now → IsCutOf (cropped_picture params.now q) p) }
{
    moved_in_turn(alloc, spare, &Params::Crop(*params), input, region)
}
