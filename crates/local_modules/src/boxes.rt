//! Means of boxes over regions.
ghost use Rattle.std.specs.Prelude.{◌≡◌, ℕ, ◌<◌, ◌≤◌, ◌*◌, IfOk, length, slice_index};
ghost use Rattle.px.specs.declared.kind.PlaneKind.TheVariants.{Rgb};
ghost use Rattle.px.specs.Area.{Covers, IsIn, grown};
ghost use Rattle.px.specs.Bands.{IsShaped};
ghost use Rattle.px.specs.Cut.{IsCutOf, value_at};
ghost use Rattle.px.specs.Painted.{IsPainted};
ghost use Rattle.px.specs.Picture.{Picture};
ghost use Rattle.local_modules.specs.Blurring.{blurred_picture};
ghost use Rattle.local_modules.specs.Running.{IsBlurred};

use crate::filling::{Reach, fill_rows};
use px::{Plane, PlaneKind, Region, paint_bands};
use std::alloc::{AllocError, Global};
use std::thread::Threads;

// So many zeros.
fn zeros(alloc: Global, count: usize) -> Result<Vec<u32>, AllocError>
    ensures len { IfOk result (λ v. length v.items ≡ count) }
    ensures none { IfOk result (λ v. (i : ℕ) → slice_index v.items i ≡ 0) }
{
    vec![in alloc; 0u32; count]
}

// The blurred pixels of a region.
fn painted(
    alloc: Global,
    r: u32,
    w: u32,
    h: u32,
    input: &Plane,
    region: Region,
) -> Result<Plane, AllocError>
    requires radius { r ≤ 64 }
    requires rgb { input.now.kind ≡ Rgb }
    requires valid { (i : ℕ) → slice_index input.now.values i ≤ 1048575 }
    requires inside { IsIn region w h }
    requires wide { w ≤ 16384 }
    requires high { h ≤ 16384 }
    requires covers { Covers input.now.area (grown region r w h) }
    ensures { IfOk result (λ p. IsPainted Rgb w h region (IsBlurred r w h (value_at input.now)) p) }
{
    let lo = region.x.saturating_sub(r);
    let m = (region.x + region.w + r).min(w) - lo;
    let mut sums = zeros(alloc, m as usize * 3)?;
    let mut values = zeros(alloc, region.h as usize * region.w as usize * 3)?;
    let s = Reach { r, w, h, lo, m };
    fill_rows(
        input,
        s,
        region.x,
        region.y,
        region.w,
        region.h,
        &mut sums,
        &mut values,
    );
    Ok(Plane::from_rows(PlaneKind::Rgb, w, h, region, values))
}

// A region of the blurred picture, its rows one after another.
pub(crate) fn blur_in_turn(
    alloc: Global,
    r: u32,
    input: &Plane,
    region: Region,
) -> Result<Plane, AllocError>
    requires radius { r ≤ 64 }
    requires rgb { input.now.kind ≡ Rgb }
    requires inside { IsIn region input.now.w input.now.h }
    requires covers { Covers input.now.area (grown region r input.now.w input.now.h) }
    ensures shaped { IfOk result (λ p. IsShaped Rgb input.now.w input.now.h region p) }
    ensures cut { IfOk result (λ p. (q : Picture) → IsCutOf q input.now → IsCutOf (blurred_picture r q) p) }
{
    let (w, h) = input.sides();
    painted(alloc, r, w, h, input, region)
}

// How many rows a band has at most. A band begins with an empty window and adds the rows of the first
// pixel's one by one, so it has at least about as many rows as the window.
fn band_rows(r: u32) -> u32
    requires { r ≤ 64 }
    ensures { 0 < result }
{
    (4 * r).max(16)
}

// The same region, by bands of rows side by side.
pub(crate) fn blur<R: Threads + Sync>(
    rt: &R,
    alloc: Global,
    r: u32,
    input: &Plane,
    region: Region,
) -> Result<Plane, AllocError>
    requires radius { r ≤ 64 }
    requires rgb { input.now.kind ≡ Rgb }
    requires inside { IsIn region input.now.w input.now.h }
    requires covers { Covers input.now.area (grown region r input.now.w input.now.h) }
    ensures shaped { IfOk result (λ p. IsShaped Rgb input.now.w input.now.h region p) }
    ensures cut { IfOk result (λ p. (q : Picture) → IsCutOf q input.now → IsCutOf (blurred_picture r q) p) }
{
    let (w, h) = input.sides();
    let make = |band: Region| -> Result<Plane, AllocError>
        requires radius { r ≤ 64 }
        requires rgb { input.now.kind ≡ Rgb }
        requires inside { IsIn band input.now.w input.now.h }
        requires covers { Covers input.now.area (grown band r input.now.w input.now.h) }
        ensures shaped { IfOk result (λ p. IsShaped Rgb input.entry.now.w input.entry.now.h band p) }
        ensures cut { IfOk result (λ p. (q : Picture) → IsCutOf q input.entry.now → IsCutOf (blurred_picture r q) p) }
    { blur_in_turn(alloc, r, input, band) };
    paint_bands(rt, alloc, PlaneKind::Rgb, w, h, region, band_rows(r), make)
}
