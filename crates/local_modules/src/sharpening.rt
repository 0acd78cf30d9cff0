ghost use Rattle.std.specs.Prelude.{◌≡◌, ℕ, ◌*◌, ◌<◌, ◌≤◌, IfOk, length, slice_index};
ghost use Rattle.params.specs.declared.settings.Params.TheVariants.{Sharpen as sharpen_params};
ghost use Rattle.params.specs.Ranges.{IsWithin};
ghost use Rattle.px.specs.declared.kind.PlaneKind.TheVariants.{Rgb};
ghost use Rattle.px.specs.Area.{Covers, IsIn, grown};
ghost use Rattle.px.specs.Cut.{IsCutOf};
ghost use Rattle.px.specs.Picture.{Picture};
ghost use Rattle.local_modules.specs.Radius.{radius_of};
ghost use Rattle.local_modules.specs.Sharpening.{sharpened, sharpened_picture};

use crate::boxes::{blur, blur_in_turn};
use crate::radius::radius_at;
use params::Sharpen;
use px::{Plane, PlaneKind, Region, RowPainter, clamp_small, paint, paint_in_turn, scale_floor};
use std::alloc::{AllocError, Global};
use std::thread::Threads;

// A value sharpened against its blurred value.
#[inline(always)]
fn sharpen_value(amount: u32, v: u32, b: u32) -> u32
    requires amount { amount ≤ 16384 }
    requires value { v ≤ 1048575 }
    requires blurred { b ≤ 1048575 }
    ensures value { result ≡ sharpened amount v b }
    ensures top { result ≤ 1048575 }
{
    clamp_small(v as i32 + scale_floor(v as i32 - b as i32, amount, 12))
}

// Each value of a row sharpened against that of a blurred row.
fn sharpen_row(amount: u32, from: &[u32], blurred: &[u32], row: &mut [u32])
    requires amount { amount ≤ 16384 }
    requires value { (i : ℕ) → slice_index from.now i ≤ 1048575 }
    requires blurred { (i : ℕ) → slice_index blurred.now i ≤ 1048575 }
    requires read { length from.now ≡ length row.old }
    requires blurred_read { length blurred.now ≡ length row.old }
    ensures value { (i : ℕ) → i < length row.old → slice_index row.new i ≡ sharpened amount (slice_index from.now i) (slice_index blurred.now i) }
{
    for i in 0..from.len() {
        row[i] = sharpen_value(amount, from[i], blurred[i]);
    }
}

// Paints rows of sharpened pixels.
#[derive(Drop)]
struct SharpenRows<'a> {
    amount: u32,
    input: &'a Plane,
    blurred: &'a Plane,
}

impl<'a> RowPainter for SharpenRows<'a> {
    ghost use Rattle.std.specs.Prelude.{◌≡◌, ◌≤◌};
    ghost use Rattle.px.specs.declared.kind.PlaneKind.TheVariants.{Rgb};
    ghost use Rattle.px.specs.Area.{HasPixel};
    ghost use Rattle.px.specs.Cut.{value_at};
    ghost use Rattle.local_modules.specs.Sharpening.{sharpened_pixel};

    ghost size = { λ _. 3 };

    ghost asks = { λ s x y. HasPixel s.input.now.area x y × (s.input.now.kind ≡ Rgb) × HasPixel s.blurred.now.area x y × (s.blurred.now.kind ≡ Rgb) × (s.amount ≤ 16384) };

    ghost gives = { λ s x y r. r ≡ sharpened_pixel s.amount (value_at s.input.now x y) (value_at s.blurred.now x y) };

    fn fill_row(&self, x: u32, y: u32, n: u32, row: &mut [u32]) {
        if n == 0 {
            return;
        }
        let input = self.input;
        let blurred = self.blurred;
        sharpen_row(self.amount, input.row(x, y, n), blurred.row(x, y, n), row);
    }
}

// A region of the sharpened picture, side by side.
fn sharpen_by<R: Threads + Sync>(
    rt: &R,
    alloc: Global,
    r: u32,
    amount: u32,
    input: &Plane,
    region: Region,
) -> Result<Plane, AllocError>
    requires radius { r ≤ 64 }
    requires amount { amount ≤ 16384 }
    requires rgb { input.now.kind ≡ Rgb }
    requires inside { IsIn region input.now.w input.now.h }
    requires covers { Covers input.now.area (grown region r input.now.w input.now.h) }
    ensures area { IfOk result (λ p. p.area ≡ region) }
    ensures cut { IfOk result (λ p. (q : Picture) → IsCutOf q input.now → IsCutOf (sharpened_picture r amount q) p) }
{
    let (w, h) = input.sides();
    let blurred = blur(rt, alloc, r, input, region)?;
    let painter = SharpenRows {
        amount,
        input,
        blurred: &blurred,
    };
    paint(rt, alloc, PlaneKind::Rgb, w, h, region, &painter)
}

// The same region, its rows one after another.
fn sharpen_by_in_turn(
    alloc: Global,
    r: u32,
    amount: u32,
    input: &Plane,
    region: Region,
) -> Result<Plane, AllocError>
    requires radius { r ≤ 64 }
    requires amount { amount ≤ 16384 }
    requires rgb { input.now.kind ≡ Rgb }
    requires inside { IsIn region input.now.w input.now.h }
    requires covers { Covers input.now.area (grown region r input.now.w input.now.h) }
    ensures area { IfOk result (λ p. p.area ≡ region) }
    ensures cut { IfOk result (λ p. (q : Picture) → IsCutOf q input.now → IsCutOf (sharpened_picture r amount q) p) }
{
    let (w, h) = input.sides();
    let blurred = blur_in_turn(alloc, r, input, region)?;
    let painter = SharpenRows {
        amount,
        input,
        blurred: &blurred,
    };
    paint_in_turn(alloc, None, PlaneKind::Rgb, w, h, region, &painter)
}

/// Sharpen of a picture of a level, 0 to 8: `clamp(v + floor((v - b) * amount / 4096))` in each channel,
/// `b` being the box blur's value of the same radius, over one region, side by side. The input covers the
/// region grown by the radius at that level within the picture.
pub fn sharpen<R: Threads + Sync>(
    rt: &R,
    alloc: Global,
    params: &Sharpen,
    level: u8,
    input: &Plane,
    region: Region,
) -> Result<Plane, AllocError>
    requires within { IsWithin (sharpen_params params.now) }
    requires level { level ≤ 8 }
    requires rgb { input.now.kind ≡ Rgb }
    requires inside { IsIn region input.now.w input.now.h }
    requires covers { Covers input.now.area (grown region (radius_of params.now.radius level) input.now.w input.now.h) }
    ensures area { IfOk result (λ p. p.area ≡ region) }
    ensures cut { IfOk result (λ p. (q : Picture) → IsCutOf q input.now → IsCutOf (sharpened_picture (radius_of params.now.radius level) params.now.amount q) p) }
{
    let r = radius_at(params.radius, level);
    sharpen_by(rt, alloc, r, params.amount, input, region)
}

/// The same region, its rows one after another, as a band of a run makes it.
pub fn sharpen_in_turn(
    alloc: Global,
    params: &Sharpen,
    level: u8,
    input: &Plane,
    region: Region,
) -> Result<Plane, AllocError>
    requires within { IsWithin (sharpen_params params.now) }
    requires level { level ≤ 8 }
    requires rgb { input.now.kind ≡ Rgb }
    requires inside { IsIn region input.now.w input.now.h }
    requires covers { Covers input.now.area (grown region (radius_of params.now.radius level) input.now.w input.now.h) }
    ensures area { IfOk result (λ p. p.area ≡ region) }
    ensures cut { IfOk result (λ p. (q : Picture) → IsCutOf q input.now → IsCutOf (sharpened_picture (radius_of params.now.radius level) params.now.amount q) p) }
{
    let r = radius_at(params.radius, level);
    sharpen_by_in_turn(alloc, r, params.amount, input, region)
}
