ghost use Rattle.std.specs.Prelude.{◌≡◌, ℕ, ◌*◌, ◌^◌, ◌<◌, ◌≤◌, ◌-◌, pos, negsuc, ◌+ℤ◌, ◌-ℤ◌, ◌*ℤ◌, ◌≤ℤ◌, length, slice_index, unsigned_abs, map, IfOk};
ghost use Rattle.params.specs.declared.settings.Params.TheVariants.{Exposure as exposure_params};
ghost use Rattle.params.specs.Form.{natural_of};
ghost use Rattle.params.specs.Ranges.{IsWithin};
ghost use Rattle.px.specs.declared.kind.PlaneKind.TheVariants.{Rgb};
ghost use Rattle.px.specs.Area.{Covers};
ghost use Rattle.px.specs.Cut.{IsCutOf};
ghost use Rattle.px.specs.Number.{floor_div, clamp};
ghost use Rattle.px.specs.Picture.{Picture};
ghost use Rattle.modules_colour.specs.Exposing.{exposed, exposed_picture};

use params::Exposure;
use px::{Plane, PlaneKind, Region, RowPainter, clamp_small, paint, paint_in_turn, scale_floor};
use std::alloc::{AllocError, Global};
use std::thread::Threads;

// The scale of the gain: a gain of `2^scale` leaves a value as it is.
fn scale(stops: i32) -> u32
    requires low { negsuc 3 ≤ℤ stops }
    requires high { stops ≤ℤ pos 4 }
    ensures value { result ≡ 16 - natural_of (stops +ℤ pos 4) }
    ensures least { 8 ≤ result }
    ensures most { result ≤ 16 }
{
    (12 - stops) as u32
}

// One channel of one pixel.
#[inline(always)]
fn expose(black: i32, gain: u32, scale: u32, value: u32) -> u32
    requires black { unsigned_abs black ≤ 65535 }
    requires gain { gain ≤ 65536 }
    requires least { 8 ≤ scale }
    requires most { scale ≤ 16 }
    requires top { value ≤ 1048575 }
    ensures { result ≡ clamp (floor_div ((pos value -ℤ black) *ℤ pos gain) (2 ^ scale)) }
{
    clamp_small(scale_floor(value as i32 - black, gain, scale))
}

// Each value of a row exposed into its place of another row.
fn expose_row(params: &Exposure, from: &[u32], row: &mut [u32])
    requires within { IsWithin (exposure_params params.now) }
    requires top { (i : ℕ) → slice_index from.now i ≤ 1048575 }
    requires len { length from.now ≡ length row.old }
    ensures { (i : ℕ) → i < length row.old → slice_index row.new i ≡ exposed params.now (slice_index from.now i) }
{
    let (black, gain) = (params.black, params.gain);
    let scale = scale(params.stops);
    for i in 0..from.len() {
        row[i] = expose(black, gain, scale, from[i]);
    }
}

// Paints rows of exposed pixels.
#[derive(Drop)]
struct ExposureRows<'a> {
    params: &'a Exposure,
    input: &'a Plane,
}

impl<'a> RowPainter for ExposureRows<'a> {
    ghost use Rattle.std.specs.Prelude.{◌≡◌, map};
    ghost use Rattle.params.specs.declared.settings.Params.TheVariants.{Exposure as exposure_params};
    ghost use Rattle.params.specs.Ranges.{IsWithin};
    ghost use Rattle.px.specs.declared.kind.PlaneKind.TheVariants.{Rgb};
    ghost use Rattle.px.specs.Area.{HasPixel};
    ghost use Rattle.px.specs.Cut.{rgb_at};
    ghost use Rattle.modules_colour.specs.Exposing.{exposed};

    ghost size = { λ _. 3 };

    ghost asks = { λ s x y. HasPixel s.input.now.area x y × (s.input.now.kind ≡ Rgb) × IsWithin (exposure_params s.params.now) };

    ghost gives = { λ s x y r. r ≡ map (exposed s.params.now) (rgb_at s.input.now x y) };

    fn fill_row(&self, x: u32, y: u32, n: u32, row: &mut [u32]) {
        if n == 0 {
            return;
        }
        let input = self.input;
        expose_row(self.params, input.row(x, y, n), row);
    }
}

/// Exposure: `clamp(floor((v - black) * gain * 2^(stops + 4) / 65536))` in each channel, over one region,
/// its rows side by side.
pub fn exposure<R: Threads + Sync>(
    rt: &R,
    alloc: Global,
    params: &Exposure,
    input: &Plane,
    region: Region,
) -> Result<Plane, AllocError>
    requires within { IsWithin (exposure_params params.now) }
    requires rgb { input.now.kind ≡ Rgb }
    requires covers { Covers input.now.area region }
    ensures area { IfOk result (λ p. p.area ≡ region) }
    ensures cut { IfOk result (λ p. (q : Picture) → IsCutOf q input.now → IsCutOf (exposed_picture params.now q) p) }
{
    let (w, h) = input.sides();
    paint(
        rt,
        alloc,
        PlaneKind::Rgb,
        w,
        h,
        region,
        &ExposureRows { params, input },
    )
}

/// The same region, its rows one after another, as a band of a run makes it. A spare plane lends it its memory.
pub fn exposure_in_turn(
    alloc: Global,
    spare: Option<Plane>,
    params: &Exposure,
    input: &Plane,
    region: Region,
) -> Result<Plane, AllocError>
    requires within { IsWithin (exposure_params params.now) }
    requires rgb { input.now.kind ≡ Rgb }
    requires covers { Covers input.now.area region }
    ensures area { IfOk result (λ p. p.area ≡ region) }
    ensures cut { IfOk result (λ p. (q : Picture) → IsCutOf q input.now → IsCutOf (exposed_picture params.now q) p) }
{
    let (w, h) = input.sides();
    paint_in_turn(
        alloc,
        spare,
        PlaneKind::Rgb,
        w,
        h,
        region,
        &ExposureRows { params, input },
    )
}
