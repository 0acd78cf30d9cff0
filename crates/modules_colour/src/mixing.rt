ghost use Rattle.std.specs.Prelude.{◌≡◌, ℕ, ◌+◌, ◌*◌, ◌<◌, ◌≤◌, pos, ◌+ℤ◌, ◌*ℤ◌, length, slice_index, unsigned_abs, IfOk};
ghost use Rattle.params.specs.declared.settings.Params.TheVariants.{ChannelMixer as mixer_params};
ghost use Rattle.params.specs.Ranges.{IsWithin};
ghost use Rattle.px.specs.declared.kind.PlaneKind.TheVariants.{Rgb};
ghost use Rattle.px.specs.Area.{Covers};
ghost use Rattle.px.specs.Cut.{IsCutOf};
ghost use Rattle.px.specs.Number.{floor_div, clamp};
ghost use Rattle.px.specs.Picture.{Picture};
ghost use Rattle.px.specs.Pixelwise.{IsMadeRow};
ghost use Rattle.modules_colour.specs.Mixing.{IsMatrix, mixed, mixed_picture};

use params::ChannelMixer;
use px::{Plane, PlaneKind, Region, RowPainter, clamp_small, join_floor, paint, paint_in_turn};
use std::alloc::{AllocError, Global};
use std::thread::Threads;

// A part of a value times an entry of the matrix.
#[inline(always)]
fn weigh(factor: i32, part: u32) -> i32
    requires factor { unsigned_abs factor ≤ 32768 }
    requires part { part ≤ 4096 }
    ensures product { result ≡ factor *ℤ pos part }
    ensures small { unsigned_abs result ≤ 134217728 }
{
    factor * part as i32
}

// A row of the matrix times parts of a pixel.
#[inline(always)]
fn weigh_pixel(by_red: i32, by_green: i32, by_blue: i32, r: u32, g: u32, b: u32) -> i32
    requires by_red { unsigned_abs by_red ≤ 32768 }
    requires by_green { unsigned_abs by_green ≤ 32768 }
    requires by_blue { unsigned_abs by_blue ≤ 32768 }
    requires red { r ≤ 4096 }
    requires green { g ≤ 4096 }
    requires blue { b ≤ 4096 }
    ensures sum { result ≡ by_red *ℤ pos r +ℤ by_green *ℤ pos g +ℤ by_blue *ℤ pos b }
    ensures small { unsigned_abs result ≤ 402653184 }
{
    let red = weigh(by_red, r);
    let green = weigh(by_green, g);
    let blue = weigh(by_blue, b);
    red + green + blue
}

// One channel that comes out: its row of the matrix times a pixel, by parts that fit 32 bits.
#[inline(always)]
fn mix(by_red: i32, by_green: i32, by_blue: i32, r: u32, g: u32, b: u32) -> u32
    requires by_red { unsigned_abs by_red ≤ 32768 }
    requires by_green { unsigned_abs by_green ≤ 32768 }
    requires by_blue { unsigned_abs by_blue ≤ 32768 }
    requires red { r ≤ 1048575 }
    requires green { g ≤ 1048575 }
    requires blue { b ≤ 1048575 }
    ensures { result ≡ clamp (floor_div (by_red *ℤ pos r +ℤ by_green *ℤ pos g +ℤ by_blue *ℤ pos b) 4096) }
{
    let high = weigh_pixel(by_red, by_green, by_blue, r / 256, g / 256, b / 256);
    let low = weigh_pixel(by_red, by_green, by_blue, r % 256, g % 256, b % 256);
    clamp_small(join_floor(high, low, 12))
}

// The pixels of a row, each mixed into its place of another row.
fn mix_row(mixer: &ChannelMixer, n: u32, from: &[u32], row: &mut [u32])
    requires matrix { IsMatrix mixer.now }
    requires top { (i : ℕ) → slice_index from.now i ≤ 1048575 }
    requires read { length from.now ≡ n * 3 }
    requires len { length row.old ≡ n * 3 }
    requires old_top { (i : ℕ) → slice_index row.old i ≤ 1048575 }
    ensures { IsMadeRow (mixed mixer.now) n from.now row.new }
{
    let m = mixer.rows;
    for k in 0..n {
        let at = k as usize * 3;
        let (r, g, b) = (from[at], from[at + 1], from[at + 2]);
        let red = mix(m[0], m[1], m[2], r, g, b);
        let green = mix(m[3], m[4], m[5], r, g, b);
        let blue = mix(m[6], m[7], m[8], r, g, b);
        row[at] = red;
        row[at + 1] = green;
        row[at + 2] = blue;
    }
}

// Paints rows of mixed pixels.
#[derive(Drop)]
struct MixerRows<'a> {
    mixer: &'a ChannelMixer,
    input: &'a Plane,
}

impl<'a> RowPainter for MixerRows<'a> {
    ghost use Rattle.std.specs.Prelude.{◌≡◌};
    ghost use Rattle.px.specs.declared.kind.PlaneKind.TheVariants.{Rgb};
    ghost use Rattle.px.specs.Area.{HasPixel};
    ghost use Rattle.px.specs.Cut.{value_at};
    ghost use Rattle.px.specs.Pixelwise.{made_of};
    ghost use Rattle.modules_colour.specs.Mixing.{IsMatrix, mixed};

    ghost size = { λ _. 3 };

    ghost asks = { λ s x y. HasPixel s.input.now.area x y × (s.input.now.kind ≡ Rgb) × IsMatrix s.mixer.now };

    ghost gives = { λ s x y r. r ≡ made_of (mixed s.mixer.now) (value_at s.input.now x y) };

    fn fill_row(&self, x: u32, y: u32, n: u32, row: &mut [u32]) {
        if n == 0 {
            return;
        }
        let input = self.input;
        mix_row(self.mixer, n, input.row(x, y, n), row);
    }
}

/// Channel mixer: `clamp(floor((m0 * r + m1 * g + m2 * b) / 4096))` with the matrix's row of each
/// channel that comes out, over one region, its rows side by side.
pub fn mixer<R: Threads + Sync>(
    rt: &R,
    alloc: Global,
    params: &ChannelMixer,
    input: &Plane,
    region: Region,
) -> Result<Plane, AllocError>
    requires within { IsWithin (mixer_params params.now) }
    requires rgb { input.now.kind ≡ Rgb }
    requires covers { Covers input.now.area region }
    ensures area { IfOk result (λ p. p.area ≡ region) }
    ensures cut { IfOk result (λ p. (q : Picture) → IsCutOf q input.now → IsCutOf (mixed_picture params.now q) p) }
{
    let (w, h) = input.sides();
    let mixer = params;
    paint(
        rt,
        alloc,
        PlaneKind::Rgb,
        w,
        h,
        region,
        &MixerRows { mixer, input },
    )
}

/// The same region, its rows one after another, as a band of a run makes it. A spare plane lends it its memory.
pub fn mixer_in_turn(
    alloc: Global,
    spare: Option<Plane>,
    params: &ChannelMixer,
    input: &Plane,
    region: Region,
) -> Result<Plane, AllocError>
    requires within { IsWithin (mixer_params params.now) }
    requires rgb { input.now.kind ≡ Rgb }
    requires covers { Covers input.now.area region }
    ensures area { IfOk result (λ p. p.area ≡ region) }
    ensures cut { IfOk result (λ p. (q : Picture) → IsCutOf q input.now → IsCutOf (mixed_picture params.now q) p) }
{
    let (w, h) = input.sides();
    let mixer = params;
    paint_in_turn(
        alloc,
        spare,
        PlaneKind::Rgb,
        w,
        h,
        region,
        &MixerRows { mixer, input },
    )
}
