ghost use Rattle.std.specs.Prelude.{◌≡◌, ◌≤◌, ◌*◌, ℕ, List, IfOk, slice_index, length};
ghost use Rattle.params.specs.declared.settings.ToneCurve.{ToneCurve};
ghost use Rattle.px.specs.declared.kind.PlaneKind.TheVariants.{Rgb};
ghost use Rattle.px.specs.Area.{Covers};
ghost use Rattle.px.specs.Cut.{IsCutOf};
ghost use Rattle.px.specs.Picture.{Picture};
ghost use Rattle.px.specs.Pixelwise.{IsMadeRow};
ghost use Rattle.modules_colour.specs.Curving.{IsTable, IsTableOf, curved_picture, looked_up};

use crate::curve_table::CurveTable;
use px::{Plane, PlaneKind, Region, RowPainter, paint, paint_in_turn};
use std::alloc::{AllocError, Global};
use std::thread::Threads;

// The pixels of a row, each channel looked up in its table.
fn look_up_row(red: &[u32], green: &[u32], blue: &[u32], n: u32, from: &[u32], row: &mut [u32])
    requires red { IsTable red.now }
    requires green { IsTable green.now }
    requires blue { IsTable blue.now }
    requires top { (i : ℕ) → slice_index from.now i ≤ 1048575 }
    requires read { length from.now ≡ n * 3 }
    requires len { length row.old ≡ n * 3 }
    requires old_top { (i : ℕ) → slice_index row.old i ≤ 1048575 }
    ensures { IsMadeRow (looked_up (record { red = red.now; green = green.now; blue = blue.now })) n from.now row.new }
{
    for k in 0..n {
        let at = k as usize * 3;
        row[at] = red[from[at] as usize];
        row[at + 1] = green[from[at + 1] as usize];
        row[at + 2] = blue[from[at + 2] as usize];
    }
}

// Paints rows of pixels that go through a curve.
#[derive(Drop)]
struct CurveRows<'a> {
    red: &'a [u32],
    green: &'a [u32],
    blue: &'a [u32],
    input: &'a Plane,
}

impl<'a> RowPainter for CurveRows<'a> {
    ghost use Rattle.std.specs.Prelude.{◌≡◌};
    ghost use Rattle.params.specs.declared.settings.ToneCurve.{ToneCurve};
    ghost use Rattle.px.specs.declared.kind.PlaneKind.TheVariants.{Rgb};
    ghost use Rattle.px.specs.Area.{HasPixel};
    ghost use Rattle.px.specs.Cut.{value_at};
    ghost use Rattle.px.specs.Pixelwise.{made_of};
    ghost use Rattle.modules_colour.specs.Curving.{IsTable, looked_up};

    ghost size = { λ _. 3 };

    ghost asks = { λ s x y. HasPixel s.input.now.area x y × (s.input.now.kind ≡ Rgb) × IsTable s.red.now × IsTable s.green.now × IsTable s.blue.now };

    ghost gives = { λ s x y r. r ≡ made_of (looked_up (record { red = s.red.now; green = s.green.now; blue = s.blue.now })) (value_at s.input.now x y) };

    fn fill_row(&self, x: u32, y: u32, n: u32, row: &mut [u32]) {
        if n == 0 {
            return;
        }
        let input = self.input;
        look_up_row(self.red, self.green, self.blue, n, input.row(x, y, n), row);
    }
}

/// Tone curve: each channel through its own curve, by the table, over one region, its rows side by side.
/// Up to the first node the output is that node's, from the last node on that one's, and between two
/// nodes `y + floor((v - x) * (y' - y) / (x' - x))`.
pub fn curve<R: Threads + Sync>(
    rt: &R,
    alloc: Global,
    table: &CurveTable,
    input: &Plane,
    region: Region,
) -> Result<Plane, AllocError>
    requires rgb { input.now.kind ≡ Rgb }
    requires covers { Covers input.now.area region }
    ensures area { IfOk result (λ p. p.area ≡ region) }
    ensures cut { IfOk result (λ p. (params : ToneCurve) (q : Picture) → IsTableOf params table.now → IsCutOf q input.now → IsCutOf (curved_picture params q) p) }
{
    let (w, h) = input.sides();
    let painter = CurveRows {
        red: table.red(),
        green: table.green(),
        blue: table.blue(),
        input,
    };
    paint(rt, alloc, PlaneKind::Rgb, w, h, region, &painter)
}

/// The same region, its rows one after another, as a band of a run makes it. A spare plane lends it its memory.
pub fn curve_in_turn(
    alloc: Global,
    spare: Option<Plane>,
    table: &CurveTable,
    input: &Plane,
    region: Region,
) -> Result<Plane, AllocError>
    requires rgb { input.now.kind ≡ Rgb }
    requires covers { Covers input.now.area region }
    ensures area { IfOk result (λ p. p.area ≡ region) }
    ensures cut { IfOk result (λ p. (params : ToneCurve) (q : Picture) → IsTableOf params table.now → IsCutOf q input.now → IsCutOf (curved_picture params q) p) }
{
    let (w, h) = input.sides();
    let painter = CurveRows {
        red: table.red(),
        green: table.green(),
        blue: table.blue(),
        input,
    };
    paint_in_turn(alloc, spare, PlaneKind::Rgb, w, h, region, &painter)
}
