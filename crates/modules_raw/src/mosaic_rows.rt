//! Rows of a mosaic, three at a time.
ghost use Rattle.std.specs.Prelude.{◌≡◌, ℕ, ◌+◌, ◌-◌, ◌*◌, ◌<◌, ◌≤◌, slice_index, length};
ghost use Rattle.px.specs.declared.kind.PlaneKind.TheVariants.{Mosaic};
ghost use Rattle.px.specs.Area.{Area, Covers};
ghost use Rattle.px.specs.Kind.{channels};
ghost use Rattle.px.specs.Cut.{value_at};
ghost use Rattle.px.specs.Painted.{IsRow};
ghost use Rattle.px.specs.Mosaic.{channel_at};
ghost use Rattle.modules_raw.specs.Rowwise.{CanAsk, IsPixel, inner, IsRowOf};

use crate::edges::edge_pixel;
use px::{Cfa, Plane, RowPainter};

// The values of `m` pixels of row `y`, from column `x` on.
fn row_of(input: &Plane, x: u32, y: u32, m: u32) -> &[u32]
    requires mosaic { channels input.now.kind ≡ 1 }
    requires some { 0 < m }
    requires covers { Covers input.now.area (record { x = x; y = y; w = m; h = 1 }) }
    ensures { IsRowOf input.now x y m result.now }
{
    input.row(x, y, m)
}

// A pixel with all its neighbours.
#[inline(always)]
fn inner_pixel(own: u32, side: u32, v: u32, beside: u32, along: u32, corners: u32) -> [u32; 3]
    requires small { v ≤ 1048575 }
    requires two { beside ≤ 2 * 1048575 }
    requires others { along ≤ 2 * 1048575 }
    requires four { corners ≤ 4 * 1048575 }
    ensures pixel { result ≡ inner own side v beside along corners }
    ensures top { (i : ℕ) → slice_index result i ≤ 1048575 }
{
    if own == 1 {
        if side == 0 {
            return [beside / 2, v, along / 2];
        }
        return [along / 2, v, beside / 2];
    }
    if own == 0 {
        return [v, (beside + along) / 4, corners / 4];
    }
    [corners / 4, (beside + along) / 4, v]
}

/// Paints rows of a mosaic made RGB.
#[derive(Drop)]
pub(crate) struct MosaicRows<'a> {
    pub(crate) input: &'a Plane,
    pub(crate) cfa: Cfa,
    pub(crate) w: u32,
    pub(crate) h: u32,
}

// Pixel `i` of three rows that begin in column `lo`.
#[inline(always)]
fn pixel_of_rows(
    p: &MosaicRows,
    lo: u32,
    y: u32,
    i: u32,
    m: u32,
    above: &[u32],
    here: &[u32],
    below: &[u32],
    own: u32,
    side: u32,
) -> [u32; 3]
    requires asks { CanAsk p.now.input.now p.now.cfa p.now.w p.now.h (lo + i) y }
    requires top { 0 < y }
    requires bottom { y + 1 < p.now.h }
    requires within { i < m }
    requires right { lo + m ≤ p.now.w }
    requires above { IsRowOf p.now.input.now lo (y - 1) m above.now }
    requires here { IsRowOf p.now.input.now lo y m here.now }
    requires below { IsRowOf p.now.input.now lo (y + 1) m below.now }
    requires own { own ≡ channel_at p.now.cfa (lo + i) y }
    requires side { side ≡ channel_at p.now.cfa (lo + i + 1) y }
    ensures { IsPixel p.entry.now.cfa p.entry.now.w p.entry.now.h (value_at p.entry.now.input.now) (lo + i) y result }
{
    if i == 0 || i + 1 >= m {
        return edge_pixel(p.input, p.cfa, p.w, p.h, lo + i, y);
    }
    let at = i as usize;
    inner_pixel(
        own,
        side,
        here[at],
        here[at - 1] + here[at + 1],
        above[at] + below[at],
        above[at - 1] + above[at + 1] + (below[at - 1] + below[at + 1]),
    )
}

// Writes a row that has rows above and below.
fn inner_row(
    p: &MosaicRows,
    lo: u32,
    x: u32,
    y: u32,
    n: u32,
    m: u32,
    above: &[u32],
    here: &[u32],
    below: &[u32],
    row: &mut [u32],
)
    requires asks { (k : ℕ) → k < n → CanAsk p.now.input.now p.now.cfa p.now.w p.now.h (x + k) y }
    requires fits { x + n ≤ 16384 }
    requires len { length row.old ≡ n * 3 }
    requires small { (i : ℕ) → slice_index row.old i ≤ 1048575 }
    requires top { 0 < y }
    requires bottom { y + 1 < p.now.h }
    requires left { lo ≤ x }
    requires within { x + n ≤ lo + m }
    requires right { lo + m ≤ p.now.w }
    requires above { IsRowOf p.now.input.now lo (y - 1) m above.now }
    requires here { IsRowOf p.now.input.now lo y m here.now }
    requires below { IsRowOf p.now.input.now lo (y + 1) m below.now }
    ensures { IsRow (IsPixel p.entry.now.cfa p.entry.now.w p.entry.now.h (value_at p.entry.now.input.now)) x y 3 n row.new }
{
    let first = p.cfa.channel(x, y);
    let second = p.cfa.channel(x + 1, y);
    for j in 0..n / 2 {
        let i = x - lo + 2 * j;
        let left = pixel_of_rows(p, lo, y, i, m, above, here, below, first, second);
        let right = pixel_of_rows(p, lo, y, i + 1, m, above, here, below, second, first);
        let at = j as usize * 6;
        row[at] = left[0];
        row[at + 1] = left[1];
        row[at + 2] = left[2];
        let next = at + 3;
        row[next] = right[0];
        row[next + 1] = right[1];
        row[next + 2] = right[2];
    }
    if n % 2 == 0 {
        return;
    }
    let k = n - 1;
    let pixel = pixel_of_rows(p, lo, y, x - lo + k, m, above, here, below, first, second);
    let at = k as usize * 3;
    row[at] = pixel[0];
    row[at + 1] = pixel[1];
    row[at + 2] = pixel[2];
}

// Writes a row at the picture's upper or lower edge.
fn edge_row(p: &MosaicRows, x: u32, y: u32, n: u32, row: &mut [u32])
    requires asks { (k : ℕ) → k < n → CanAsk p.now.input.now p.now.cfa p.now.w p.now.h (x + k) y }
    requires fits { x + n ≤ 16384 }
    requires len { length row.old ≡ n * 3 }
    requires small { (i : ℕ) → slice_index row.old i ≤ 1048575 }
    ensures { IsRow (IsPixel p.entry.now.cfa p.entry.now.w p.entry.now.h (value_at p.entry.now.input.now)) x y 3 n row.new }
{
    for k in 0..n {
        let pixel = edge_pixel(p.input, p.cfa, p.w, p.h, x + k, y);
        let at = k as usize * 3;
        row[at] = pixel[0];
        row[at + 1] = pixel[1];
        row[at + 2] = pixel[2];
    }
}

impl RowPainter for MosaicRows<'_> {
    ghost use Rattle.std.specs.Prelude.{List};

    ghost size = { λ _. 3 };

    ghost asks = { λ p x y. CanAsk p.input.now p.cfa p.w p.h x y };

    ghost gives = { λ p x y r. IsPixel p.cfa p.w p.h (value_at p.input.now) x y r };

    fn fill_row(&self, x: u32, y: u32, n: u32, row: &mut [u32]) {
        if n == 0 {
            return;
        }
        if y == 0 || y + 1 >= self.h {
            return edge_row(self, x, y, n, row);
        }
        let lo = x.saturating_sub(1);
        let m = (x + n + 1).min(self.w) - lo;
        let above = row_of(self.input, lo, y - 1, m);
        let here = row_of(self.input, lo, y, m);
        let below = row_of(self.input, lo, y + 1, m);
        inner_row(self, lo, x, y, n, m, above, here, below, row);
    }
}
