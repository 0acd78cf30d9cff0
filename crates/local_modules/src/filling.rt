//! Rows of means.
ghost use Rattle.std.specs.Prelude.{◌≡◌, ℕ, ◌+◌, ◌-◌, ◌*◌, ◌<◌, ◌≤◌, min, slice_index, length};
ghost use Rattle.px.specs.declared.kind.PlaneKind.TheVariants.{Rgb};
ghost use Rattle.px.specs.Cut.{value_at};
ghost use Rattle.px.specs.Painted.{IsRow, AreRows};
ghost use Rattle.local_modules.specs.Running.{AreColumns, IsBlurred};

use crate::columns::move_rows;
use crate::dividing::Divisor;
use crate::lines::{slide, step};
use px::Plane;

// The radius, the sides of the whole picture, and the columns that have sums.
#[derive(Clone, Copy)]
pub(crate) struct Reach {
    pub(crate) r: u32,
    pub(crate) w: u32,
    pub(crate) h: u32,
    pub(crate) lo: u32,
    pub(crate) m: u32,
}

// Writes `n` pixels of row `y`, from column `x` on, by the sums of the rows from `a` up to `b`.
fn blur_row(
    _input: &Plane,
    s: Reach,
    a: u32,
    b: u32,
    x: u32,
    y: u32,
    n: u32,
    sums: &[u32],
    row: &mut [u32],
)
    requires rgb { _input.now.kind ≡ Rgb }
    requires valid { (i : ℕ) → slice_index _input.now.values i ≤ 1048575 }
    requires left { _input.now.area.x ≤ s.lo }
    requires radius { s.r ≤ 64 }
    requires first { a ≡ y - s.r }
    requires last { b ≡ min (y + s.r + 1) s.h }
    requires within { y < s.h }
    requires low { s.lo ≤ x - s.r }
    requires right { x + n ≤ s.w }
    requires wide { s.w ≤ 16384 }
    requires high { s.h ≤ 16384 }
    requires end { min (x + n + s.r) s.w ≤ s.lo + s.m }
    requires sums { AreColumns _input.now s.lo (s.m * 3) a b sums.now }
    requires len { length row.old ≡ n * 3 }
    requires top { (i : ℕ) → slice_index row.old i ≤ 1048575 }
    ensures { IsRow (IsBlurred s.r s.w s.h (value_at _input.now)) x y 3 n row.new }
{
    let rows = u64::from(b - a);
    let whole = Divisor::of(u64::from(2 * s.r + 1) * rows);
    let mut from = x.saturating_sub(s.r) - s.lo;
    let mut to = (x + s.r).min(s.w) - s.lo;
    let mut red = slide(sums, 0, from, from, from, to, 0);
    let mut green = slide(sums, 1, from, from, from, to, 0);
    let mut blue = slide(sums, 2, from, from, from, to, 0);
    for k in 0..n {
        let next = (x + k).saturating_sub(s.r) - s.lo;
        let end = (x + k + s.r + 1).min(s.w) - s.lo;
        red = step(sums, 0, from, to, next, end, red);
        green = step(sums, 1, from, to, next, end, green);
        blue = step(sums, 2, from, to, next, end, blue);
        from = next;
        to = end;
        let by = whole.or_of(u64::from(end - next) * rows);
        let at = k as usize * 3;
        let pixel = [by.mean(red), by.mean(green), by.mean(blue)];
        row[at] = pixel[0];
        row[at + 1] = pixel[1];
        row[at + 2] = pixel[2];
    }
}

// Writes `rows` rows of `cols` pixels.
pub(crate) fn fill_rows(
    input: &Plane,
    s: Reach,
    x: u32,
    y: u32,
    cols: u32,
    rows: u32,
    sums: &mut [u32],
    values: &mut [u32],
)
    requires rgb { input.now.kind ≡ Rgb }
    requires valid { (i : ℕ) → slice_index input.now.values i ≤ 1048575 }
    requires radius { s.r ≤ 64 }
    requires left { input.now.area.x ≤ s.lo }
    requires right { s.lo + s.m ≤ input.now.area.x + input.now.area.w }
    requires above { input.now.area.y ≤ y - s.r }
    requires below { min (y + rows + s.r) s.h ≤ input.now.area.y + input.now.area.h }
    requires low { s.lo ≤ x - s.r }
    requires across { x + cols ≤ s.w }
    requires down { y + rows ≤ s.h }
    requires wide { s.w ≤ 16384 }
    requires high { s.h ≤ 16384 }
    requires end { min (x + cols + s.r) s.w ≤ s.lo + s.m }
    requires size { length sums.old ≡ s.m * 3 }
    requires none { (i : ℕ) → slice_index sums.old i ≡ 0 }
    requires len { length values.old ≡ rows * cols * 3 }
    requires top { (i : ℕ) → slice_index values.old i ≤ 1048575 }
    ensures { AreRows (IsBlurred s.r s.w s.h (value_at input.now)) x y cols 3 rows values.new }
{
    let stride = cols as usize * 3;
    let mut a = y.saturating_sub(s.r);
    let mut b = a;
    for j in 0..rows {
        let next = (y + j).saturating_sub(s.r);
        let end = (y + j + s.r + 1).min(s.h);
        move_rows(input, s.lo, s.m, a, b, next, end, sums);
        a = next;
        b = end;
        let at = j as usize * stride;
        blur_row(
            input,
            s,
            next,
            end,
            x,
            y + j,
            cols,
            sums,
            &mut values[at..at + stride],
        );
    }
}
