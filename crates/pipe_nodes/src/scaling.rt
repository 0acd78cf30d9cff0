//! Pictures scaled down: each pixel is the mean of a block.
ghost use Rattle.std.specs.Prelude.{◌≡◌, ℕ, ◌+◌, ◌-◌, ◌*◌, ◌<◌, ◌≤◌, min, length, slice_index, IfOk};
ghost use Rattle.px.specs.declared.kind.PlaneKind.TheVariants.{Rgb};
ghost use Rattle.px.specs.Area.{Covers, Fits, IsIn};
ghost use Rattle.px.specs.Cut.{IsCutOf, IsWhole, value_at};
ghost use Rattle.px.specs.Means.{sum_in};
ghost use Rattle.px.specs.Painted.{IsRow};
ghost use Rattle.px.specs.Picture.{Picture};
ghost use Rattle.px.specs.Sums.{total};
ghost use Rattle.modules_raw.specs.Levels.{blocks};
ghost use Rattle.pipe_nodes.specs.Windows.{CanScale, IsScaled, means_at, part_of, scaled, unscaled};

use px::{Plane, PlaneKind, Region, RowPainter, paint};
use std::alloc::{AllocError, Global};
use std::thread::Threads;

// A side in blocks of `factor` pixels.
pub(crate) fn scaled_side(n: u32, factor: u32) -> u32
    requires some { 1 ≤ factor }
    requires small { factor ≤ 16384 }
    requires wide { n ≤ 16384 }
    ensures side { result ≡ blocks factor n }
    ensures shorter { result ≤ n }
    ensures some { 0 < n → 0 < result }
{
    (n + (factor - 1)) / factor
}

// Block `i` along a side of `n` pixels: where it begins and how long it is.
fn block_along(n: u32, factor: u32, i: u32) -> (u32, u32)
    requires some { 1 ≤ factor }
    requires small { factor ≤ 16384 }
    requires wide { n ≤ 16384 }
    requires block { i < blocks factor n }
    ensures start { result.0 ≡ i * factor }
    ensures len { result.1 ≡ min ((i + 1) * factor) n - i * factor }
    ensures some { 0 < result.1 }
    ensures inside { result.0 + result.1 ≤ n }
{
    let start = i * factor;
    let end = (start + factor).min(n);
    (start, end - start)
}

// The pixels of a picture of sides `w` and `h` in the blocks of a region of the picture scaled down.
pub(crate) fn unscaled_region(
    factor: u32,
    left: u32,
    top: u32,
    columns: u32,
    rows: u32,
    w: u32,
    h: u32,
) -> Region
    requires some { 1 ≤ factor }
    requires small { factor ≤ 16384 }
    requires wide { w ≤ 16384 }
    requires high { h ≤ 16384 }
    requires some_wide { 0 < columns }
    requires some_high { 0 < rows }
    requires inside { IsIn (record { x = left; y = top; w = columns; h = rows }) (blocks factor w) (blocks factor h) }
    ensures region { result ≡ unscaled factor (record { x = left; y = top; w = columns; h = rows }) w h }
    ensures inside { IsIn result w h }
{
    let (x, _) = block_along(w, factor, left);
    let (last_x, last_w) = block_along(w, factor, left + columns - 1);
    let (y, _) = block_along(h, factor, top);
    let (last_y, last_h) = block_along(h, factor, top + rows - 1);
    Region {
        x,
        y,
        w: last_x + last_w - x,
        h: last_y + last_h - y,
    }
}

// The sums of red, green and blue along `n` pixels.
fn row_sums(row: &[u32], n: u32) -> (u64, u64, u64)
    requires few { n ≤ 16384 }
    requires len { length row.now ≡ n * 3 }
    requires top { (i : ℕ) → slice_index row.now i ≤ 1048575 }
    ensures red { result.0 ≡ total (λ k. slice_index row.now (0 + k * 3)) 0 n }
    ensures green { result.1 ≡ total (λ k. slice_index row.now (1 + k * 3)) 0 n }
    ensures blue { result.2 ≡ total (λ k. slice_index row.now (2 + k * 3)) 0 n }
    ensures small { (result.0 ≤ n * 1048575) × (result.1 ≤ n * 1048575) × (result.2 ≤ n * 1048575) }
{
    let mut red = 0;
    let mut green = 0;
    let mut blue = 0;
    for k in 0..n {
        let at = k as usize * 3;
        red += u64::from(row[at]);
        green += u64::from(row[at + 1]);
        blue += u64::from(row[at + 2]);
    }
    (red, green, blue)
}

// The sums of red, green and blue in a block. Each value is read once.
fn block_sums(plane: &Plane, x: u32, y: u32, w: u32, h: u32) -> (u64, u64, u64)
    requires rgb { plane.now.kind ≡ Rgb }
    requires fits { Fits x y w h }
    requires covers { Covers plane.now.area (record { x = x; y = y; w = w; h = h }) }
    ensures red { result.0 ≡ sum_in plane.now.kind (value_at plane.now) 0 (record { x = x; y = y; w = w; h = h }) }
    ensures green { result.1 ≡ sum_in plane.now.kind (value_at plane.now) 1 (record { x = x; y = y; w = w; h = h }) }
    ensures blue { result.2 ≡ sum_in plane.now.kind (value_at plane.now) 2 (record { x = x; y = y; w = w; h = h }) }
    ensures small { (result.0 ≤ (h * w) * 1048575) × (result.1 ≤ (h * w) * 1048575) × (result.2 ≤ (h * w) * 1048575) }
{
    let mut red = 0;
    let mut green = 0;
    let mut blue = 0;
    for j in 0..h {
        let (r, g, b) = row_sums(plane.row(x, y + j, w), w);
        red += r;
        green += g;
        blue += b;
    }
    (red, green, blue)
}

// Red, green and blue of the means of a block.
fn block_means(plane: &Plane, x: u32, y: u32, w: u32, h: u32) -> [u32; 3]
    requires rgb { plane.now.kind ≡ Rgb }
    requires fits { Fits x y w h }
    requires covers { Covers plane.now.area (record { x = x; y = y; w = w; h = h }) }
    ensures pixel { result ≡ means_at plane.now (record { x = x; y = y; w = w; h = h }) }
    ensures top { (i : ℕ) → slice_index result i ≤ 1048575 }
{
    let (red, green, blue) = block_sums(plane, x, y, w, h);
    let count = u64::from(h) * u64::from(w);
    [
        (red / count) as u32,
        (green / count) as u32,
        (blue / count) as u32,
    ]
}

// Fills a row of the picture scaled down, counted on from the pixel in column `left` and row `top`.
fn scale_row(
    plane: &Plane,
    factor: u32,
    left: u32,
    top: u32,
    x: u32,
    y: u32,
    n: u32,
    row: &mut [u32],
)
    requires can { (k : ℕ) → k < n → CanScale plane.now factor left top (x + k) y }
    requires some { 0 < n }
    requires fits { x + n ≤ 16384 }
    requires len { length row.old ≡ n * 3 }
    requires top_is { (i : ℕ) → slice_index row.old i ≤ 1048575 }
    ensures { IsRow (IsScaled plane.now factor left top) x y 3 n row.new }
{
    let (w, h) = plane.sides();
    let (v, rows) = block_along(h, factor, top + y);
    for k in 0..n {
        let (u, columns) = block_along(w, factor, left + (x + k));
        let pixel = block_means(plane, u, v, columns, rows);
        let at = k as usize * 3;
        row[at] = pixel[0];
        row[at + 1] = pixel[1];
        row[at + 2] = pixel[2];
    }
}

// Paints a plane scaled down by a factor, from the pixel in column `left` and row `top` of the scaled
// picture on.
#[derive(Drop)]
struct ScaledRows<'a> {
    plane: &'a Plane,
    factor: u32,
    left: u32,
    top: u32,
}

impl RowPainter for ScaledRows<'_> {
    ghost use Rattle.pipe_nodes.specs.Windows.{CanScale, IsScaled};

    ghost size = { λ _. 3 };

    ghost asks = { λ p x y. CanScale p.plane.now p.factor p.left p.top x y };

    ghost gives = { λ p x y r. IsScaled p.plane.now p.factor p.left p.top x y r };

    fn fill_row(&self, x: u32, y: u32, n: u32, row: &mut [u32]) {
        if n > 0 {
            scale_row(self.plane, self.factor, self.left, self.top, x, y, n, row);
        }
    }
}

// A region of a plane as a picture of its own: by a factor of 1 each block is one pixel.
fn unscaled_part(
    alloc: Global,
    plane: &Plane,
    left: u32,
    top: u32,
    columns: u32,
    rows: u32,
) -> Result<Plane, AllocError>
    requires rgb { plane.now.kind ≡ Rgb }
    requires fits { Fits left top columns rows }
    requires inside { IsIn (record { x = left; y = top; w = columns; h = rows }) plane.now.w plane.now.h }
    requires covers { Covers plane.now.area (record { x = left; y = top; w = columns; h = rows }) }
    ensures whole { IfOk result IsWhole }
    ensures rgb { IfOk result (λ p. p.kind ≡ Rgb) }
    ensures cut { IfOk result (λ p. (q : Picture) → IsCutOf q plane.now → IsCutOf (part_of (record { x = left; y = top; w = columns; h = rows }) (scaled 1 q)) p) }
{
    let region = Region {
        x: left,
        y: top,
        w: columns,
        h: rows,
    };
    let part = plane.cut(alloc, region)?;
    let whole = Region::whole(columns, rows);
    Ok(Plane::from_rows(PlaneKind::Rgb, columns, rows, whole, part.into_values()))
}

// A region of a plane scaled down by a factor, as a picture of its own, its rows side by side. The
// plane covers the blocks of the region's pixels.
pub(crate) fn scaled_part<R: Threads + Sync>(
    rt: &R,
    alloc: Global,
    plane: &Plane,
    factor: u32,
    left: u32,
    top: u32,
    columns: u32,
    rows: u32,
) -> Result<Plane, AllocError>
    requires rgb { plane.now.kind ≡ Rgb }
    requires some { 1 ≤ factor }
    requires small { factor ≤ 16384 }
    requires wide { 0 < columns }
    requires high { 0 < rows }
    requires inside { IsIn (record { x = left; y = top; w = columns; h = rows }) (blocks factor plane.now.w) (blocks factor plane.now.h) }
    requires covers { Covers plane.now.area (unscaled factor (record { x = left; y = top; w = columns; h = rows }) plane.now.w plane.now.h) }
    ensures whole { IfOk result IsWhole }
    ensures rgb { IfOk result (λ p. p.kind ≡ Rgb) }
    ensures cut { IfOk result (λ p. (q : Picture) → IsCutOf q plane.now → IsCutOf (part_of (record { x = left; y = top; w = columns; h = rows }) (scaled factor q)) p) }
{
    let (w, h) = plane.sides();
    prove!(scaled_side(w, factor) <= w && scaled_side(h, factor) <= h);
    if factor == 1 {
        return unscaled_part(alloc, plane, left, top, columns, rows);
    }
    let painter = ScaledRows {
        plane,
        factor,
        left,
        top,
    };
    let region = Region::whole(columns, rows);
    paint(rt, alloc, PlaneKind::Rgb, columns, rows, region, &painter)
}
