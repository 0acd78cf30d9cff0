//! Means of the pixels of one colour.
ghost use Rattle.std.specs.Prelude.{◌≡◌, ℕ, ◌+◌, ◌*◌, ◌<◌, ◌≤◌, slice_index, length, if◌then◌else◌};
ghost use Rattle.px.specs.declared.kind.PlaneKind.TheVariants.{Mosaic};
ghost use Rattle.px.specs.Area.{Covers};
ghost use Rattle.px.specs.Cut.{value_at};
ghost use Rattle.px.specs.Means.{part, count_in, mean_in};
ghost use Rattle.px.specs.Mosaic.{channel};
ghost use Rattle.px.specs.Sums.{total};

use crate::painting::rows_of;
use crate::{Cfa, Colour, Plane, PlaneKind, Region};

// The sum of `n` values of a list, from place `from` on, `step` places apart.
fn strided_sum(values: &[u32], from: usize, step: usize, n: u32) -> u64
    requires few { n ≤ 16384 }
    requires near { from ≤ 2 }
    requires step { step ≤ 3 }
    requires fits { (k : ℕ) → k < n → from + k * step < length values.now }
    requires top { (i : ℕ) → slice_index values.now i ≤ 1048575 }
    ensures sum { result ≡ total (λ k. slice_index values.now (from + k * step)) 0 n }
    ensures small { result ≤ n * 1048575 }
{
    let mut sum = 0;
    for k in 0..n {
        sum += u64::from(values[from + k as usize * step]);
    }
    sum
}

// Every second value of a list, if these are wanted: their sum and how many they are.
fn alternate(values: &[u32], from: usize, n: u32, wanted: bool) -> (u64, u32)
    requires few { n ≤ 16384 }
    requires near { from ≤ 2 }
    requires fits { (k : ℕ) → k < n → from + k * 2 < length values.now }
    requires top { (i : ℕ) → slice_index values.now i ≤ 1048575 }
    ensures sum { result.0 ≡ (if wanted then total (λ k. slice_index values.now (from + k * 2)) 0 n else 0) }
    ensures count { result.1 ≡ (if wanted then n else 0) }
    ensures small { result.0 ≤ result.1 * 1048575 }
{
    if wanted {
        return (strided_sum(values, from, 2, n), n);
    }
    (0, 0)
}

// The pixels of a channel among `n` of row `y` of a mosaic, from column `x` on: their sum and how many
// they are.
fn mosaic_row(plane: &Plane, cfa: Cfa, c: u32, x: u32, y: u32, n: u32) -> (u64, u32)
    requires mosaic { plane.now.kind ≡ Mosaic cfa }
    requires some { 0 < n }
    requires few { n ≤ 16384 }
    requires end { x < 16384 }
    requires covers { Covers plane.now.area (record { x = x; y = y; w = n; h = 1 }) }
    ensures sum { result.0 ≡ total (λ u. part plane.now.kind (value_at plane.now) c u y) x n }
    ensures count { result.1 ≡ total (λ u. part plane.now.kind (λ x y c. 1) c u y) x n }
    ensures small { result.0 ≤ result.1 * 1048575 }
    ensures few { result.1 ≤ n }
{
    let row = plane.row(x, y, n);
    let (even, first) = alternate(row, 0, n - n / 2, cfa.channel(x, y) == c);
    let (odd, second) = alternate(row, 1, n / 2, cfa.channel(x + 1, y) == c);
    (even + odd, first + second)
}

// The same of a plane of any kind.
fn row_sum(plane: &Plane, c: u32, x: u32, y: u32, n: u32) -> (u64, u32)
    requires channel { c < 3 }
    requires some { 0 < n }
    requires few { n ≤ 16384 }
    requires end { x < 16384 }
    requires covers { Covers plane.now.area (record { x = x; y = y; w = n; h = 1 }) }
    ensures sum { result.0 ≡ total (λ u. part plane.now.kind (value_at plane.now) c u y) x n }
    ensures count { result.1 ≡ total (λ u. part plane.now.kind (λ x y c. 1) c u y) x n }
    ensures small { result.0 ≤ result.1 * 1048575 }
    ensures few { result.1 ≤ n }
{
    match plane.kind() {
        PlaneKind::Mosaic(cfa) => mosaic_row(plane, cfa, c, x, y, n),
        PlaneKind::Rgb => {
            let row = plane.row(x, y, n);
            (strided_sum(row, c as usize, 3, n), n)
        }
    }
}

/// The floor mean of the pixels of one colour in a block: of a mosaic, those that have the colour; of an
/// RGB plane, that channel of each. The plane covers the block, and the block has the colour.
pub fn box_mean(plane: &Plane, block: Region, c: Colour) -> u32
    requires covers { Covers plane.now.area block }
    requires some { 0 < count_in plane.now.kind (channel c) block }
    ensures mean { result ≡ mean_in plane.now.kind (value_at plane.now) (channel c) block }
    ensures top { result ≤ 1048575 }
{
    let channel = c.channel();
    let rows = rows_of(block, 1);
    let mut sum = 0;
    let mut count = 0;
    for j in 0..rows.h {
        let (part, number) = row_sum(plane, channel, rows.x, rows.y + j, rows.w);
        sum += part;
        count += number;
    }
    (sum / u64::from(count)) as u32
}
