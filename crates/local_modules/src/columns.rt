//! Sums of columns, kept from row to row.
ghost use Rattle.std.specs.Prelude.{◌≡◌, ℕ, ◌+◌, ◌-◌, ◌*◌, ◌^◌, ◌<◌, ◌≤◌, slice_index, length};
ghost use Rattle.px.specs.declared.kind.PlaneKind.TheVariants.{Rgb};
ghost use Rattle.px.specs.Area.{Covers};
ghost use Rattle.local_modules.specs.Running.{flat, AreColumns};

use px::Plane;

// The values of `m` pixels of row `v`, from column `lo` on.
fn rgb_row(input: &Plane, lo: u32, v: u32, m: u32) -> &[u32]
    requires rgb { input.now.kind ≡ Rgb }
    requires covers { Covers input.now.area (record { x = lo; y = v; w = m; h = 1 }) }
    ensures len { length result.now ≡ m * 3 }
    ensures same { (i : ℕ) → i < m * 3 → slice_index result.now i ≡ flat input.now lo v i }
    ensures top { (i : ℕ) → slice_index result.now i ≤ 1048575 }
    ensures valid { (i : ℕ) → slice_index input.now.values i ≤ 1048575 }
{
    let region = input.region();
    let at = ((v - region.y) as usize * region.w as usize + (lo - region.x) as usize) * 3;
    &input.values()[at..at + m as usize * 3]
}

// Adds a row to the sums.
fn add_row(sums: &mut [u32], row: &[u32])
    requires len { length row.now ≡ length sums.old }
    requires room { (i : ℕ) → i < length sums.old → slice_index sums.old i + slice_index row.now i < 2 ^ 32 }
    ensures { (i : ℕ) → i < length sums.old → slice_index sums.new i ≡ slice_index sums.old i + slice_index row.now i }
{
    for i in 0..row.len() {
        sums[i] += row[i];
    }
}

// Takes a row from the sums.
fn take_row(sums: &mut [u32], row: &[u32])
    requires len { length row.now ≡ length sums.old }
    requires room { (i : ℕ) → i < length sums.old → slice_index row.now i ≤ slice_index sums.old i }
    ensures { (i : ℕ) → i < length sums.old → slice_index sums.new i + slice_index row.now i ≡ slice_index sums.old i }
{
    for i in 0..row.len() {
        sums[i] -= row[i];
    }
}

// From the rows `a` up to `b` to the rows `c` up to `d`.
pub(crate) fn move_rows(
    input: &Plane,
    lo: u32,
    m: u32,
    a: u32,
    b: u32,
    c: u32,
    d: u32,
    sums: &mut [u32],
)
    requires rgb { input.now.kind ≡ Rgb }
    requires first { a ≤ c }
    requires middle { c ≤ b }
    requires last { b ≤ d }
    requires few { d ≤ c + 129 }
    requires left { input.now.area.x ≤ lo }
    requires right { lo + m ≤ input.now.area.x + input.now.area.w }
    requires top { input.now.area.y ≤ a }
    requires bottom { d ≤ input.now.area.y + input.now.area.h }
    requires was { AreColumns input.now lo (m * 3) a b sums.old }
    ensures { AreColumns input.now lo (m * 3) c d sums.new }
{
    for v in a..c {
        take_row(sums, rgb_row(input, lo, v, m));
    }
    for v in b..d {
        add_row(sums, rgb_row(input, lo, v, m));
    }
}
