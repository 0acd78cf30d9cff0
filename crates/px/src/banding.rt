//! Rows filled by bands, side by side, where a band may run out of memory.
ghost use Rattle.std.specs.Prelude.{◌≡◌, ℕ, ◌+◌, ◌*◌, ◌<◌, ◌≤◌, List, ◌++◌, length, OnOk, IfOk};
ghost use Rattle.std.specs.Thread.{IsSync, IsSend};
ghost use Rattle.px.specs.Area.{IsIn};
ghost use Rattle.px.specs.Kind.{channels, least_side};
ghost use Rattle.px.specs.Bands.{AsksRows, AsksBands, GivesShaped, HasRow, AreBands, IsFromBands};

use crate::painting::{Rows, blank, rows_of};
use crate::{Plane, PlaneKind, Region};
use rayon::{current_num_threads, join_mut};
use std::alloc::{AllocError, Global};
use std::thread::Threads;

/// What fills bands of rows.
pub trait BandFiller<T> {
    /// The rows that may be asked for.
    ghost asks: { Self → ℕ → Type 0 };

    /// How many values a row has.
    ghost stride: { Self → ℕ };

    /// These values are right for so many rows, from a row on.
    ghost fills: { Self → ℕ → ℕ → List T → Type 0 };

    /// Writes `n` rows, from row `y` on, or runs out of memory.
    fn fill(&self, y: u32, n: u32, rows: &mut [T]) -> Result<(), AllocError>
        requires some { 0 < n }
        requires fits { y + n ≤ 16384 }
        requires asks { AsksRows (asks self.now) y n }
        requires len { length rows.old ≡ n * stride self.now }
        ensures { OnOk result (fills self.now y n rows.new) };

    /// Does nothing: rows that are right, and further rows behind them that are, are right together.
    fn joined(&self)
        ensures { (y m n : ℕ) (a b : List T) → length a ≡ m * stride self.now → length b ≡ n * stride self.now → fills self.now y m a → fills self.now (y + m) n b → fills self.now y (m + n) (a ++ b) };
}

// How many times the rows are halved among threads: two parts for each processor, up to 64.
fn halvings<R: Threads>(rt: &R) -> usize
    ensures { result ≤ 6 }
{
    let threads = current_num_threads(rt).min(32);
    threads.saturating_mul(2).ilog2() as usize
}

// Fills `n` rows from row `y` on, at most `band` at a time.
#[cycle(halves)]
fn bands_from<R: Threads + Sync, T: Send, B: BandFiller<T> + Sync>(
    rt: &R,
    filler: &B,
    depth: usize,
    band: u32,
    y: u32,
    n: u32,
    stride: usize,
    rows: &mut [T],
) -> Result<(), AllocError>
    requires band { 0 < band }
    requires some { 0 < n }
    requires fits { y + n ≤ 16384 }
    requires asks { AsksRows (B.asks filler.now) y n }
    requires stride { stride ≡ B.stride filler.now }
    requires len { length rows.old ≡ n * stride }
    ensures { OnOk result (B.fills filler.now y n rows.new) }
{
    if n <= band {
        return filler.fill(y, n, rows);
    }
    filler.joined();
    let low = n / 2;
    let (a, b) = rows.split_at_mut(low as usize * stride);
    both_halves(rt, filler, depth, band, y, low, n - low, stride, a, b)
}

// The halves run side by side while there is depth left, and else in turn.
#[cycle(halves)]
fn both_halves<R: Threads + Sync, T: Send, B: BandFiller<T> + Sync>(
    rt: &R,
    filler: &B,
    depth: usize,
    band: u32,
    y: u32,
    low: u32,
    high: u32,
    stride: usize,
    a: &mut [T],
    b: &mut [T],
) -> Result<(), AllocError>
    requires band { 0 < band }
    requires some { 0 < low }
    requires more { 0 < high }
    requires fits { y + low + high ≤ 16384 }
    requires asks { AsksRows (B.asks filler.now) y low }
    requires more_asks { AsksRows (B.asks filler.now) (y + low) high }
    requires stride { stride ≡ B.stride filler.now }
    requires front { length a.old ≡ low * stride }
    requires back { length b.old ≡ high * stride }
    ensures front { OnOk result (B.fills filler.now y low a.new) }
    ensures back { OnOk result (B.fills filler.now (y + low) high b.new) }
{
    let mid = y + low;
    if depth == 0 {
        bands_from(rt, filler, 0, band, y, low, stride, a)?;
        return bands_from(rt, filler, 0, band, mid, high, stride, b);
    }
    let below = depth - 1;
    let mut front = || -> Result<(), AllocError>
        requires shared { IsSync R.row × IsSync B.row × IsSend T.row }
        requires band { 0 < band }
        requires some { 0 < low }
        requires fits { y + low ≤ 16384 }
        requires asks { AsksRows (B.asks filler.now) y low }
        requires stride { stride ≡ B.stride filler.now }
        requires len { length a.now ≡ low * stride }
        ensures { OnOk result (B.fills filler.entry.now y low a.exit.now) }
    { bands_from(rt, filler, below, band, y, low, stride, a) };
    let mut back = || -> Result<(), AllocError>
        requires shared { IsSync R.row × IsSync B.row × IsSend T.row }
        requires band { 0 < band }
        requires some { 0 < high }
        requires fits { mid + high ≤ 16384 }
        requires asks { AsksRows (B.asks filler.now) mid high }
        requires stride { stride ≡ B.stride filler.now }
        requires len { length b.now ≡ high * stride }
        ensures { OnOk result (B.fills filler.entry.now mid high b.exit.now) }
    { bands_from(rt, filler, below, band, mid, high, stride, b) };
    let (first, second) = join_mut(rt, &mut front, &mut back);
    first?;
    second
}

/// Fills `n` rows from row `y` on by bands of at most `band` rows, side by side, in as many threads as
/// there are processors. Either all rows are right, or memory ran out in some band.
pub fn fill_bands<R: Threads + Sync, T: Send, B: BandFiller<T> + Sync>(
    rt: &R,
    filler: &B,
    band: u32,
    y: u32,
    n: u32,
    stride: usize,
    rows: &mut [T],
) -> Result<(), AllocError>
    requires band { 0 < band }
    requires some { 0 < n }
    requires fits { y + n ≤ 16384 }
    requires asks { AsksRows (B.asks filler.now) y n }
    requires stride { stride ≡ B.stride filler.now }
    requires len { length rows.old ≡ n * stride }
    ensures { OnOk result (B.fills filler.now y n rows.new) }
{
    bands_from(rt, filler, halvings(rt), band, y, n, stride, rows)
}

// Fills bands with the values of planes that a closure makes.
#[derive(Drop)]
struct ByPlanes<F> {
    kind: PlaneKind,
    w: u32,
    h: u32,
    rows: Rows,
    make: F,
}

impl<F: Fn(Region) -> Result<Plane, AllocError>> BandFiller<u32> for ByPlanes<F> {
    ghost use Rattle.px.specs.Bands.{AsksBands, GivesShaped, HasRow, AreBands};
    ghost use Rattle.px.specs.Kind.{channels};
    ghost use Rattle.px.specs.Rows.{area_of};
    ghost use Rattle.px.specs.Area.{IsArea};

    ghost asks = { λ s y. HasRow (area_of s.rows) y × IsArea (area_of s.rows) × AsksBands (area_of s.rows) (F.pre s.make) × GivesShaped s.kind s.w s.h (area_of s.rows) (F.post s.make) };

    ghost stride = { λ s. s.rows.w * channels s.kind };

    ghost fills = { λ s y n values. AreBands s.kind s.w s.h (area_of s.rows) (F.post s.make) y n values };

    fn fill(&self, y: u32, n: u32, rows: &mut [u32]) -> Result<(), AllocError> {
        let band = Region {
            x: self.rows.x,
            y,
            w: self.rows.w,
            h: n,
        };
        let plane = (self.make)(band)?;
        rows.copy_from_slice(plane.values());
        Ok(())
    }

    fn joined(&self) {}
}

/// A plane of one region of a picture of sides `w` and `h`, put together from bands of at most `band`
/// rows, which the closure makes side by side. It is a cut of each picture of which all bands are cuts.
pub fn paint_bands<R: Threads + Sync, F: Fn(Region) -> Result<Plane, AllocError> + Sync>(
    rt: &R,
    alloc: Global,
    kind: PlaneKind,
    w: u32,
    h: u32,
    region: Region,
    band: u32,
    make: F,
) -> Result<Plane, AllocError>
    requires band { 0 < band }
    requires inside { IsIn region w h }
    requires wide { w ≤ 16384 }
    requires high { h ≤ 16384 }
    requires wide_enough { least_side kind ≤ w }
    requires high_enough { least_side kind ≤ h }
    requires asks { AsksBands region (F.pre make) }
    requires shaped { GivesShaped kind w h region (F.post make) }
    ensures { IfOk result (λ p. IsFromBands kind w h region (F.post make) p) }
{
    let rows = rows_of(region, kind.channels());
    let mut values = blank(alloc, rows)?;
    let filler = ByPlanes {
        kind,
        w,
        h,
        rows,
        make,
    };
    fill_bands(
        rt,
        &filler,
        band,
        rows.y,
        rows.h,
        rows.w as usize * rows.size,
        &mut values,
    )?;
    Ok(Plane::from_rows(kind, w, h, region, values))
}
