//! The builders of planes. A kernel is a function of one pixel and a closure; the loops, the places of
//! values and the threads stand here.
ghost use Rattle.std.specs.Prelude.{◌≡◌, ℕ, ◌+◌, ◌*◌, ◌/◌, ◌<◌, ◌≤◌, length, slice_index, IfOk, vec_len};
ghost use Rattle.px.specs.Area.{IsIn, Fits};
ghost use Rattle.px.specs.Kind.{channels, least_side};
ghost use Rattle.px.specs.Painted.{AsksIn, GivesTop, IsPainted, IsRow, AreRows};
ghost use Rattle.px.specs.Rows.{area_of};

use crate::{Plane, PlaneKind, Region, RowPainter};
use rayon::prelude::*;
use std::alloc::{AllocError, Global};
use std::thread::Threads;

// The rows of a region, with `size` values a pixel.
#[derive(Clone, Copy)]
pub(crate) struct Rows {
    pub(crate) x: u32,
    pub(crate) y: u32,
    pub(crate) w: u32,
    pub(crate) h: u32,
    pub(crate) size: usize,
}

// Fills rows one after another.
pub(crate) fn fill_in_turn<P: RowPainter>(painter: &P, rows: Rows, values: &mut [u32])
    requires size { rows.size ≡ P.size painter.now }
    requires asks { AsksIn (area_of rows) (P.asks painter.now) }
    requires gives { GivesTop (area_of rows) (P.gives painter.now) }
    requires small { rows.size ≤ 3 }
    requires right { rows.x + rows.w ≤ 16384 }
    requires bottom { rows.y + rows.h ≤ 16384 }
    requires len { length values.old ≡ rows.h * rows.w * rows.size }
    requires top { (i : ℕ) → slice_index values.old i ≤ 1048575 }
    ensures rows { AreRows (P.gives painter.now) rows.x rows.y rows.w rows.size rows.h values.new }
{
    let stride = rows.w as usize * rows.size;
    for j in 0..rows.h {
        let at = j as usize * stride;
        fill_nth(painter, rows, j as usize, &mut values[at..at + stride]);
    }
}

// Fills row `j` of the rows.
fn fill_nth<P: RowPainter>(painter: &P, rows: Rows, j: usize, row: &mut [u32])
    requires size { rows.size ≡ P.size painter.now }
    requires asks { AsksIn (area_of rows) (P.asks painter.now) }
    requires gives { GivesTop (area_of rows) (P.gives painter.now) }
    requires right { rows.x + rows.w ≤ 16384 }
    requires bottom { rows.y + rows.h ≤ 16384 }
    requires within { j < rows.h }
    requires len { length row.old ≡ rows.w * rows.size }
    requires top { (i : ℕ) → slice_index row.old i ≤ 1048575 }
    ensures row { IsRow (P.gives painter.now) rows.x (rows.y + j) rows.size rows.w row.new }
{
    painter.fill_row(rows.x, rows.y + j as u32, rows.w, row);
}

// Fills rows side by side.
fn fill_side_by_side<R: Threads + Sync, P: RowPainter + Sync>(
    rt: &R,
    painter: &P,
    rows: Rows,
    values: &mut [u32],
)
    requires size { rows.size ≡ P.size painter.now }
    requires asks { AsksIn (area_of rows) (P.asks painter.now) }
    requires gives { GivesTop (area_of rows) (P.gives painter.now) }
    requires wide { 0 < rows.w * rows.size }
    requires small { rows.size ≤ 3 }
    requires right { rows.x + rows.w ≤ 16384 }
    requires bottom { rows.y + rows.h ≤ 16384 }
    requires len { length values.old ≡ rows.h * rows.w * rows.size }
    requires top { (i : ℕ) → slice_index values.old i ≤ 1048575 }
    ensures rows { AreRows (P.gives painter.now) rows.x rows.y rows.w rows.size rows.h values.new }
{
    let stride = rows.w as usize * rows.size;
    par_chunks_mut_for_each(
        rt,
        values,
        stride,
        |start: usize, row: &mut [u32]|
            requires size { rows.size ≡ P.size painter.now }
            requires asks { AsksIn (area_of rows) (P.asks painter.now) }
            requires gives { GivesTop (area_of rows) (P.gives painter.now) }
            requires right { rows.x + rows.w ≤ 16384 }
            requires bottom { rows.y + rows.h ≤ 16384 }
            requires stride { stride ≡ rows.w * rows.size }
            requires wide { 0 < stride }
            requires within { start / stride < rows.h }
            requires len { length row.now ≡ stride }
            requires top { (i : ℕ) → slice_index row.now i ≤ 1048575 }
            ensures { IsRow (P.gives painter.entry.now) rows.x (rows.y + start / stride) rows.size rows.w row.exit.now }
        {
            fill_nth(painter, rows, start / stride, row);
        },
    );
}

// The rows of a region.
pub(crate) fn rows_of(region: Region, size: usize) -> Rows
    ensures rows { result ≡ record { x = region.x; y = region.y; w = region.w; h = region.h; size = size } }
    ensures valid { Fits region.x region.y region.w region.h }
{
    Rows {
        x: region.x,
        y: region.y,
        w: region.w,
        h: region.h,
        size,
    }
}

// Values for so many rows, not painted yet.
pub(crate) fn blank(alloc: Global, rows: Rows) -> Result<Vec<u32>, AllocError>
    requires small { rows.size ≤ 3 }
    requires right { rows.x + rows.w ≤ 16384 }
    requires bottom { rows.y + rows.h ≤ 16384 }
    ensures len { IfOk result (λ v. length v.items ≡ rows.h * rows.w * rows.size) }
    ensures top { IfOk result (λ v. (i : ℕ) → slice_index v.items i ≤ 1048575) }
{
    let count = rows.h as usize * rows.w as usize * rows.size;
    vec![in alloc; 0u32; count]
}

// As many values, in the place of those of a plane that nobody needs any more, where it has enough.
fn blank_over(alloc: Global, spare: Option<Plane>, rows: Rows) -> Result<Vec<u32>, AllocError>
    requires small { rows.size ≤ 3 }
    requires right { rows.x + rows.w ≤ 16384 }
    requires bottom { rows.y + rows.h ≤ 16384 }
    ensures len { IfOk result (λ v. length v.items ≡ rows.h * rows.w * rows.size) }
    ensures top { IfOk result (λ v. (i : ℕ) → slice_index v.items i ≤ 1048575) }
{
    let count = rows.h as usize * rows.w as usize * rows.size;
    if let Some(plane) = spare {
        let mut values = plane.into_values();
        if count <= values.len() {
            values.truncate(count);
            return Ok(values);
        }
    }
    blank(alloc, rows)
}

/// A plane of one region of a picture of sides `w` and `h`, each pixel of which is what the painter
/// gives there. Its rows are painted side by side, in as many threads as there are processors.
pub fn paint<R: Threads + Sync, P: RowPainter + Sync>(
    rt: &R,
    alloc: Global,
    kind: PlaneKind,
    w: u32,
    h: u32,
    region: Region,
    painter: &P,
) -> Result<Plane, AllocError>
    requires size { P.size painter.now ≡ channels kind }
    requires inside { IsIn region w h }
    requires wide { w ≤ 16384 }
    requires high { h ≤ 16384 }
    requires wide_enough { least_side kind ≤ w }
    requires high_enough { least_side kind ≤ h }
    requires asks { AsksIn region (P.asks painter.now) }
    requires gives { GivesTop region (P.gives painter.now) }
    ensures { IfOk result (λ p. IsPainted kind w h region (P.gives painter.now) p) }
{
    let rows = rows_of(region, kind.channels());
    let mut values = blank(alloc, rows)?;
    fill_side_by_side(rt, painter, rows, &mut values);
    Ok(Plane::from_rows(kind, w, h, region, values))
}

/// The same plane, its rows painted one after another. A spare plane, which nobody needs any more, lends it its
/// memory where that is enough.
pub fn paint_in_turn<P: RowPainter>(
    alloc: Global,
    spare: Option<Plane>,
    kind: PlaneKind,
    w: u32,
    h: u32,
    region: Region,
    painter: &P,
) -> Result<Plane, AllocError>
    requires size { P.size painter.now ≡ channels kind }
    requires inside { IsIn region w h }
    requires wide { w ≤ 16384 }
    requires high { h ≤ 16384 }
    requires wide_enough { least_side kind ≤ w }
    requires high_enough { least_side kind ≤ h }
    requires asks { AsksIn region (P.asks painter.now) }
    requires gives { GivesTop region (P.gives painter.now) }
    ensures { IfOk result (λ p. IsPainted kind w h region (P.gives painter.now) p) }
{
    let rows = rows_of(region, kind.channels());
    let mut values = blank_over(alloc, spare, rows)?;
    fill_in_turn(painter, rows, &mut values);
    Ok(Plane::from_rows(kind, w, h, region, values))
}
