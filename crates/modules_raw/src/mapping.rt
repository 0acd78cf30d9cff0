//! The kernels of modules that change each value by its colour alone.
ghost use Rattle.std.specs.Prelude.{◌≡◌, ℕ, ◌+◌, ◌<◌, ◌≤◌, length, slice_index, IfOk};
ghost use Rattle.px.specs.Area.{Covers};
ghost use Rattle.px.specs.Cut.{IsCutOf};
ghost use Rattle.px.specs.Mosaic.{channel_at};
ghost use Rattle.px.specs.Picture.{Picture};
ghost use Rattle.modules_raw.specs.Mapped.{mapped};

use crate::channel_map::ChannelMap;
use px::{Cfa, Plane, PlaneKind, Region, RowPainter, paint, paint_in_turn};
use std::alloc::{AllocError, Global};
use std::thread::Threads;

// Changes a row of a mosaic that begins in column `x` of row `y`.
fn map_mosaic<M: ChannelMap>(map: &M, cfa: Cfa, x: u32, y: u32, from: &[u32], row: &mut [u32])
    requires allows { M.allows map.now }
    requires column { x < 16384 }
    requires len { length from.now ≡ length row.old }
    requires top { (i : ℕ) → slice_index from.now i ≤ 1048575 }
    ensures values { (i : ℕ) → i < length from.now → slice_index row.new i ≡ M.makes map.now (channel_at cfa (x + i) y) (slice_index from.now i) }
    ensures top { (i : ℕ) → i < length from.now → slice_index row.new i ≤ 1048575 }
{
    let first = cfa.channel(x, y);
    let second = cfa.channel(x + 1, y);
    map.change_pairs(first, second, from, row);
}

// Paints the changed rows of a plane.
#[derive(Drop)]
struct MappedRows<'a, M> {
    map: &'a M,
    input: &'a Plane,
}

impl<M: ChannelMap> RowPainter for MappedRows<'_, M> {
    ghost use Rattle.px.specs.Area.{HasPixel};
    ghost use Rattle.px.specs.Kind.{channels};
    ghost use Rattle.modules_raw.specs.Mapped.{IsMapped};

    ghost size = { λ p. channels p.input.now.kind };

    ghost asks = { λ p x y. HasPixel p.input.now.area x y × M.allows p.map.now };

    ghost gives = { λ p x y r. IsMapped p.input.now (M.makes p.map.now) x y r };

    fn fill_row(&self, x: u32, y: u32, n: u32, row: &mut [u32]) {
        if n == 0 {
            return;
        }
        let input = self.input;
        let from = input.row(x, y, n);
        match input.kind() {
            PlaneKind::Mosaic(cfa) => map_mosaic(self.map, cfa, x, y, from, row),
            PlaneKind::Rgb => self.map.change_threes(from, row),
        }
    }
}

/// A region of a picture with each value changed.
pub(crate) fn map_region<R: Threads + Sync, M: ChannelMap + Drop + Sync>(
    rt: &R,
    alloc: Global,
    map: &M,
    input: &Plane,
    region: Region,
) -> Result<Plane, AllocError>
    requires allows { M.allows map.now }
    requires covers { Covers input.now.area region }
    ensures area { IfOk result (λ p. p.area ≡ region) }
    ensures cut { IfOk result (λ p. (q : Picture) → IsCutOf q input.now → IsCutOf (mapped (M.makes map.now) q) p) }
{
    let (w, h) = input.sides();
    paint(
        rt,
        alloc,
        input.kind(),
        w,
        h,
        region,
        &MappedRows { map, input },
    )
}

/// The same region, its rows one after another.
pub(crate) fn map_in_turn<M: ChannelMap + Drop>(
    alloc: Global,
    spare: Option<Plane>,
    map: &M,
    input: &Plane,
    region: Region,
) -> Result<Plane, AllocError>
    requires allows { M.allows map.now }
    requires covers { Covers input.now.area region }
    ensures area { IfOk result (λ p. p.area ≡ region) }
    ensures cut { IfOk result (λ p. (q : Picture) → IsCutOf q input.now → IsCutOf (mapped (M.makes map.now) q) p) }
{
    let (w, h) = input.sides();
    paint_in_turn(
        alloc,
        spare,
        input.kind(),
        w,
        h,
        region,
        &MappedRows { map, input },
    )
}
