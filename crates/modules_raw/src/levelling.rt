ghost use Rattle.std.specs.Prelude.{◌≡◌, ℕ, ◌^◌, ◌<◌, ◌≤◌, List, [], ◌∷◌, slice_index, IfOk};
ghost use Rattle.px.specs.Cut.{IsCutOf, IsWhole, value_at};
ghost use Rattle.px.specs.Means.{mean_in};
ghost use Rattle.px.specs.Picture.{Picture};
ghost use Rattle.modules_raw.specs.Levels.{blocks, block, levelled};

use crate::Source;
use crate::levels::{block_of, block_size, level_sides};
use px::{ByPixel, Colour, Plane, PlaneKind, Region, box_mean, paint};
use std::alloc::{AllocError, Global};
use std::thread::Threads;

// Pixel (`x`, `y`) of a level whose blocks have sides of `size`.
fn level_pixel(plane: &Plane, size: u32, x: u32, y: u32) -> [u32; 3]
    requires whole { IsWhole plane.now }
    requires two { 2 ≤ size }
    requires small { size ≤ 256 }
    requires column { x < blocks size plane.now.w }
    requires row { y < blocks size plane.now.h }
    ensures pixel { result ≡ mean_in plane.now.kind (value_at plane.now) 0 (block plane.now.w plane.now.h size x y)
        ∷ mean_in plane.now.kind (value_at plane.now) 1 (block plane.now.w plane.now.h size x y)
        ∷ mean_in plane.now.kind (value_at plane.now) 2 (block plane.now.w plane.now.h size x y) ∷ [] }
    ensures top { (i : ℕ) → slice_index result i ≤ 1048575 }
{
    let (w, h) = plane.sides();
    let block = block_of(w, h, size, x, y);
    [
        box_mean(plane, block, Colour::R),
        box_mean(plane, block, Colour::G),
        box_mean(plane, block, Colour::B),
    ]
}

/// Level `l`, 1 to 8, of a source: an RGB picture, each pixel of which has the floor means of the
/// source's red, green and blue in a block of `2^l` columns and rows. A block that the right or lower side
/// cuts off at one column or row takes in the one before it.
pub fn level<R: Threads + Sync>(
    rt: &R,
    alloc: Global,
    source: &Source,
    l: u8,
) -> Result<Plane, AllocError>
    requires low { 1 ≤ l }
    requires high { l ≤ 8 }
    ensures whole { IfOk result (λ p. IsWhole p) }
    ensures cut { IfOk result (λ p. (q : Picture) → IsCutOf q source.now → IsCutOf (levelled l q) p) }
{
    let plane = source.plane();
    let (w, h) = plane.sides();
    let size = block_size(l);
    let (level_w, level_h) = level_sides(w, h, l);
    let pixel = |x: u32, y: u32| -> [u32; 3]
        requires whole { IsWhole plane.now }
        requires two { 2 ≤ size }
        requires small { size ≤ 256 }
        requires column { x < blocks size plane.now.w }
        requires row { y < blocks size plane.now.h }
        ensures pixel { result ≡ mean_in plane.entry.now.kind (value_at plane.entry.now) 0 (block plane.entry.now.w plane.entry.now.h size x y)
            ∷ mean_in plane.entry.now.kind (value_at plane.entry.now) 1 (block plane.entry.now.w plane.entry.now.h size x y)
            ∷ mean_in plane.entry.now.kind (value_at plane.entry.now) 2 (block plane.entry.now.w plane.entry.now.h size x y) ∷ [] }
        ensures top { (i : ℕ) → slice_index result i ≤ 1048575 }
    { level_pixel(plane, size, x, y) };
    let whole = Region::whole(level_w, level_h);
    paint(
        rt,
        alloc,
        PlaneKind::Rgb,
        level_w,
        level_h,
        whole,
        &ByPixel { pixel },
    )
}
