//! Sides of levels, and which level is asked for.
ghost use Rattle.std.specs.Prelude.{◌≡◌, ◌+◌, ◌^◌, ◌<◌, ◌≤◌, min};
ghost use Rattle.px.specs.Area.{Covers, whole_of};
ghost use Rattle.modules_raw.specs.Levels.{blocks, level_side, block, block_start, block_len, IsPreviewLevel, IsThumbnailLevel};

use px::{BoxSize, Region};

// The side of a level's blocks.
pub(crate) fn block_size(l: u8) -> u32
    requires { l ≤ 8 }
    ensures size { result ≡ 2 ^ l }
    ensures some { 0 < result }
    ensures small { result ≤ 256 }
{
    1 << u32::from(l)
}

// A side in blocks.
fn blocks(size: u32, n: u32) -> u32
    requires some { 0 < size }
    requires small { size ≤ 256 }
    requires wide { n ≤ 16384 }
    ensures { result ≡ blocks size n }
{
    (n + (size - 1)) / size
}

/// The sides of a level of a picture of sides `w` and `h`, 1 to `SIDE` each: `ceil(w / 2^l)` and
/// `ceil(h / 2^l)`. Levels are 0 to 8, and level 0 is the source itself.
pub fn level_sides(w: u32, h: u32, l: u8) -> (u32, u32)
    requires wide { w ≤ 16384 }
    requires high { h ≤ 16384 }
    requires level { l ≤ 8 }
    ensures { result ≡ (level_side w l, level_side h l) }
{
    let size = block_size(l);
    (blocks(size, w), blocks(size, h))
}

/// The preview's level: the least one whose sides are both at most `side`, 64 to 720 pixels.
pub fn level_of_preview(w: u32, h: u32, side: u32) -> u8
    requires wide { w ≤ 16384 }
    requires high { h ≤ 16384 }
    requires low { 64 ≤ side }
    ensures level { IsPreviewLevel w h side result }
    ensures few { result ≤ 8 }
{
    for l in 0..8 {
        let (level_w, level_h) = level_sides(w, h, l);
        if level_w <= side && level_h <= side {
            return l;
        }
    }
    8
}

/// A thumbnail's level: the greatest one whose sides are both at least those of the box, or 0 where there
/// is none.
pub fn level_of_thumbnail(w: u32, h: u32, size: BoxSize) -> u8
    requires wide { w ≤ 16384 }
    requires high { h ≤ 16384 }
    ensures level { IsThumbnailLevel w h size.w size.h result }
    ensures few { result ≤ 8 }
{
    let mut best = 0;
    for l in 1..9 {
        let (level_w, level_h) = level_sides(w, h, l);
        if size.w <= level_w && size.h <= level_h {
            best = l;
        }
    }
    best
}

// The block `i` along a side of `n` pixels: where it begins and how long it is.
fn block_along(n: u32, size: u32, i: u32) -> (u32, u32)
    requires wide { n ≤ 16384 }
    requires two { 2 ≤ size }
    requires small { size ≤ 256 }
    requires block { i < blocks size n }
    ensures start { result.0 ≡ block_start size n i }
    ensures len { result.1 ≡ block_len size n i }
    ensures inside { result.0 + result.1 ≤ n }
    ensures enough { min n 2 ≤ result.1 }
{
    let first = i * size;
    let start = first.min(n.saturating_sub(2));
    let end = (first + size).min(n);
    (start, end - start)
}

// The pixels of a source of sides `w` and `h` that pixel (`x`, `y`) is made of, in blocks of `size`.
pub(crate) fn block_of(w: u32, h: u32, size: u32, x: u32, y: u32) -> Region
    requires wide { w ≤ 16384 }
    requires high { h ≤ 16384 }
    requires some_wide { 0 < w }
    requires some_high { 0 < h }
    requires two { 2 ≤ size }
    requires small { size ≤ 256 }
    requires column { x < blocks size w }
    requires row { y < blocks size h }
    ensures region { result ≡ block w h size x y }
    ensures inside { Covers (whole_of w h) result }
    ensures columns { min w 2 ≤ result.w }
    ensures rows { min h 2 ≤ result.h }
{
    let (left, columns) = block_along(w, size, x);
    let (top, rows) = block_along(h, size, y);
    Region {
        x: left,
        y: top,
        w: columns,
        h: rows,
    }
}
