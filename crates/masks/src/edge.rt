//! Lines of pixels that an ellipse covers.
ghost use Rattle.std.specs.Prelude.{◌≡◌, ℕ, ◌+◌, ◌*◌, ◌<◌, ◌≤◌, ◌^◌, ◌↔◌, IsTrue, length};
ghost use Rattle.masks.specs.Lines.{far_at, ellipse_at, IsEdge, IsFilled, IsFilledFrom, IsSmallLine};

use crate::ellipse::{cover_of, far_out};
use crate::guess::Guess;
use crate::lines::Line;
use px::FULL_COVER;

/// An ellipse's half axes and feather, how far out the ellipse itself is, and what quotients by that are
/// guessed by.
#[derive(Clone, Copy)]
pub(crate) struct Edge {
    pub(crate) a: u32,
    pub(crate) b: u32,
    pub(crate) feather: u32,
    pub(crate) rim: u128,
    pub(crate) guess: Guess,
}

// How many pixels of a line are looked at together.
const BLOCK: u32 = 64;

// How far out pixel `k` of the line is.
fn far_at(line: Line, edge: Edge, k: u32) -> u128
    requires line { IsSmallLine line }
    requires edge { IsEdge edge }
    requires k { k ≤ 16384 }
    ensures value { result ≡ far_at line edge.a edge.b k }
    ensures small { result ≤ 2 ^ 103 }
{
    far_out(line.along_at(k), line.across_at(k), edge.a, edge.b)
}

// Whether what lies so far out is covered whole.
fn is_inside(edge: Edge, far: u128) -> bool
    requires edge { IsEdge edge }
    requires far { far ≤ 2 ^ 103 }
    ensures { IsTrue result ↔ far * 65536 < edge.rim * 65537 }
{
    far * 65_536 < edge.rim * 65_537
}

// Whether it isn't covered.
fn is_outside(edge: Edge, far: u128) -> bool
    requires edge { IsEdge edge }
    requires far { far ≤ 2 ^ 103 }
    ensures { IsTrue result ↔ edge.rim * (65536 + edge.feather) ≤ far * 65536 }
{
    edge.rim * u128::from(FULL_COVER + edge.feather) <= far * 65_536
}

// Whether the line is seen to stay within the ellipse: it is there at both ends, and in between it is
// no further out than at one of them.
fn stays_inside(line: Line, edge: Edge, from: u32, to: u32) -> bool
    requires line { IsSmallLine line }
    requires edge { IsEdge edge }
    requires order { from < to }
    requires end { to ≤ 16384 }
    ensures { IsTrue result → (k : ℕ) → from ≤ k → k < to → ellipse_at line edge k ≡ 65536 }
{
    is_inside(edge, far_at(line, edge, from)) && is_inside(edge, far_at(line, edge, to))
}

// Whether the line begins outside of the feather and leads away.
fn leads_away(line: Line, edge: Edge, from: u32) -> bool
    requires line { IsSmallLine line }
    requires edge { IsEdge edge }
    requires start { from < 16384 }
    ensures { IsTrue result → (k : ℕ) → from ≤ k → ellipse_at line edge k ≡ 0 }
{
    let far = far_at(line, edge, from);
    is_outside(edge, far) && far <= far_at(line, edge, from + 1)
}

// Whether the line ends outside of the feather and leads there.
fn comes_near(line: Line, edge: Edge, to: u32) -> bool
    requires line { IsSmallLine line }
    requires edge { IsEdge edge }
    requires some { 0 < to }
    requires end { to ≤ 16384 }
    ensures { IsTrue result → (k : ℕ) → k < to → ellipse_at line edge k ≡ 0 }
{
    let far = far_at(line, edge, to);
    is_outside(edge, far) && far <= far_at(line, edge, to - 1)
}

// The same value for some pixels.
fn fill(value: u32, from: u32, to: u32, row: &mut [u32])
    requires order { from ≤ to }
    requires end { to ≤ length row.old }
    ensures { IsFilledFrom (λ k. value) from to row.old row.new }
{
    for k in from..to {
        row[k as usize] = value;
    }
}

// Some pixels, each by itself.
fn fill_each(line: Line, edge: Edge, from: u32, to: u32, row: &mut [u32])
    requires line { IsSmallLine line }
    requires edge { IsEdge edge }
    requires order { from ≤ to }
    requires small { to ≤ 16384 }
    requires end { to ≤ length row.old }
    ensures { IsFilledFrom (ellipse_at line edge) from to row.old row.new }
{
    for k in from..to {
        row[k as usize] = cover_of(edge.feather, far_at(line, edge, k), edge.rim, edge.guess);
    }
}

// Some pixels, all at once where it is seen that they are alike.
fn fill_block(line: Line, edge: Edge, from: u32, to: u32, row: &mut [u32])
    requires line { IsSmallLine line }
    requires edge { IsEdge edge }
    requires order { from < to }
    requires small { to ≤ 16384 }
    requires end { to ≤ length row.old }
    ensures { IsFilledFrom (ellipse_at line edge) from to row.old row.new }
{
    if stays_inside(line, edge, from, to) {
        fill(FULL_COVER, from, to, row);
    } else if leads_away(line, edge, from) || comes_near(line, edge, to) {
        fill(0, from, to, row);
    } else {
        fill_each(line, edge, from, to, row);
    }
}

/// The first `n` pixels of the line.
pub(crate) fn fill_ellipse(line: Line, edge: Edge, n: u32, row: &mut [u32])
    requires line { IsSmallLine line }
    requires edge { IsEdge edge }
    requires small { n ≤ 16384 }
    requires end { n ≤ length row.old }
    ensures { IsFilled (ellipse_at line edge) n row.new }
{
    let mut from = 0;
    while from < n {
        let to = (from + BLOCK).min(n);
        fill_block(line, edge, from, to, row);
        from = to;
    }
}
