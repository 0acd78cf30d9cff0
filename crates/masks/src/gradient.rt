//! Gradients.
ghost use Rattle.std.specs.Prelude.{◌≡◌, ◌≤◌, pos, ◌*ℤ◌, unsigned_abs, length};
ghost use Rattle.px.specs.Number.{floor_div};
ghost use Rattle.masks.specs.Coverage.{clamp_cover, risen};
ghost use Rattle.masks.specs.Lines.{along_at, IsFilled, IsSmallLine};

use crate::lines::Line;
use px::FULL_COVER;

// `floor(distance * slope / 65536)`.
fn rise(distance: i64, slope: u32) -> i64
    requires far { unsigned_abs distance ≤ 34359738368 }
    requires slope { slope ≤ 65536 }
    ensures value { result ≡ floor_div (distance *ℤ pos slope) 65536 }
    ensures small { unsigned_abs result ≤ 34359738368 }
{
    (distance * i64::from(slope)) >> 16
}

// The nearest value of a cover.
fn clamp_cover(v: i64) -> u32
    ensures { result ≡ clamp_cover v }
{
    v.clamp(0, i64::from(FULL_COVER)) as u32
}

/// How far a gradient covers a pixel at a distance along its direction:
/// `clamp(32768 + floor(distance * slope / 65536), 0, 65536)`.
pub(crate) fn risen(distance: i64, slope: u32) -> u32
    requires far { unsigned_abs distance ≤ 34359738368 }
    requires slope { slope ≤ 65536 }
    ensures value { result ≡ risen distance slope }
    ensures top { result ≤ 65536 }
{
    clamp_cover(32_768 + rise(distance, slope))
}

/// The first `n` pixels of the line.
pub(crate) fn fill_gradient(line: Line, slope: u32, n: u32, row: &mut [u32])
    requires line { IsSmallLine line }
    requires slope { slope ≤ 65536 }
    requires small { n ≤ 16384 }
    requires end { n ≤ length row.old }
    ensures { IsFilled (λ k. risen (along_at line k) slope) n row.new }
{
    for k in 0..n {
        row[k as usize] = risen(line.along_at(k), slope);
    }
}
