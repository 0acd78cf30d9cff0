//! How far the result goes from the input's values to what a mode makes.
ghost use Rattle.std.specs.Prelude.{◌≡◌, ℕ, ◌*◌, ◌<◌, ◌≤◌, length, slice_index};
ghost use Rattle.blend.specs.Blending.{alpha, moved};
ghost use Rattle.blend.specs.Rows.{AreParts};

use crate::modes::*;
use params::Mode;
use px::{clamp_small, part_floor};

// How much the result goes from the input to what the mode makes, in 1/65,536.
#[inline(always)]
fn alpha(opacity: u32, coverage: u32) -> u32
    requires opacity { opacity ≤ 65536 }
    requires coverage { coverage ≤ 65536 }
    ensures value { result ≡ alpha opacity coverage }
    ensures small { result ≤ 65536 }
{
    (u64::from(opacity) * u64::from(coverage) / 65_536) as u32
}

/// How far the values of pixels go, each pixel as it is covered, three times in a row.
pub(crate) fn parts_of(opacity: u32, cover: &[u32], parts: &mut [u32])
    requires opacity { opacity ≤ 65536 }
    requires cover { (k : ℕ) → slice_index cover.now k ≤ 65536 }
    requires len { length parts.old ≡ length cover.now * 3 }
    ensures { AreParts opacity (slice_index cover.now) (length cover.now) parts.new }
{
    for k in 0..cover.len() {
        let part = alpha(opacity, cover[k]);
        let at = k * 3;
        parts[at] = part;
        parts[at + 1] = part;
        parts[at + 2] = part;
    }
}

// `clamp(i + floor(part * (B - i) / 65536))`, where the mode makes B of the input's value `i` and the
// output's value `m`.
#[inline(always)]
fn moved<L: Lays>(part: u32, i: u32, m: u32) -> u32
    requires part { part ≤ 65536 }
    requires input { i ≤ 1048575 }
    requires output { m ≤ 1048575 }
    ensures { result ≡ moved L.mode part i m }
{
    let base = i as i32;
    clamp_small(base + part_floor(part, L::lay(i, m) - base))
}

// The values of a row of the output laid over those of the input by one mode.
fn lay_by<L: Lays>(parts: &[u32], from: &[u32], row: &mut [u32])
    requires parts { (k : ℕ) → k < length row.old → slice_index parts.now k ≤ 65536 }
    requires input { (k : ℕ) → slice_index from.now k ≤ 1048575 }
    requires output { (k : ℕ) → slice_index row.old k ≤ 1048575 }
    requires parts_len { length parts.now ≡ length row.old }
    requires input_len { length from.now ≡ length row.old }
    ensures { (k : ℕ) → k < length row.old → slice_index row.new k ≡ moved L.mode (slice_index parts.now k) (slice_index from.now k) (slice_index row.old k) }
{
    for k in 0..row.len() {
        row[k] = moved::<L>(parts[k], from[k], row[k]);
    }
}

/// The values of a row of the output laid over those of the input, each so far as its part says.
pub(crate) fn lay(mode: Mode, parts: &[u32], from: &[u32], row: &mut [u32])
    requires parts { (k : ℕ) → k < length row.old → slice_index parts.now k ≤ 65536 }
    requires input { (k : ℕ) → slice_index from.now k ≤ 1048575 }
    requires output { (k : ℕ) → slice_index row.old k ≤ 1048575 }
    requires parts_len { length parts.now ≡ length row.old }
    requires input_len { length from.now ≡ length row.old }
    ensures { (k : ℕ) → k < length row.old → slice_index row.new k ≡ moved mode (slice_index parts.now k) (slice_index from.now k) (slice_index row.old k) }
{
    match mode {
        Mode::Normal => lay_by::<Normal>(parts, from, row),
        Mode::Multiply => lay_by::<Multiply>(parts, from, row),
        Mode::Screen => lay_by::<Screen>(parts, from, row),
        Mode::Lighten => lay_by::<Lighten>(parts, from, row),
        Mode::Darken => lay_by::<Darken>(parts, from, row),
        Mode::Add => lay_by::<Add>(parts, from, row),
        Mode::Subtract => lay_by::<Subtract>(parts, from, row),
        Mode::Difference => lay_by::<Difference>(parts, from, row),
        Mode::Average => lay_by::<Average>(parts, from, row),
    }
}
