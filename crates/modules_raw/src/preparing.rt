ghost use Rattle.std.specs.Prelude.{◌≡◌, ◌-◌, ◌*◌, ◌<◌, ◌≤◌, min, slice_index, IfOk};
ghost use Rattle.params.specs.declared.settings.Params.TheVariants.{RawPrepare as raw_params};
ghost use Rattle.params.specs.Ranges.{IsWithin};
ghost use Rattle.px.specs.Area.{Covers};
ghost use Rattle.px.specs.Cut.{IsCutOf};
ghost use Rattle.px.specs.Picture.{Picture};
ghost use Rattle.modules_raw.specs.Preparing.{prepared_picture, IsFactor};

use crate::channel_map::ChannelMap;
use crate::in_turn::{ValueMap, map_pairs, map_threes};
use crate::mapping::{map_in_turn, map_region};
use params::RawPrepare;
use px::{Plane, Region, TOP};
use std::alloc::{AllocError, Global};
use std::thread::Threads;

// The scale of one channel: its black, how far it is from there to white, and how many times 2^36 a value
// grows, rounded up. So a value is a product and a shift, and no division.
#[derive(Drop)]
struct Scale {
    black: u32,
    range: u32,
    factor: u64,
}

// How far a value is above black, as far as it matters: seventeen times as far as white is more than any
// sample.
#[inline(always)]
fn above(black: u32, range: u32, value: u32) -> u32
    requires range { range ≤ 65535 }
    ensures { result ≡ min (value - black) (17 * range) }
{
    value.saturating_sub(black).min(17 * range)
}

impl ValueMap for Scale {
    ghost use Rattle.modules_raw.specs.Preparing.{scaled, IsFactor};

    ghost allows = { λ s. IsFactor s.range s.factor };

    ghost makes = { λ s v. scaled s.range (v - s.black) };

    #[inline(always)]
    fn change(&self, value: u32) -> u32 {
        let far = u64::from(above(self.black, self.range, value));
        let grown = far * self.factor / 68_719_476_736;
        grown.min(u64::from(TOP)) as u32
    }
}

// The scale of a channel.
fn scale_of(params: &RawPrepare, channel: u32) -> Scale
    requires within { IsWithin (raw_params params.now) }
    requires channel { channel < 3 }
    ensures black { result.black ≡ slice_index params.now.black channel }
    ensures range { result.range ≡ params.now.white - slice_index params.now.black channel }
    ensures factor { IsFactor result.range result.factor }
{
    let black = params.black[channel as usize];
    let range = params.white - black;
    let factor = 65_535 * 68_719_476_736 / u64::from(range) + 1;
    Scale {
        black,
        range,
        factor,
    }
}

impl ChannelMap for RawPrepare {
    ghost use Rattle.params.specs.declared.settings.Params.TheVariants.{RawPrepare as raw_params};
    ghost use Rattle.params.specs.Ranges.{IsWithin};
    ghost use Rattle.modules_raw.specs.Preparing.{prepared};

    ghost allows = { λ r. IsWithin (raw_params r) };

    ghost makes = { λ r c v. prepared r c v };

    fn change_pairs(&self, first: u32, second: u32, from: &[u32], row: &mut [u32]) {
        map_pairs(&scale_of(self, first), &scale_of(self, second), from, row);
    }

    fn change_threes(&self, from: &[u32], row: &mut [u32]) {
        map_threes(
            &scale_of(self, 0),
            &scale_of(self, 1),
            &scale_of(self, 2),
            from,
            row,
        );
    }
}

/// Raw preparation: `floor(max(v - black, 0) * 65535 / (white - black))` and at most `TOP`, with the
/// black of the pixel's colour or of the channel, over one region.
pub fn raw_prepare<R: Threads + Sync>(
    rt: &R,
    alloc: Global,
    params: &RawPrepare,
    input: &Plane,
    region: Region,
) -> Result<Plane, AllocError>
    requires within { IsWithin (raw_params params.now) }
    requires covers { Covers input.now.area region }
    ensures area { IfOk result (λ p. p.area ≡ region) }
    ensures cut { IfOk result (λ p. (q : Picture) → IsCutOf q input.now → IsCutOf (prepared_picture params.now q) p) }
{
    map_region(rt, alloc, params, input, region)
}

/// The same region, its rows one after another, as a band of a run makes it. A spare plane lends it its memory.
pub fn raw_prepare_in_turn(
    alloc: Global,
    spare: Option<Plane>,
    params: &RawPrepare,
    input: &Plane,
    region: Region,
) -> Result<Plane, AllocError>
    requires within { IsWithin (raw_params params.now) }
    requires covers { Covers input.now.area region }
    ensures area { IfOk result (λ p. p.area ≡ region) }
    ensures cut { IfOk result (λ p. (q : Picture) → IsCutOf q input.now → IsCutOf (prepared_picture params.now q) p) }
{
    map_in_turn(alloc, spare, params, input, region)
}
