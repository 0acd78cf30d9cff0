ghost use Rattle.std.specs.Prelude.{◌≡◌, ◌<◌, ◌≤◌, slice_index, IfOk};
ghost use Rattle.params.specs.declared.settings.Params.TheVariants.{Temperature as temperature_params};
ghost use Rattle.params.specs.Ranges.{IsWithin};
ghost use Rattle.px.specs.Area.{Covers};
ghost use Rattle.px.specs.Cut.{IsCutOf};
ghost use Rattle.px.specs.Picture.{Picture};
ghost use Rattle.modules_raw.specs.Balancing.{balanced_picture};

use crate::channel_map::ChannelMap;
use crate::in_turn::{ValueMap, map_pairs, map_threes};
use crate::mapping::{map_in_turn, map_region};
use params::Temperature;
use px::{Plane, Region, clamp_small, scale_floor};
use std::alloc::{AllocError, Global};
use std::thread::Threads;

// The multiplier of one channel.
#[derive(Drop)]
struct Gain {
    mul: u32,
}

impl ValueMap for Gain {
    ghost use Rattle.modules_raw.specs.Balancing.{gained};

    ghost allows = { λ g. g.mul ≤ 32768 };

    ghost makes = { λ g v. gained g.mul v };

    #[inline(always)]
    fn change(&self, value: u32) -> u32 {
        clamp_small(scale_floor(value as i32, self.mul, 12))
    }
}

// The multiplier of a channel.
fn gain_of(params: &Temperature, channel: u32) -> Gain
    requires within { IsWithin (temperature_params params.now) }
    requires channel { channel < 3 }
    ensures mul { result.mul ≡ slice_index params.now.mul channel }
    ensures small { result.mul ≤ 32768 }
{
    let mul = params.mul[channel as usize];
    Gain { mul }
}

impl ChannelMap for Temperature {
    ghost use Rattle.params.specs.declared.settings.Params.TheVariants.{Temperature as temperature_params};
    ghost use Rattle.params.specs.Ranges.{IsWithin};
    ghost use Rattle.modules_raw.specs.Balancing.{balanced};

    ghost allows = { λ t. IsWithin (temperature_params t) };

    ghost makes = { λ t c v. balanced t c v };

    fn change_pairs(&self, first: u32, second: u32, from: &[u32], row: &mut [u32]) {
        map_pairs(&gain_of(self, first), &gain_of(self, second), from, row);
    }

    fn change_threes(&self, from: &[u32], row: &mut [u32]) {
        map_threes(
            &gain_of(self, 0),
            &gain_of(self, 1),
            &gain_of(self, 2),
            from,
            row,
        );
    }
}

/// White balance: `floor(v * mul / 4096)` and at most `TOP`, with the multiplier of the pixel's colour or
/// of the channel, over one region.
pub fn temperature<R: Threads + Sync>(
    rt: &R,
    alloc: Global,
    params: &Temperature,
    input: &Plane,
    region: Region,
) -> Result<Plane, AllocError>
    requires within { IsWithin (temperature_params params.now) }
    requires covers { Covers input.now.area region }
    ensures area { IfOk result (λ p. p.area ≡ region) }
    ensures cut { IfOk result (λ p. (q : Picture) → IsCutOf q input.now → IsCutOf (balanced_picture params.now q) p) }
{
    map_region(rt, alloc, params, input, region)
}

/// The same region, its rows one after another, as a band of a run makes it. A spare plane lends it its memory.
pub fn temperature_in_turn(
    alloc: Global,
    spare: Option<Plane>,
    params: &Temperature,
    input: &Plane,
    region: Region,
) -> Result<Plane, AllocError>
    requires within { IsWithin (temperature_params params.now) }
    requires covers { Covers input.now.area region }
    ensures area { IfOk result (λ p. p.area ≡ region) }
    ensures cut { IfOk result (λ p. (q : Picture) → IsCutOf q input.now → IsCutOf (balanced_picture params.now q) p) }
{
    map_in_turn(alloc, spare, params, input, region)
}
