ghost use Rattle.std.specs.Prelude.{◌≡◌, ℤ, pos, ◌+ℤ◌, ◌*ℤ◌, ◌^◌, ◌<◌, ◌≤◌, unsigned_abs};
ghost use Rattle.px.specs.Number.{floor_div, clamp};

use crate::TOP;

/// `floor(a * b / 2^shift)`: the product at a scale, rounded towards minus infinity. Both factors are
/// below 2^31 in absolute value, so the product fits.
pub fn mul_floor(a: i64, b: i64, shift: u32) -> i64
    requires left { unsigned_abs a < 2 ^ 31 }
    requires right { unsigned_abs b < 2 ^ 31 }
    requires scale { shift ≤ 31 }
    ensures { result ≡ floor_div (a *ℤ b) (2 ^ shift) }
{
    (a * b) >> shift
}

// `floor(v / 2^shift)`.
#[inline(always)]
fn shift_floor(v: i32, shift: u32) -> i32
    requires { shift ≤ 31 }
    ensures value { result ≡ floor_div v (2 ^ shift) }
    ensures small { unsigned_abs result ≤ unsigned_abs v }
{
    v >> shift
}

/// `floor((high * 256 + low) / 2^shift)`, rounded towards minus infinity: a product, or a sum of
/// products, of which `high` is made of the factors' upper parts (`v >> 8`) and `low` of the lower ones
/// (`v & 255`). It stays within 32 bits, so a loop over it can work on many values at a time.
#[inline(always)]
pub fn join_floor(high: i32, low: i32, shift: u32) -> i32
    requires upper { unsigned_abs high < 2 ^ 30 }
    requires lower { unsigned_abs low < 2 ^ 30 }
    requires least { 8 ≤ shift }
    requires most { shift ≤ 31 }
    ensures { result ≡ floor_div (high *ℤ pos 256 +ℤ low) (2 ^ shift) }
{
    shift_floor(high + shift_floor(low, 8), shift - 8)
}

// A product that stays below 2^30.
#[inline(always)]
fn product(a: i32, b: u32) -> i32
    requires left { unsigned_abs a ≤ 2097152 }
    requires right { b ≤ 256 }
    ensures product { result ≡ a *ℤ pos b }
    ensures small { unsigned_abs result ≤ 536870912 }
{
    a * b as i32
}

/// `floor(a * b / 2^shift)`, rounded towards minus infinity, within 32 bits: the same as `mul_floor` for
/// factors as small as the difference of two samples and a gain up to 16.
#[inline(always)]
pub fn scale_floor(a: i32, b: u32, shift: u32) -> i32
    requires left { unsigned_abs a ≤ 2097152 }
    requires right { b ≤ 65536 }
    requires least { 8 ≤ shift }
    requires most { shift ≤ 31 }
    ensures { result ≡ floor_div (a *ℤ pos b) (2 ^ shift) }
{
    join_floor(product(a, b / 256), product(a, b % 256), shift)
}

// How many times 4,096 goes into a number, rounded towards minus infinity.
#[inline(always)]
fn upper_part(v: i32) -> i32
    requires { unsigned_abs v ≤ 67108864 }
    ensures value { result ≡ floor_div v 4096 }
    ensures small { unsigned_abs result ≤ 16384 }
{
    v >> 12
}

// What is over then.
#[inline(always)]
fn lower_part(v: i32, upper: i32) -> i32
    requires small { unsigned_abs v ≤ 67108864 }
    requires upper { upper ≡ floor_div v 4096 }
    ensures value { v ≡ upper *ℤ pos 4096 +ℤ result }
    ensures small { unsigned_abs result ≤ 4095 }
{
    v - upper * 4096
}

// So many times a number's upper part.
#[inline(always)]
fn times_upper(part: u32, upper: i32) -> i32
    requires part { part ≤ 65536 }
    requires small { unsigned_abs upper ≤ 16384 }
    ensures product { result ≡ pos part *ℤ upper }
    ensures small { unsigned_abs result ≤ 1073741824 }
{
    part as i32 * upper
}

// So many times its lower part.
#[inline(always)]
fn times_lower(part: u32, lower: i32) -> i32
    requires part { part ≤ 65536 }
    requires small { unsigned_abs lower ≤ 4095 }
    ensures product { result ≡ pos part *ℤ lower }
    ensures small { unsigned_abs result ≤ 268369920 }
{
    part as i32 * lower
}

/// `floor(part * v / 65536)`, rounded towards minus infinity, within 32 bits: so many 65,536ths of a
/// number that may be some sixty times as large as a sample.
#[inline(always)]
pub fn part_floor(part: u32, v: i32) -> i32
    requires part { part ≤ 65536 }
    requires number { unsigned_abs v ≤ 67108864 }
    ensures value { result ≡ floor_div (pos part *ℤ v) 65536 }
    ensures small { unsigned_abs result ≤ 1342111744 }
{
    let upper = upper_part(v);
    let high = times_upper(part, upper);
    let low = times_lower(part, lower_part(v, upper));
    shift_floor(high + shift_floor(low, 12), 4)
}

/// The nearest value of a sample: at least 0 and at most `TOP`.
pub fn clamp_top(v: i64) -> u32
    ensures { result ≡ clamp v }
{
    v.clamp(0, i64::from(TOP)) as u32
}

/// The same of a number of 32 bits.
#[inline(always)]
pub fn clamp_small(v: i32) -> u32
    ensures { result ≡ clamp v }
{
    v.clamp(0, TOP as i32) as u32
}
