//! Ellipses.
ghost use Rattle.std.specs.Prelude.{◌≡◌, ◌+◌, ◌*◌, ◌/◌, ◌^◌, ◌<◌, ◌≤◌, unsigned_abs};
ghost use Rattle.masks.specs.Coverage.{faded, far_out, rim, squared};
ghost use Rattle.masks.specs.Ranges.{IsDirection};

use crate::guess::{Guess, quotient};
use px::FULL_COVER;

// A square of a distance.
fn squared(v: i64) -> u128
    requires { unsigned_abs v ≤ 34359738368 }
    ensures value { result ≡ squared v }
    ensures small { result ≤ 2 ^ 70 }
{
    let size = u128::from(v.unsigned_abs());
    size * size
}

// The square of a half axis.
fn axis(a: u32) -> u128
    requires { a ≤ 65536 }
    ensures value { result ≡ a * a }
    ensures small { result ≤ 2 ^ 32 }
{
    u128::from(a) * u128::from(a)
}

// A square of a distance, weighed by the square of a half axis.
fn weighed(square: u128, axis: u128) -> u128
    requires square { square ≤ 2 ^ 70 }
    requires axis { axis ≤ 2 ^ 32 }
    ensures value { result ≡ square * axis }
    ensures small { result ≤ 2 ^ 102 }
{
    square * axis
}

/// How far a distance `p` along the axis and `q` across it is out, by the squares.
pub(crate) fn far_out(p: i64, q: i64, a: u32, b: u32) -> u128
    requires p { unsigned_abs p ≤ 34359738368 }
    requires q { unsigned_abs q ≤ 34359738368 }
    requires a { a ≤ 65536 }
    requires b { b ≤ 65536 }
    ensures value { result ≡ far_out p q a b }
    ensures small { result ≤ 2 ^ 103 }
{
    weighed(squared(p), axis(b)) + weighed(squared(q), axis(a))
}

// The square of a direction's length.
fn length_squared(ux: i32, uy: i32) -> u128
    requires direction { IsDirection ux uy }
    ensures value { result ≡ squared ux + squared uy }
    ensures small { result ≤ 2 ^ 21 }
    ensures some { 0 < result }
{
    squared(i64::from(ux)) + squared(i64::from(uy))
}

/// What `far_out` is at the ellipse itself.
pub(crate) fn rim(ux: i32, uy: i32, a: u32, b: u32) -> u128
    requires direction { IsDirection ux uy }
    requires a_some { 0 < a }
    requires a { a ≤ 65536 }
    requires b_some { 0 < b }
    requires b { b ≤ 65536 }
    ensures value { result ≡ rim ux uy a b }
    ensures small { result ≤ 2 ^ 85 }
    ensures some { 0 < result }
{
    length_squared(ux, uy) * axis(a) * axis(b)
}

// Full cover up to 65,536, none from 65,536 and the feather on, and in between less and less.
fn faded(feather: u32, e: u32) -> u32
    requires some { 0 < feather }
    requires feather { feather ≤ 65536 }
    requires out { 65536 < e }
    requires within { e < 65536 + feather }
    ensures value { result ≡ faded feather e }
    ensures top { result ≤ 65536 }
{
    FULL_COVER * (FULL_COVER + feather - e) / feather
}

/// How far an ellipse covers a pixel: by `e = floor(65536 * far / rim)`, which is worked out in the
/// feather alone.
pub(crate) fn cover_of(feather: u32, far: u128, rim: u128, guess: Guess) -> u32
    requires some { 0 < feather }
    requires feather { feather ≤ 65536 }
    requires far { far ≤ 2 ^ 103 }
    requires rim { rim ≤ 2 ^ 85 }
    requires rim_some { 0 < rim }
    requires shift { guess.shift < 128 }
    ensures value { result ≡ faded feather (65536 * far / rim) }
    ensures top { result ≤ 65536 }
{
    let scaled = far * 65_536;
    if scaled < rim * 65_537 {
        return FULL_COVER;
    }
    if scaled >= rim * u128::from(FULL_COVER + feather) {
        return 0;
    }
    faded(feather, quotient(guess, scaled, rim))
}
