//! Quotients by one number, guessed by a product.
ghost use Rattle.std.specs.Prelude.{◌≡◌, ◌*◌, ◌/◌, ◌^◌, ◌<◌, ◌≤◌};

/// What quotients by a number are guessed by: how many of its last digits in binary don't matter, and how
/// many times 2^104 the others go into 1. Nothing rests on it but time: each guess is tried.
#[derive(Clone, Copy)]
pub(crate) struct Guess {
    pub(crate) shift: u32,
    pub(crate) factor: u64,
}

// 2^104.
const FINE: u128 = 20_282_409_603_651_670_423_947_251_286_016;

/// The guess of quotients by a number, of which the first 46 digits matter.
pub(crate) fn guess_of(divisor: u128) -> Guess
    ensures shift { result.shift < 128 }
{
    let shift = (128 - divisor.leading_zeros()).saturating_sub(46);
    let factor = FINE / (divisor >> shift).max(1);
    Guess {
        shift,
        factor: u64::try_from(factor).unwrap_or(0),
    }
}

// The quotient, or a number near it, or any number.
#[inline(always)]
fn guessed(guess: Guess, scaled: u128) -> u32
    requires shift { guess.shift < 128 }
    ensures small { result ≤ 16777216 }
{
    let first = u64::try_from(scaled >> guess.shift).unwrap_or(0);
    (u128::from(first) * u128::from(guess.factor) / FINE) as u32
}

/// `floor(scaled / divisor)`: a guess where it is right, and else the division.
#[inline(always)]
pub(crate) fn quotient(guess: Guess, scaled: u128, divisor: u128) -> u32
    requires shift { guess.shift < 128 }
    requires some { 0 < divisor }
    requires divisor { divisor ≤ 2 ^ 85 }
    requires small { scaled < divisor * 131072 }
    ensures { result ≡ scaled / divisor }
{
    let near = guessed(guess, scaled);
    let below = u128::from(near) * divisor;
    if below <= scaled && scaled - below < divisor {
        return near;
    }
    (scaled / divisor) as u32
}
