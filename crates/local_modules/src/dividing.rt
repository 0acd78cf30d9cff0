//! Means of many sums of one number of values.
ghost use Rattle.std.specs.Prelude.{◌≡◌, ◌+◌, ◌*◌, ◌/◌, ◌<◌, ◌≤◌};
ghost use Rattle.local_modules.specs.Running.{IsDivisor};

// How many values sums have, and how many times that goes into `2^64 - 1`: so a mean is a product and a shift,
// and no division.
#[derive(Clone, Copy)]
pub(crate) struct Divisor {
    n: u64,
    inverse: u64,
}

impl Divisor {
    // The divisor `n`.
    #[inline(always)]
    pub(crate) fn of(n: u64) -> Divisor
        requires some { 0 < n }
        requires few { n ≤ 4194304 }
        ensures n { result.n ≡ n }
        ensures divisor { IsDivisor result.n result.inverse }
    {
        Divisor {
            n,
            inverse: u64::MAX / n,
        }
    }

    // The divisor `n`, which mostly is this one.
    #[inline(always)]
    pub(crate) fn or_of(self, n: u64) -> Divisor
        requires divisor { IsDivisor self.n self.inverse }
        requires some { 0 < n }
        requires few { n ≤ 4194304 }
        ensures n { result.n ≡ n }
        ensures divisor { IsDivisor result.n result.inverse }
    {
        if n == self.n {
            return self;
        }
        Divisor::of(n)
    }

    // The mean of a sum of so many values.
    #[inline(always)]
    pub(crate) fn mean(self, sum: u64) -> u32
        requires divisor { IsDivisor self.n self.inverse }
        requires small { sum ≤ self.n * 1048575 }
        ensures mean { result ≡ sum / self.n }
        ensures top { result ≤ 1048575 }
    {
        let product = u128::from(sum + 1) * u128::from(self.inverse);
        (product >> 64) as u32
    }
}
