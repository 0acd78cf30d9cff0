//! Windows that run along a row.
ghost use Rattle.std.specs.Prelude.{◌≡◌, ℕ, ◌+◌, ◌*◌, ◌<◌, ◌≤◌, slice_index, length};
ghost use Rattle.local_modules.specs.Running.{between, channel};

// From the sum of the places `a` up to `b` to that of the places `c` up to `d`.
#[inline(always)]
pub(crate) fn slide(sums: &[u32], k: usize, a: u32, b: u32, c: u32, d: u32, sum: u64) -> u64
    requires first { a ≤ c }
    requires middle { c ≤ b }
    requires last { b ≤ d }
    requires short { d ≤ 16384 }
    requires channel { k < 3 }
    requires end { d * 3 ≤ length sums.now }
    requires was { sum ≡ between (channel sums.now k) a b }
    ensures { result ≡ between (channel sums.now k) c d }
{
    let mut now = sum;
    for j in a..c {
        now -= u64::from(sums[j as usize * 3 + k]);
    }
    for j in b..d {
        now += u64::from(sums[j as usize * 3 + k]);
    }
    now
}

// The same, by at most one place at each end.
#[inline(always)]
pub(crate) fn step(sums: &[u32], k: usize, a: u32, b: u32, c: u32, d: u32, sum: u64) -> u64
    requires first { a ≤ c }
    requires one { c ≤ a + 1 }
    requires middle { c ≤ b }
    requires last { b ≤ d }
    requires other { d ≤ b + 1 }
    requires short { d ≤ 16384 }
    requires channel { k < 3 }
    requires end { d * 3 ≤ length sums.now }
    requires was { sum ≡ between (channel sums.now k) a b }
    ensures { result ≡ between (channel sums.now k) c d }
{
    let kept = drop_first(sums, k, a, b, c, sum);
    take_last(sums, k, c, b, d, kept)
}

// Without the place `a`, where `c` is behind it.
#[inline(always)]
fn drop_first(sums: &[u32], k: usize, a: u32, b: u32, c: u32, sum: u64) -> u64
    requires first { a ≤ c }
    requires one { c ≤ a + 1 }
    requires middle { c ≤ b }
    requires short { b ≤ 16384 }
    requires channel { k < 3 }
    requires end { b * 3 ≤ length sums.now }
    requires was { sum ≡ between (channel sums.now k) a b }
    ensures { result ≡ between (channel sums.now k) c b }
{
    if a == c {
        return sum;
    }
    sum - u64::from(sums[a as usize * 3 + k])
}

// With the place `b`, where `d` is behind it.
#[inline(always)]
fn take_last(sums: &[u32], k: usize, c: u32, b: u32, d: u32, sum: u64) -> u64
    requires middle { c ≤ b }
    requires last { b ≤ d }
    requires other { d ≤ b + 1 }
    requires short { d ≤ 16384 }
    requires channel { k < 3 }
    requires end { d * 3 ≤ length sums.now }
    requires was { sum ≡ between (channel sums.now k) c b }
    ensures { result ≡ between (channel sums.now k) c d }
{
    if b == d {
        return sum;
    }
    sum + u64::from(sums[b as usize * 3 + k])
}
