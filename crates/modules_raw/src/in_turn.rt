//! Rows whose values are changed by two changes in turn, or by three.
ghost use Rattle.std.specs.Prelude.{◌≡◌, ℕ, ◌*◌, ◌%◌, ◌≤◌, length, slice_index};
ghost use Rattle.modules_raw.specs.Mapped.{AreChanged, IsInTurn, second_in, third_in};

/// What changes the values of one channel.
pub(crate) trait ValueMap {
    /// What has to hold of it.
    ghost allows: { Self → Type 0 };

    /// What becomes of a value.
    ghost makes: { Self → ℕ → ℕ };

    /// Changes a value (0 to `TOP`).
    fn change(&self, value: u32) -> u32
        requires allows { allows self.now }
        requires top { value ≤ 1048575 }
        ensures value { result ≡ makes self.now value }
        ensures top { result ≤ 1048575 };
}

// Changes values in pairs.
fn whole_pairs<C: ValueMap>(first: &C, second: &C, n: usize, from: &[u32], row: &mut [u32])
    requires first { C.allows first.now }
    requires second { C.allows second.now }
    requires fits { n * 2 ≤ length from.now }
    requires len { length from.now ≡ length row.old }
    requires top { (i : ℕ) → slice_index from.now i ≤ 1048575 }
    ensures { AreChanged 2 n (second_in (C.makes first.now) (C.makes second.now)) from.now row.new }
{
    for k in 0..n {
        let at = k * 2;
        let one = first.change(from[at]);
        let two = second.change(from[at + 1]);
        row[at] = one;
        row[at + 1] = two;
    }
}

/// Changes values by two changes in turn.
pub(crate) fn map_pairs<C: ValueMap>(first: &C, second: &C, from: &[u32], row: &mut [u32])
    requires first { C.allows first.now }
    requires second { C.allows second.now }
    requires len { length from.now ≡ length row.old }
    requires top { (i : ℕ) → slice_index from.now i ≤ 1048575 }
    ensures { IsInTurn 2 (second_in (C.makes first.now) (C.makes second.now)) from.now row.new }
{
    let n = from.len();
    whole_pairs(first, second, n / 2, from, row);
    if n % 2 == 1 {
        row[n - 1] = first.change(from[n - 1]);
    }
}

// Changes values in threes.
fn whole_threes<C: ValueMap>(
    first: &C,
    second: &C,
    third: &C,
    n: usize,
    from: &[u32],
    row: &mut [u32],
)
    requires first { C.allows first.now }
    requires second { C.allows second.now }
    requires third { C.allows third.now }
    requires fits { n * 3 ≤ length from.now }
    requires len { length from.now ≡ length row.old }
    requires top { (i : ℕ) → slice_index from.now i ≤ 1048575 }
    ensures { AreChanged 3 n (third_in (C.makes first.now) (C.makes second.now) (C.makes third.now)) from.now row.new }
{
    for k in 0..n {
        let at = k * 3;
        let one = first.change(from[at]);
        let two = second.change(from[at + 1]);
        let three = third.change(from[at + 2]);
        row[at] = one;
        row[at + 1] = two;
        row[at + 2] = three;
    }
}

/// Changes values by three changes in turn.
pub(crate) fn map_threes<C: ValueMap>(
    first: &C,
    second: &C,
    third: &C,
    from: &[u32],
    row: &mut [u32],
)
    requires first { C.allows first.now }
    requires second { C.allows second.now }
    requires third { C.allows third.now }
    requires pixels { length from.now % 3 ≡ 0 }
    requires len { length from.now ≡ length row.old }
    requires top { (i : ℕ) → slice_index from.now i ≤ 1048575 }
    ensures { IsInTurn 3 (third_in (C.makes first.now) (C.makes second.now) (C.makes third.now)) from.now row.new }
{
    whole_threes(first, second, third, from.len() / 3, from, row);
}
