//! What changes each value by its colour alone.
ghost use Rattle.std.specs.Prelude.{◌≡◌, ℕ, ◌%◌, ◌<◌, ◌≤◌, length, slice_index};
ghost use Rattle.modules_raw.specs.Mapped.{IsInTurn, second_in};

/// A module's settings, as a change of the values of each channel: 0 (red), 1 (green) and 2 (blue).
pub(crate) trait ChannelMap {
    /// What has to hold of the settings.
    ghost allows: { Self → Type 0 };

    /// What becomes of a value of a channel.
    ghost makes: { Self → ℕ → ℕ → ℕ };

    /// Changes values (0 to `TOP`) of two channels in turn, as those of a mosaic's row.
    fn change_pairs(&self, first: u32, second: u32, from: &[u32], row: &mut [u32])
        requires allows { allows self.now }
        requires first { first < 3 }
        requires second { second < 3 }
        requires len { length from.now ≡ length row.old }
        requires top { (i : ℕ) → slice_index from.now i ≤ 1048575 }
        ensures { IsInTurn 2 (second_in (makes self.now first) (makes self.now second)) from.now row.new };

    /// Changes values of red, green and blue in turn, as those of an RGB row.
    fn change_threes(&self, from: &[u32], row: &mut [u32])
        requires allows { allows self.now }
        requires pixels { length from.now % 3 ≡ 0 }
        requires len { length from.now ≡ length row.old }
        requires top { (i : ℕ) → slice_index from.now i ≤ 1048575 }
        ensures { IsInTurn 3 (makes self.now) from.now row.new };
}
