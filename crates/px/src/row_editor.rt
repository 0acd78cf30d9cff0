//! What changes rows in place: closures of a pixel.
ghost use Rattle.std.specs.Prelude.{◌≡◌, ℕ, ◌+◌, ◌*◌, ◌<◌, ◌≤◌, List, length, slice_index};
ghost use Rattle.px.specs.Repainted.{three_at, IsEditedRow};

/// What changes the rows of an RGB plane in place: a closure of a pixel, or a kernel that goes along a
/// row.
pub trait RowEditor {
    /// The pixels, by column, row and their red, green and blue, that may be asked for.
    ghost asks: { Self → ℕ → ℕ → List ℕ → Type 0 };

    /// The values that such a pixel may get.
    ghost gives: { Self → ℕ → ℕ → List ℕ → List ℕ → Type 0 };

    /// Changes `n` pixels of row `y`, from column `x` on.
    fn edit_row(&self, x: u32, y: u32, n: u32, row: &mut [u32])
        requires asks { (k : ℕ) → k < n → asks self.now (x + k) y (three_at row.old (k * 3)) }
        requires gives { (k : ℕ) (r : List ℕ) → k < n → gives self.now (x + k) y (three_at row.old (k * 3)) r → (i : ℕ) → slice_index r i ≤ 1048575 }
        requires fits { x + n ≤ 16384 }
        requires len { length row.old ≡ n * 3 }
        requires top { (i : ℕ) → slice_index row.old i ≤ 1048575 }
        ensures row { IsEditedRow (gives self.now) x y n row.old row.new };
}

/// Changes pixels by a closure that gives red, green and blue of one from its old ones.
pub(crate) struct ByChange<'a, F> {
    pub(crate) change: &'a F,
}

impl<F> Drop for ByChange<'_, F> {
    fn drop(self) {
        let Self { change: _ } = self;
    }
}

impl<F: Fn(u32, u32, [u32; 3]) -> [u32; 3]> RowEditor for ByChange<'_, F> {
    ghost asks = { λ e x y old. F.pre e.change.now x y old };

    ghost gives = { λ e x y old r. F.post e.change.now x y old r };

    fn edit_row(&self, x: u32, y: u32, n: u32, row: &mut [u32]) {
        let change = self.change;
        for k in 0..n {
            let at = k as usize * 3;
            let pixel = change(x + k, y, [row[at], row[at + 1], row[at + 2]]);
            row[at] = pixel[0];
            row[at + 1] = pixel[1];
            row[at + 2] = pixel[2];
        }
    }
}
