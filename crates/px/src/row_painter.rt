//! What fills rows: closures of a pixel.
ghost use Rattle.std.specs.Prelude.{◌≡◌, ℕ, ◌+◌, ◌*◌, ◌<◌, ◌≤◌, List, length, slice_index};
ghost use Rattle.px.specs.Painted.{IsRow, GivesOne};

/// What fills the rows of a plane: a closure of a pixel, or a kernel that goes along a row.
pub trait RowPainter {
    /// How many values a pixel has.
    ghost size: { Self → ℕ };

    /// The pixels, by column and row, that may be asked for.
    ghost asks: { Self → ℕ → ℕ → Type 0 };

    /// The values that a pixel may get.
    ghost gives: { Self → ℕ → ℕ → List ℕ → Type 0 };

    /// Writes `n` pixels of row `y`, from column `x` on.
    fn fill_row(&self, x: u32, y: u32, n: u32, row: &mut [u32])
        requires asks { (k : ℕ) → k < n → asks self.now (x + k) y }
        requires gives { (k : ℕ) (r : List ℕ) → k < n → gives self.now (x + k) y r → (i : ℕ) → slice_index r i ≤ 1048575 }
        requires fits { x + n ≤ 16384 }
        requires len { length row.old ≡ n * size self.now }
        requires top { (i : ℕ) → slice_index row.old i ≤ 1048575 }
        ensures row { IsRow (gives self.now) x y (size self.now) n row.new };
}

/// Paints by a closure that gives red, green and blue of a pixel.
#[derive(Drop)]
pub struct ByPixel<F> {
    pub pixel: F,
}

impl<F: Fn(u32, u32) -> [u32; 3]> RowPainter for ByPixel<F> {
    ghost size = { λ _. 3 };

    ghost asks = { λ p x y. F.pre p.pixel x y };

    ghost gives = { λ p x y r. F.post p.pixel x y r };

    fn fill_row(&self, x: u32, y: u32, n: u32, row: &mut [u32]) {
        for k in 0..n {
            let pixel = (self.pixel)(x + k, y);
            let at = k as usize * 3;
            row[at] = pixel[0];
            row[at + 1] = pixel[1];
            row[at + 2] = pixel[2];
        }
    }
}

/// Paints by a closure that gives the one value of a mosaic's pixel.
#[derive(Drop)]
pub struct ByValue<F> {
    pub value: F,
}

impl<F: Fn(u32, u32) -> u32> RowPainter for ByValue<F> {
    ghost use Rattle.std.specs.Prelude.{[], ◌∷◌};

    ghost size = { λ _. 1 };

    ghost asks = { λ p x y. F.pre p.value x y };

    ghost gives = { λ p x y r. GivesOne (F.post p.value x y) r };

    fn fill_row(&self, x: u32, y: u32, n: u32, row: &mut [u32]) {
        for k in 0..n {
            row[k as usize] = (self.value)(x + k, y);
        }
    }
}
