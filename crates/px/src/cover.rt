ghost use Rattle.std.specs.Prelude.{◌≡◌, ℕ, ◌+◌, ◌-◌, ◌*◌, ◌<◌, ◌≤◌, length, slice_index};
ghost use Rattle.px.specs.Area.{HasPixel};
ghost use Rattle.px.specs.Cover.{IsCover, cover_at};

use crate::Region;
use std::marker::Model;

/// How far a mask covers each pixel of a region, row by row: 0 where the pixel is left out, to
/// `FULL_COVER` where it is covered whole.
#[derive(Debug, Drop)]
pub struct Cover {
    region: Region,
    values: Vec<u32>,
}

impl Model for Cover {
    ghost use Rattle.px.specs.Cover.{CoverSeen, IsCover};

    ghost Value = { CoverSeen };

    ghost view = { λ c. record { area = c.region; values = c.values.items } };

    ghost invariant = { λ c. IsCover (record { area = c.region; values = c.values.items }) };
}

impl Cover {
    /// A cover of these values. Takes no memory.
    pub fn from_rows(region: Region, values: Vec<u32>) -> Cover
        requires { IsCover (record { area = region; values = values.items }) }
        ensures { result ≡ record { area = region; values = values.items } }
    {
        Cover { region, values }
    }

    /// The region whose pixels are covered.
    pub fn region(&self) -> Region
        ensures region { result ≡ self.now.area }
        ensures valid { IsCover self.now }
    {
        self.region
    }

    /// All values, row by row.
    pub fn values(&self) -> &[u32]
        ensures values { result.now ≡ self.now.values }
        ensures valid { IsCover self.now }
    {
        self.values.as_slice()
    }

    // Where the value of the pixel in column `x` and row `y` stands.
    fn place(&self, x: u32, y: u32) -> usize
        requires pixel { HasPixel self.now.area x y }
        ensures place { result ≡ (y - self.now.area.y) * self.now.area.w + (x - self.now.area.x) }
        ensures within { result < length self.now.values }
    {
        (y - self.region.y) as usize * self.region.w as usize + (x - self.region.x) as usize
    }

    /// How far `n` pixels of row `y` are covered, from column `x` on.
    pub fn row(&self, x: u32, y: u32, n: u32) -> &[u32]
        requires first { HasPixel self.now.area x y }
        requires last { x + n ≤ self.now.area.x + self.now.area.w }
        ensures values { (k : ℕ) → k < n → slice_index result.now k ≡ cover_at self.now (x + k) y }
        ensures len { length result.now ≡ n }
        ensures top { (i : ℕ) → slice_index result.now i ≤ 65536 }
    {
        let values = self.values();
        let from = self.place(x, y);
        &values[from..from + n as usize]
    }

    /// How far the pixel in column `x` and row `y` of the whole picture is covered.
    pub fn at(&self, x: u32, y: u32) -> u32
        requires pixel { HasPixel self.now.area x y }
        ensures value { result ≡ cover_at self.now x y }
        ensures top { result ≤ 65536 }
    {
        let at = self.place(x, y);
        self.values[at]
    }
}
