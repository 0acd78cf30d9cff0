ghost use Rattle.std.specs.Prelude.{◌≡◌, ℕ, ◌+◌, ◌*◌, ◌<◌, ◌≤◌, List, [], ◌∷◌, length, slice_index};
ghost use Rattle.px.specs.declared.kind.PlaneKind.TheVariants.{Mosaic, Rgb};
ghost use Rattle.px.specs.Area.{IsIn, HasPixel};
ghost use Rattle.px.specs.Cut.{Cut, IsPlane, place, rgb_at, value_at};
ghost use Rattle.px.specs.Kind.{channels};

use crate::{PlaneKind, Region};
use std::marker::Model;

/// The values of one region of a picture: its kind, the whole picture's sides (1 to `SIDE` each, of a
/// mosaic 2 to `SIDE`), the region, and for each of its pixels, row by row, one value (mosaic) or three (RGB), each 0 to `TOP`.
#[derive(Debug, Drop)]
pub struct Plane {
    kind: PlaneKind,
    w: u32,
    h: u32,
    region: Region,
    values: Vec<u32>,
}

impl Model for Plane {
    ghost use Rattle.px.specs.Cut.{Cut, IsPlane};

    ghost Value = { Cut };

    ghost use Rattle.px.specs.PlaneFields.{cut_of};

    ghost view = { cut_of };

    ghost invariant = { λ p. IsPlane (cut_of p) };
}

impl Plane {
    /// A plane of these values. Takes no memory.
    pub fn from_rows(kind: PlaneKind, w: u32, h: u32, region: Region, values: Vec<u32>) -> Plane
        requires { IsPlane (record { kind = kind; w = w; h = h; area = region; values = values.items }) }
        ensures { result ≡ record { kind = kind; w = w; h = h; area = region; values = values.items } }
    {
        Plane {
            kind,
            w,
            h,
            region,
            values,
        }
    }

    pub fn kind(&self) -> PlaneKind
        ensures { result ≡ self.now.kind }
    {
        self.kind
    }

    /// The sides of the whole picture: columns, then rows.
    pub fn sides(&self) -> (u32, u32)
        ensures sides { result ≡ (self.now.w, self.now.h) }
        ensures valid { IsPlane self.now }
    {
        (self.w, self.h)
    }

    /// The region of the picture that the plane holds.
    pub fn region(&self) -> Region
        ensures region { result ≡ self.now.area }
        ensures valid { IsPlane self.now }
    {
        self.region
    }

    /// All values, row by row.
    pub fn values(&self) -> &[u32]
        ensures values { result.now ≡ self.now.values }
        ensures valid { IsPlane self.now }
    {
        self.values.as_slice()
    }

    /// The values, row by row, in place of the plane. Takes no memory.
    pub fn into_values(self) -> Vec<u32>
        ensures values { result.items ≡ self.values }
        ensures valid { IsPlane self }
    {
        self.values
    }

    // Where the values of the pixel in column `x` and row `y` begin, at so many values a pixel.
    fn place(&self, x: u32, y: u32, size: usize) -> usize
        requires size { size ≡ channels self.now.kind }
        requires pixel { HasPixel self.now.area x y }
        ensures place { result ≡ place self.now x y }
        ensures end { result + channels self.now.kind ≤ length self.now.values }
    {
        ((y - self.region.y) as usize * self.region.w as usize + (x - self.region.x) as usize)
            * size
    }

    /// The values of `n` pixels of row `y`, from column `x` on.
    pub fn row(&self, x: u32, y: u32, n: u32) -> &[u32]
        requires first { HasPixel self.now.area x y }
        requires last { x + n ≤ self.now.area.x + self.now.area.w }
        ensures values { (i : ℕ) → i < n * channels self.now.kind → slice_index result.now i ≡ slice_index self.now.values (place self.now x y + i) }
        ensures len { length result.now ≡ n * channels self.now.kind }
        ensures top { (i : ℕ) → slice_index result.now i ≤ 1048575 }
    {
        let size = self.kind().channels();
        let values = self.values();
        let from = self.place(x, y, size);
        let to = from + n as usize * size;
        &values[from..to]
    }

    /// The value of a mosaic's pixel in column `x` and row `y` of the whole picture.
    pub fn raw(&self, x: u32, y: u32) -> u32
        requires mosaic { channels self.now.kind ≡ 1 }
        requires pixel { HasPixel self.now.area x y }
        ensures value { result ≡ value_at self.now x y 0 }
        ensures top { result ≤ 1048575 }
    {
        let at = self.place(x, y, 1);
        self.values[at]
    }

    /// Red, green and blue of the pixel in column `x` and row `y` of the whole picture.
    pub fn rgb(&self, x: u32, y: u32) -> [u32; 3]
        requires rgb { self.now.kind ≡ Rgb }
        requires pixel { HasPixel self.now.area x y }
        ensures pixel { result ≡ rgb_at self.now x y }
        ensures top { (i : ℕ) → slice_index result i ≤ 1048575 }
    {
        let at = self.place(x, y, 3);
        [self.values[at], self.values[at + 1], self.values[at + 2]]
    }
}
