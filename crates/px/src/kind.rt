ghost use Rattle.std.specs.Prelude.{◌≡◌, ◌<◌};
ghost use Rattle.px.specs.Kind.{channels};
ghost use Rattle.px.specs.Mosaic.{channel, channel_at};

/// The colours of a pixel's channels, in their order.
#[derive(Clone, Copy, Debug, PartialEq, Eq)]
pub enum Colour {
    R,
    G,
    B,
}

impl Colour {
    /// Its place among red, green and blue: 0, 1 or 2.
    pub fn channel(self) -> u32
        ensures channel { result ≡ channel self }
        ensures few { result < 3 }
    {
        match self {
            Colour::R => 0,
            Colour::G => 1,
            Colour::B => 2,
        }
    }
}

/// A colour filter array: the colours of the pixels (0,0), (1,0), (0,1) and (1,1) of a mosaic, in this
/// order. It repeats with period 2 on both axes, from the picture's corner.
#[derive(Clone, Copy, Debug, PartialEq, Eq)]
pub enum Cfa {
    Rggb,
    Bggr,
    Grbg,
    Gbrg,
}

impl Cfa {
    /// The colour of the pixel in column `x` and row `y`.
    pub fn colour(self, x: u32, y: u32) -> Colour
        ensures { channel result ≡ channel_at self x y }
    {
        match self.channel(x, y) {
            0 => Colour::R,
            1 => Colour::G,
            _ => Colour::B,
        }
    }

    /// The place of that colour among red, green and blue: 0, 1 or 2.
    #[inline]
    pub fn channel(self, x: u32, y: u32) -> u32
        ensures channel { result ≡ channel_at self x y }
        ensures few { result < 3 }
    {
        let at = (x % 2 + 2 * (y % 2)) as usize;
        match self {
            Cfa::Rggb => [0, 1, 1, 2][at],
            Cfa::Bggr => [2, 1, 1, 0][at],
            Cfa::Grbg => [1, 0, 2, 1][at],
            Cfa::Gbrg => [1, 2, 0, 1][at],
        }
    }
}

/// What a pixel has: one value, of the colour that the filter array gives it, or three values, red,
/// green and blue.
#[derive(Clone, Copy, Debug, PartialEq, Eq)]
pub enum PlaneKind {
    Mosaic(Cfa),
    Rgb,
}

impl PlaneKind {
    /// How many values a pixel has: 1 or 3.
    pub fn channels(self) -> usize
        ensures { result ≡ channels self }
    {
        match self {
            PlaneKind::Mosaic(_) => 1,
            PlaneKind::Rgb => 3,
        }
    }
}
