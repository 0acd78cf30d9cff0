//! Pixels at a mosaic's edges: by the definition.
ghost use Rattle.std.specs.Prelude.{◌≡◌, ℕ, ◌+◌, ◌<◌, ◌≤◌, slice_index};
ghost use Rattle.px.specs.Area.{IsArea};
ghost use Rattle.px.specs.Cut.{value_at};
ghost use Rattle.px.specs.Mosaic.{channel};
ghost use Rattle.modules_raw.specs.Demosaic.{window, demosaiced};
ghost use Rattle.modules_raw.specs.Rowwise.{CanAsk, IsPixel};

use px::{Cfa, Colour, Plane, Region, box_mean};

// The window round a pixel, as far as it lies in a picture of sides `w` and `h`.
fn window_of(w: u32, h: u32, x: u32, y: u32) -> Region
    requires wide { w ≤ 16384 }
    requires high { h ≤ 16384 }
    requires column { x < w }
    requires row { y < h }
    ensures region { result ≡ window w h x y }
    ensures valid { IsArea result }
{
    let left = x.saturating_sub(1);
    let top = y.saturating_sub(1);
    Region {
        x: left,
        y: top,
        w: (x + 2).min(w) - left,
        h: (y + 2).min(h) - top,
    }
}

// One channel of a pixel.
fn edge_value(input: &Plane, cfa: Cfa, w: u32, h: u32, x: u32, y: u32, c: Colour) -> u32
    requires { CanAsk input.now cfa w h x y }
    ensures value { result ≡ demosaiced cfa w h (value_at input.now) x y (channel c) }
    ensures top { result ≤ 1048575 }
{
    if cfa.channel(x, y) == c.channel() {
        return input.raw(x, y);
    }
    box_mean(input, window_of(w, h, x, y), c)
}

// All channels of a pixel.
#[cold]
pub(crate) fn edge_pixel(input: &Plane, cfa: Cfa, w: u32, h: u32, x: u32, y: u32) -> [u32; 3]
    requires { CanAsk input.now cfa w h x y }
    ensures { IsPixel cfa w h (value_at input.now) x y result }
{
    [
        edge_value(input, cfa, w, h, x, y, Colour::R),
        edge_value(input, cfa, w, h, x, y, Colour::G),
        edge_value(input, cfa, w, h, x, y, Colour::B),
    ]
}
