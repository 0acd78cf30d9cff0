ghost use Rattle.std.specs.Prelude.{◌≡◌, ◌+◌, ◌*◌, ◌≤◌, ◌↔◌, ℕ, IsSome, IfSome, IfNone, IsTrue};
ghost use Rattle.px.specs.Area.{Area, Fits, HasPixel, Covers, IsIn, IsNear, IsShared, AreApart, grown, shifted};

use crate::SIDE;
use std::marker::Model;

/// A rectangle of pixels, never empty. `x` and `y` are its first column and row, counted from 0 at the
/// picture's top left; it ends within `SIDE` on both axes.
#[derive(Clone, Copy, Debug, PartialEq, Eq)]
pub struct Region {
    pub x: u32,
    pub y: u32,
    pub w: u32,
    pub h: u32,
}

impl Model for Region {
    ghost use Rattle.px.specs.Area.{Area, Fits};

    ghost Value = { Area };

    ghost view = { λ r. record { x = r.x; y = r.y; w = r.w; h = r.h } };

    ghost invariant = { λ r. Fits r.x r.y r.w r.h };

    ghost inverse = { λ a. record { x = a.x; y = a.y; w = a.w; h = a.h } };
}

impl Region {
    /// `None` exactly where a side is 0 or the rectangle passes `SIDE`.
    pub fn new(x: u32, y: u32, w: u32, h: u32) -> Option<Region>
        ensures fits { IsSome result ↔ Fits x y w h }
        ensures region { IfSome result (λ a. a ≡ record { x = x; y = y; w = w; h = h }) }
    {
        if w == 0 || h == 0 || w > SIDE || h > SIDE || x > SIDE - w || y > SIDE - h {
            return None;
        }
        Some(Region { x, y, w, h })
    }

    /// The whole of a picture of sides `w` and `h`.
    pub fn whole(w: u32, h: u32) -> Region
        requires { Fits 0 0 w h }
        ensures { result ≡ record { x = 0; y = 0; w = w; h = h } }
    {
        Region { x: 0, y: 0, w, h }
    }

    /// The pixels that both regions have. `None` exactly where they have none in common.
    pub fn meet(self, other: Region) -> Option<Region>
        ensures shared { IfSome result (IsShared self other) }
        ensures apart { IfNone result (AreApart self other) }
    {
        let x = self.x.max(other.x);
        let y = self.y.max(other.y);
        let right = (self.x + self.w).min(other.x + other.w);
        let bottom = (self.y + self.h).min(other.y + other.h);
        if right <= x || bottom <= y {
            return None;
        }
        Some(Region {
            x,
            y,
            w: right - x,
            h: bottom - y,
        })
    }

    /// Whether each pixel of `other` lies in this region.
    pub fn covers(self, other: Region) -> bool
        ensures { IsTrue result ↔ Covers self other }
    {
        self.x <= other.x
            && other.x + other.w <= self.x + self.w
            && self.y <= other.y
            && other.y + other.h <= self.y + self.h
    }

    /// All pixels of a picture of sides `w` and `h`, in which the region lies, that are at most `by`
    /// columns and rows away from the region.
    pub fn grow(self, by: u32, w: u32, h: u32) -> Region
        requires inside { IsIn self w h }
        requires wide { w ≤ 16384 }
        requires high { h ≤ 16384 }
        ensures region { result ≡ grown self by w h }
        ensures near { (x y : ℕ) → HasPixel result x y ↔ IsNear self by w h x y }
    {
        let x = self.x.saturating_sub(by);
        let y = self.y.saturating_sub(by);
        let right = (self.x + self.w).saturating_add(by).min(w);
        let bottom = (self.y + self.h).saturating_add(by).min(h);
        Region {
            x,
            y,
            w: right - x,
            h: bottom - y,
        }
    }

    /// The region moved `dx` columns to the right and `dy` rows down; it ends within `SIDE` still.
    pub fn shift(self, dx: u32, dy: u32) -> Region
        requires right { self.x + self.w + dx ≤ 16384 }
        requires bottom { self.y + self.h + dy ≤ 16384 }
        ensures { result ≡ shifted self dx dy }
    {
        Region {
            x: self.x + dx,
            y: self.y + dy,
            w: self.w,
            h: self.h,
        }
    }

    /// How many pixels it has.
    pub fn pixels(self) -> u64
        ensures { result ≡ self.w * self.h }
    {
        u64::from(self.w) * u64::from(self.h)
    }
}
