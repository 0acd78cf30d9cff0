ghost use Rattle.std.specs.Prelude.{◌≡◌, ℕ, ◌≤◌, List, [], ◌∷◌, ◌++◌};
ghost use Rattle.params.specs.declared.settings.Params.{Params as AnyParams};
ghost use Rattle.params.specs.Ranges.{IsWithin};
ghost use Rattle.px.specs.Area.{Fits};
ghost use Rattle.px.specs.Trace.{Traces};
ghost use Rattle.geometry.specs.Behind.{IsGeometry, IsBehind};
ghost use Rattle.geometry.specs.Sides.{IsPixelOf, place_behind, sides_after};

use crate::module_trace::{straight, through, trace_of};
use crate::sides::roi_out;
use params::Params;
use px::Trace;
use std::marker::Model;

/// Sides and places behind a list of modules: the sides of the input, the sides behind the modules so
/// far, and from which pixel of the input each pixel comes. All sides are 1 to `SIDE`.
#[derive(Clone, Copy, Debug)]
pub struct Geometry {
    input: (u32, u32),
    out: (u32, u32),
    trace: Trace,
}

impl Model for Geometry {
    ghost use Rattle.geometry.specs.Behind.{GeometrySeen, IsGeometry};

    ghost Value = { GeometrySeen };

    ghost view = { λ g. record { input = g.input; out = g.out; trace = g.trace } };

    ghost invariant = { λ g. IsGeometry (record { input = g.input; out = g.out; trace = g.trace }) };

    ghost inverse = { λ g. record { input = g.input; out = g.out; trace = g.trace } };
}

impl Geometry {
    /// What is known of an input of these sides, a mipmap level of a source, before any module.
    pub fn start(w: u32, h: u32, level: u8) -> Geometry
        requires sides { Fits 0 0 w h }
        ensures { IsBehind level (w, h) [] result }
    {
        Geometry {
            input: (w, h),
            out: (w, h),
            trace: straight(0, 0, level),
        }
    }

    /// One module more, behind those so far. Only orientation and crop change what is known.
    pub fn push(&mut self, params: &Params)
        requires within { IsWithin params.now }
        ensures behind { (level : ℕ) (sides : ℕ × ℕ) (modules : List AnyParams) → IsBehind level sides modules self.old → IsBehind level sides (modules ++ params.now ∷ []) self.new }
        ensures out { self.new.out ≡ sides_after params.now self.old.out }
        ensures level { self.new.trace.level ≡ self.old.trace.level }
    {
        let (w, h) = self.out;
        self.out = roi_out(params, w, h);
        self.trace = through(self.trace, trace_of(params, w, h));
    }

    /// The sides behind the modules so far: columns, then rows.
    pub fn out_size(&self) -> (u32, u32)
        ensures out { result ≡ self.now.out }
        ensures valid { IsGeometry self.now }
    {
        self.out
    }

    /// Where the pixels behind the modules so far come from.
    pub fn trace(&self) -> Trace
        ensures trace { result ≡ self.now.trace }
        ensures valid { IsGeometry self.now }
    {
        self.trace
    }

    /// The place of the pixel in column `x` and row `y`: the column and row of the input's pixel from
    /// which it comes.
    pub fn place(&self, x: u32, y: u32) -> (u32, u32)
        requires pixel { IsPixelOf self.now.out (x, y) }
        ensures traced { Traces self.now.trace x y result.0 result.1 }
        ensures inside { IsPixelOf self.now.input result }
        ensures behind { (level : ℕ) (sides : ℕ × ℕ) (modules : List AnyParams) → IsBehind level sides modules self.now → result ≡ place_behind modules sides (x, y) }
    {
        self.trace.of(x, y)
    }
}
