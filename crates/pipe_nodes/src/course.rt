ghost use Rattle.std.specs.Prelude.{◌≡◌, ℕ, ◌≤◌, List, [], ◌∷◌, ◌++◌};
ghost use Rattle.px.specs.Area.{Fits};
ghost use Rattle.px.specs.Cut.{IsCutOf};
ghost use Rattle.px.specs.Picture.{Picture};
ghost use Rattle.geometry.specs.Sides.{sides_after};
ghost use Rattle.modules_raw.specs.Levels.{level_side};
ghost use Rattle.pipe_nodes.specs.declared.active.Active.{Active as AnyActive};
ghost use Rattle.pipe_nodes.specs.Active.{IsFit};
ghost use Rattle.pipe_nodes.specs.Applied.{CanTrace, IsTracing};
ghost use Rattle.pipe_nodes.specs.Course.{HasCome, IsCourse};

use crate::active::Active;
use crate::tracing::Tracing;
use geometry::Geometry;
use modules_raw::{Source, level_sides};
use std::marker::Model;

/// How far a run has come: the sides of its source, and what is known of sides and places behind the
/// instances so far.
#[derive(Clone, Copy, Debug)]
pub(crate) struct Course {
    w: u32,
    h: u32,
    geometry: Geometry,
}

impl Model for Course {
    ghost use Rattle.pipe_nodes.specs.Course.{CourseSeen, IsCourse};

    ghost Value = { CourseSeen };

    ghost view = { λ c. record { w = c.w; h = c.h; geometry = c.geometry } };

    ghost invariant = { λ c. IsCourse (record { w = c.w; h = c.h; geometry = c.geometry }) };

    ghost inverse = { λ c. record { w = c.w; h = c.h; geometry = c.geometry } };
}

impl Course {
    // A run over a level of a source, before its first instance.
    pub(crate) fn start(source: &Source, level: u8) -> Course
        requires level { level ≤ 8 }
        ensures out { result.geometry.out ≡ (level_side source.now.w level, level_side source.now.h level) }
        ensures come { (q : Picture) → IsCutOf q source.now → HasCome q level [] result }
    {
        let (w, h) = source.plane().sides();
        Course::at(w, h, level)
    }

    // The same, over a level of a source of sides `w` and `h`.
    pub(crate) fn at(w: u32, h: u32, level: u8) -> Course
        requires sides { Fits 0 0 w h }
        requires level { level ≤ 8 }
        ensures out { result.geometry.out ≡ (level_side w level, level_side h level) }
        ensures come { (q : Picture) → w ≡ q.w → h ≡ q.h → HasCome q level [] result }
    {
        let (columns, rows) = level_sides(w, h, level);
        Course {
            w,
            h,
            geometry: Geometry::start(columns, rows, level),
        }
    }

    // One instance further.
    pub(crate) fn push(&mut self, active: &Active)
        requires fit { IsFit active.now }
        ensures out { self.new.geometry.out ≡ sides_after active.now.params self.old.geometry.out }
        ensures come { (q : Picture) (level : ℕ) (before : List AnyActive) → HasCome q level before self.old → HasCome q level (before ++ active.now ∷ []) self.new }
    {
        prove!(params::check(&active.params).is_ok());
        self.geometry.push(&active.params);
    }

    // Where the pixels of the picture come from to which the run has come.
    pub(crate) fn tracing(&self) -> Tracing
        ensures can { CanTrace result self.now.geometry.out }
        ensures traces { (q : Picture) (level : ℕ) (before : List AnyActive) → HasCome q level before self.now → IsTracing q level before self.now.geometry.out result }
    {
        Tracing {
            w: self.w,
            h: self.h,
            trace: self.geometry.trace(),
        }
    }

    // The level of the source.
    pub(crate) fn level(&self) -> u8
        ensures level { result ≡ self.now.geometry.trace.level }
        ensures few { result ≤ 8 }
    {
        self.geometry.trace().level
    }
}
