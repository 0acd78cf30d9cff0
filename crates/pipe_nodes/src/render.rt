//! Pieces at work: a region of what a run makes with one piece more.
ghost use Rattle.std.specs.Prelude.{◌≡◌, ◌++◌, ◌∷◌, [], IfOk};
ghost use Rattle.px.specs.Cut.{IsCutOf, picture_of};
ghost use Rattle.pipe_nodes.specs.Applied.{CanApply};
ghost use Rattle.pipe_nodes.specs.Course.{HasCome};
ghost use Rattle.pipe_nodes.specs.Whole.{whole};

use crate::bands::run_bands;
use crate::course::Course;
use crate::piece::Piece;
use crate::staged::Staged;
use px::{Plane, Region};
use std::alloc::{AllocError, Global};
use std::slice::from_ref;
use std::thread::Threads;

// How far the run of a stage has come.
fn stage_course(from: &Staged) -> Course
    ensures out { result.geometry.out ≡ (from.now.plane.w, from.now.plane.h) }
    ensures come { HasCome (picture_of from.now.source) from.now.prefix.level from.now.prefix.actives result }
{
    let prefix = from.prefix();
    let mut course = Course::start(from.source(), prefix.level());
    for i in 0..prefix.len() {
        course.push(prefix.at(i));
    }
    course
}

impl Piece {
    /// A region of what the run makes with this piece behind the stage. The region lies in the piece's
    /// output picture, the stage covers what it needs, and is RGB unless the piece is of raw preparation,
    /// temperature or demosaic. It is made by bands of rows side by side.
    pub fn render<R: Threads + Sync>(
        &self,
        rt: &R,
        alloc: Global,
        from: &Staged,
        region: Region,
    ) -> Result<Plane, AllocError>
        requires can { CanApply self.now.params from.now.plane region }
        ensures area { IfOk result (λ p. p.area ≡ region) }
        ensures cut { IfOk result (λ p. IsCutOf (whole (picture_of from.now.source) from.now.prefix.level (from.now.prefix.actives ++ self.now ∷ [])) p) }
    {
        let course = stage_course(from);
        run_bands(rt, alloc, course, from.plane(), from_ref(self), region)
    }
}
