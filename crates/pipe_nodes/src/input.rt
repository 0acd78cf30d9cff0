//! What a run begins with.
ghost use Rattle.std.specs.Prelude.{◌≡◌, ℕ, IfOk};
ghost use Rattle.px.specs.Bands.{IsShaped};
ghost use Rattle.px.specs.Cut.{Cut, IsPlane};
ghost use Rattle.pipe_nodes.specs.Course.{CanRun, IsMadeBy, sides_made};
ghost use Rattle.pipe_nodes.specs.Kinds.{kind_behind};

use crate::bands::run_in_turn;
use crate::course::Course;
use crate::piece::Piece;
use crate::regions::region_before;
use pnm::Raster;
use px::{Plane, PlaneKind, Region};
use std::alloc::{AllocError, Global};

/// What a run begins with: a plane, or a raster, of which each band is decoded where it is needed.
pub(crate) trait Input {
    /// The plane that it is, or means.
    ghost seen: { Self → Cut };

    /// The kind and the sides of its picture.
    fn shape(&self) -> (PlaneKind, u32, u32)
        ensures kind { result.0 ≡ (seen self.now).kind }
        ensures sides { ◌≡◌ {A = ℕ × ℕ} (result.1, result.2) ((seen self.now).w, (seen self.now).h) }
        ensures valid { IsPlane (seen self.now) };

    /// The region that it holds.
    fn held(&self) -> Region
        ensures region { result ≡ (seen self.now).area };

    /// A region of what the pieces make of it, one after the other.
    fn run(
        &self,
        alloc: Global,
        course: Course,
        pieces: &[Piece],
        region: Region,
    ) -> Result<Plane, AllocError>
        requires out { course.geometry.out ≡ ((seen self.now).w, (seen self.now).h) }
        requires can { CanRun pieces.now (seen self.now) region }
        ensures shaped { IfOk result (IsShaped (kind_behind (seen self.now).kind pieces.now) (sides_made pieces.now ((seen self.now).w, (seen self.now).h)).0 (sides_made pieces.now ((seen self.now).w, (seen self.now).h)).1 region) }
        ensures made { IfOk result (IsMadeBy pieces.now course (seen self.now)) };
}

impl Input for Plane {
    ghost seen = { λ p. p };

    fn shape(&self) -> (PlaneKind, u32, u32) {
        let (w, h) = self.sides();
        (self.kind(), w, h)
    }

    fn held(&self) -> Region {
        self.region()
    }

    fn run(
        &self,
        alloc: Global,
        course: Course,
        pieces: &[Piece],
        region: Region,
    ) -> Result<Plane, AllocError> {
        run_in_turn(alloc, course, self, None, None, pieces, region)
    }
}

impl Input for Raster<'_> {
    ghost seen = { λ r. r };

    fn shape(&self) -> (PlaneKind, u32, u32) {
        let (w, h) = self.sides();
        (self.kind(), w, h)
    }

    fn held(&self) -> Region {
        let (w, h) = self.sides();
        Region::whole(w, h)
    }

    fn run(
        &self,
        alloc: Global,
        course: Course,
        pieces: &[Piece],
        region: Region,
    ) -> Result<Plane, AllocError> {
        let (w, h) = self.sides();
        let needed = region_before(pieces, w, h, region);
        let band = self.cut(alloc, needed)?;
        run_in_turn(alloc, course, &band, None, None, pieces, region)
    }
}
