//! The rows of a plane as they are.
ghost use Rattle.std.specs.Prelude.{◌≡◌, IfOk};
ghost use Rattle.px.specs.Area.{Covers};
ghost use Rattle.px.specs.Cut.{IsCutOf};
ghost use Rattle.px.specs.Picture.{Picture};

use crate::{Plane, Region, RowPainter, paint_in_turn};
use std::alloc::{AllocError, Global};

// Paints a plane's own rows.
#[derive(Drop)]
struct CopiedRows<'a> {
    plane: &'a Plane,
}

impl RowPainter for CopiedRows<'_> {
    ghost use Rattle.px.specs.Area.{HasPixel};
    ghost use Rattle.px.specs.Kind.{channels};
    ghost use Rattle.px.specs.Copied.{IsCopied};

    ghost size = { λ p. channels p.plane.now.kind };

    ghost asks = { λ p x y. HasPixel p.plane.now.area x y };

    ghost gives = { λ p x y r. IsCopied p.plane.now x y r };

    fn fill_row(&self, x: u32, y: u32, n: u32, row: &mut [u32]) {
        if n == 0 {
            return;
        }
        let plane = self.plane;
        row.copy_from_slice(plane.row(x, y, n));
    }
}

impl Plane {
    /// The part of the plane that lies in the region, which the plane covers.
    pub fn cut(&self, alloc: Global, region: Region) -> Result<Plane, AllocError>
        requires { Covers self.now.area region }
        ensures area { IfOk result (λ p. p.area ≡ region) }
        ensures cut { IfOk result (λ p. (q : Picture) → IsCutOf q self.now → IsCutOf q p) }
    {
        let (w, h) = self.sides();
        paint_in_turn(
            alloc,
            None,
            self.kind(),
            w,
            h,
            region,
            &CopiedRows { plane: self },
        )
    }
}
