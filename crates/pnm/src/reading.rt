ghost use Rattle.std.specs.Prelude.{◌≡◌, None, IfErr, IfOk, OnOk};
ghost use Rattle.px.specs.Cut.{IsCutOf, IsWhole, picture_of};
ghost use Rattle.px.specs.Picture.{Picture};
ghost use Rattle.pnm.specs.Fault.{fault_of};
ghost use Rattle.pnm.specs.Pnm.{IsPicture, IsRefusal};

use crate::PnmEnd;
use crate::raster::raster_of;
use px::{Cfa, Plane, Region};
use std::alloc::Global;

/// The picture that the bytes begin with: a P6 or P5 of 8 or 16 bits a sample, with sides of 1 to 16,384
/// and at most 25,165,824 pixels. A P6 is RGB. A P5 is a mosaic where there is a colour filter array, with
/// sides of 2 at least, and else it is grey, with its sample in all three channels. What follows the raster
/// is ignored.
///
/// A sample of an RGB or grey picture is read at `floor(min(s, M) * 65535 / M)`, where M is the greatest
/// sample, so that M is white; a mosaic's is `min(s, M)`.
///
/// Other bytes are refused at their first fault, reading from left to right.
pub fn read(alloc: Global, bytes: &[u8], cfa: Option<Cfa>) -> Result<Plane, PnmEnd>
    ensures picture { IfOk result (λ p. IsPicture bytes.now cfa (picture_of p)) }
    ensures only { IfOk result (λ p. (q : Picture) → IsPicture bytes.now cfa q → IsCutOf q p) }
    ensures whole { IfOk result (λ p. IsWhole p) }
    ensures none { OnOk result (fault_of bytes.now cfa ≡ None) }
    ensures fault { IfErr result (IsRefusal bytes.now cfa) }
{
    match raster_of(bytes, cfa) {
        Ok(raster) => {
            let (w, h) = raster.sides();
            Ok(raster.cut(alloc, Region::whole(w, h))?)
        }
        Err(fault) => Err(PnmEnd::Fault(fault)),
    }
}
