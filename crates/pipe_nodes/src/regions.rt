//! What pieces need of their input, and what they make of it, before a pixel is made.
ghost use Rattle.std.specs.Prelude.{◌≡◌, ◌≤◌};
ghost use Rattle.px.specs.Area.{Fits, IsIn};
ghost use Rattle.pipe_nodes.specs.Course.{AreEnough, AreSound, needed_before, sides_made};
ghost use Rattle.pipe_nodes.specs.Kinds.{AllTake, kind_after, kind_behind};

use crate::piece::Piece;
use geometry::{roi_back, roi_out};
use params::Params;
use px::{PlaneKind, Region};

// The region that the pieces need of a picture of sides `w` and `h` for a region of what they make of it.
pub(crate) fn region_before(pieces: &[Piece], w: u32, h: u32, region: Region) -> Region
    requires sides { Fits 0 0 w h }
    requires inside { IsIn region (sides_made pieces.now (w, h)).0 (sides_made pieces.now (w, h)).1 }
    ensures region { result ≡ needed_before pieces.now (w, h) region }
    ensures inside { IsIn result w h }
{
    let Some((piece, later)) = pieces.split_first() else {
        return region;
    };
    let params = &piece.active().params;
    prove!(params::check(params).is_ok());
    let (columns, rows) = roi_out(params, w, h);
    let behind = region_before(later, columns, rows, region);
    roi_back(params, w, h, behind)
}

// The kind of what a module makes of a picture of that kind.
fn kind_made(params: &Params, kind: PlaneKind) -> PlaneKind
    ensures { result ≡ kind_after kind params.now }
{
    match params {
        Params::Demosaic => PlaneKind::Rgb,
        _ => kind,
    }
}

// The kind and the sides of what the pieces make of a picture of that kind and sides `w` and `h`.
pub(crate) fn shape_made(pieces: &[Piece], kind: PlaneKind, w: u32, h: u32) -> (PlaneKind, u32, u32)
    requires sides { Fits 0 0 w h }
    ensures kind { result.0 ≡ kind_behind kind pieces.now }
    ensures sides { (result.1, result.2) ≡ sides_made pieces.now (w, h) }
    ensures valid { Fits 0 0 result.1 result.2 }
    ensures sound { AreSound pieces.now (w, h) }
    ensures enough { AllTake kind pieces.now → AreEnough kind (w, h) → AreEnough result.0 (result.1, result.2) }
{
    let Some((piece, later)) = pieces.split_first() else {
        return (kind, w, h);
    };
    let params = &piece.active().params;
    prove!(params::check(params).is_ok());
    let (columns, rows) = roi_out(params, w, h);
    shape_made(later, kind_made(params, kind), columns, rows)
}
