//! What a module instance makes of its input, blended or not.
ghost use Rattle.std.specs.Prelude.{◌≡◌, ◌≤◌, IfOk, IfSome, IfNone, unwrap_or};
ghost use Rattle.px.specs.Area.{Covers};
ghost use Rattle.px.specs.Cut.{IsCutOf};
ghost use Rattle.px.specs.Picture.{Picture};
ghost use Rattle.pipe_nodes.specs.Applied.{CanApply, CanTrace, IsMade};

use crate::apply::apply;
use crate::blending::lay_over;
use crate::piece::Piece;
use crate::tracing::Tracing;
use px::{Plane, Region};
use std::alloc::{AllocError, Global};

// The plane that was made of a region, or else that region of the input.
pub(crate) fn made_or_cut(
    alloc: Global,
    made: Option<Plane>,
    input: &Plane,
    region: Region,
) -> Result<Plane, AllocError>
    requires area { IfSome made (λ o. o.area ≡ region) }
    requires covers { IfNone made (Covers input.now.area region) }
    ensures area { IfOk result (λ p. p.area ≡ region) }
    ensures cut { IfOk result (λ p. (q : Picture) → IsCutOf q (unwrap_or made input.now) → IsCutOf q p) }
{
    match made {
        Some(plane) => Ok(plane),
        None => input.cut(alloc, region),
    }
}

// A region of what a piece makes of its input, a picture of that level, or none where it leaves
// the input as it is. `tracing` tells where the input's pixels come from. A spare plane may lend it its memory.
pub(crate) fn make(
    alloc: Global,
    spare: Option<Plane>,
    piece: &Piece,
    level: u8,
    tracing: &Tracing,
    input: &Plane,
    region: Region,
) -> Result<Option<Plane>, AllocError>
    requires level { level ≤ 8 }
    requires traces { CanTrace tracing.now (input.now.w, input.now.h) }
    requires can { CanApply piece.now.params input.now region }
    ensures { IfOk result (IsMade piece.now level tracing.now input.now region) }
{
    let active = piece.active();
    prove!(params::check(&active.params).is_ok());
    let made = apply(alloc, spare, piece, &active.params, level, input, region)?;
    match &active.blend {
        None => Ok(made),
        Some(blend) => {
            let output = made_or_cut(alloc, made, input, region)?;
            Ok(Some(lay_over(alloc, blend, tracing, input, output)?))
        }
    }
}
