ghost use Rattle.std.specs.Prelude.{◌≡◌, ◌+◌, ◌*◌, ◌^◌, ◌<◌, ◌++◌, length, IfOk};
ghost use Rattle.std.specs.List.{flat_map};
ghost use Rattle.px.specs.declared.kind.PlaneKind.TheVariants.{Rgb};
ghost use Rattle.px.specs.Cut.{IsCutOf, IsWhole};
ghost use Rattle.px.specs.Picture.{Picture};
ghost use Rattle.pnm.specs.ByteBands.{bytes_of};
ghost use Rattle.pnm.specs.Pnm.{sample_bytes, written, written_values};

use crate::encoding::{blank, greatest, sample_size, set_values};
use crate::header::header_text;
use px::{Depth, Plane};
use std::alloc::{AllocError, Global};

// The header, and behind it the raster.
fn set_text(head: &[u8], values: &[u32], depth: Depth, text: &mut [u8])
    requires { length text.old ≡ length head.now + length values.now * bytes_of depth }
    ensures { text.new ≡ head.now ++ flat_map (sample_bytes depth) values.now }
{
    let (front, raster) = text.split_at_mut(head.len());
    front.copy_from_slice(head);
    set_values(depth, values, raster);
}

// The bytes of the values of a picture of sides `w` and `h`.
fn write_values(
    alloc: Global,
    w: u32,
    h: u32,
    values: &[u32],
    depth: Depth,
) -> Result<Vec<u8>, AllocError>
    requires { length values.now < 2 ^ 40 }
    ensures { IfOk result (λ b. b.items ≡ written_values w h values.now depth) }
{
    let header = header_text(alloc, w, h, greatest(depth))?;
    let head = header.as_bytes();
    let mut text = blank(alloc, head.len() + values.len() * sample_size(depth))?;
    set_text(head, values, depth, &mut text);
    Ok(text)
}

/// The bytes of a whole RGB picture as a P6: the header `P6`, the sides and the greatest sample, each
/// line ended by LF, and the raster. A value above white is written as white; at a depth of 8 bits a
/// sample is a 257th of the value, rounded down.
pub fn write(alloc: Global, plane: &Plane, depth: Depth) -> Result<Vec<u8>, AllocError>
    requires rgb { plane.now.kind ≡ Rgb }
    requires whole { IsWhole plane.now }
    ensures { IfOk result (λ b. (q : Picture) → IsCutOf q plane.now → b.items ≡ written q depth) }
{
    let (w, h) = plane.sides();
    write_values(alloc, w, h, plane.values(), depth)
}
