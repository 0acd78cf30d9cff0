//! P6s written by bands of rows, side by side, so that no plane of the picture stands whole.
ghost use Rattle.std.specs.Prelude.{◌≡◌, ℕ, ◌+◌, ◌*◌, ◌<◌, ◌≤◌, ◌++◌, List, length, slice_index, IfOk, OnOk};
ghost use Rattle.px.specs.declared.kind.PlaneKind.TheVariants.{Rgb};
ghost use Rattle.px.specs.Area.{IsArea, whole_of};
ghost use Rattle.px.specs.Bands.{AsksBands, GivesShaped, HasRow};
ghost use Rattle.pnm.specs.ByteBands.{AreByteBands, IsTextOf, bytes_of};
ghost use Rattle.pnm.specs.Pnm.{greatest, header};

use crate::encoding::{blank, greatest, sample_size, set_values};
use crate::header::header_text;
use px::{BandFiller, Depth, Plane, Region, fill_bands};
use std::alloc::{AllocError, Global};
use std::thread::Threads;

// Fills bands with the bytes of planes that a closure makes.
#[derive(Drop)]
struct ByBytes<F> {
    depth: Depth,
    w: u32,
    h: u32,
    make: F,
}

impl<F: Fn(Region) -> Result<Plane, AllocError>> BandFiller<u8> for ByBytes<F> {
    ghost use Rattle.px.specs.declared.kind.PlaneKind.TheVariants.{Rgb};
    ghost use Rattle.px.specs.Area.{IsArea, whole_of};
    ghost use Rattle.px.specs.Bands.{AsksBands, GivesShaped, HasRow};
    ghost use Rattle.pnm.specs.ByteBands.{AreByteBands, bytes_of};

    ghost asks = { λ s y. HasRow (whole_of s.w s.h) y × IsArea (whole_of s.w s.h) × AsksBands (whole_of s.w s.h) (F.pre s.make) × GivesShaped Rgb s.w s.h (whole_of s.w s.h) (F.post s.make) };

    ghost stride = { λ s. s.w * 3 * bytes_of s.depth };

    ghost fills = { λ s y n bytes. AreByteBands s.depth s.w s.h (F.post s.make) y n bytes };

    fn fill(&self, y: u32, n: u32, rows: &mut [u8]) -> Result<(), AllocError> {
        let band = Region {
            x: 0,
            y,
            w: self.w,
            h: n,
        };
        let plane = (self.make)(band)?;
        set_values(self.depth, plane.values(), rows);
        Ok(())
    }

    fn joined(&self) {}
}

// The header, and behind it the raster.
fn fill_text<R: Threads + Sync, F: Fn(Region) -> Result<Plane, AllocError> + Sync>(
    rt: &R,
    filler: &ByBytes<F>,
    band: u32,
    head: &[u8],
    text: &mut [u8],
) -> Result<(), AllocError>
    requires band { 0 < band }
    requires area { IsArea (whole_of filler.now.w filler.now.h) }
    requires asks { AsksBands (whole_of filler.now.w filler.now.h) (F.pre filler.now.make) }
    requires shaped { GivesShaped Rgb filler.now.w filler.now.h (whole_of filler.now.w filler.now.h) (F.post filler.now.make) }
    requires head { head.now ≡ header filler.now.w filler.now.h (greatest filler.now.depth) }
    requires len { length text.old ≡ length head.now + filler.now.h * (filler.now.w * 3 * bytes_of filler.now.depth) }
    ensures { OnOk result (IsTextOf filler.now.depth filler.now.w filler.now.h (F.post filler.now.make) text.new) }
{
    let (front, raster) = text.split_at_mut(head.len());
    front.copy_from_slice(head);
    let stride = filler.w as usize * 3 * sample_size(filler.depth);
    fill_bands(rt, filler, band, 0, filler.h, stride, raster)
}

/// The bytes of an RGB picture of sides `w` and `h` as a P6, as `write` makes them, from bands of at most
/// `band` rows, which the closure makes side by side. They are those of each picture of which all bands are
/// cuts.
pub fn write_bands<R: Threads + Sync, F: Fn(Region) -> Result<Plane, AllocError> + Sync>(
    rt: &R,
    alloc: Global,
    w: u32,
    h: u32,
    depth: Depth,
    band: u32,
    make: F,
) -> Result<Vec<u8>, AllocError>
    requires band { 0 < band }
    requires area { IsArea (whole_of w h) }
    requires asks { AsksBands (whole_of w h) (F.pre make) }
    requires shaped { GivesShaped Rgb w h (whole_of w h) (F.post make) }
    ensures { IfOk result (λ b. IsTextOf depth w h (F.post make) b.items) }
{
    let header = header_text(alloc, w, h, greatest(depth))?;
    let count = header.len() + h as usize * (w as usize * 3 * sample_size(depth));
    let mut text = blank(alloc, count)?;
    let filler = ByBytes { depth, w, h, make };
    fill_text(rt, &filler, band, header.as_bytes(), &mut text)?;
    Ok(text)
}
