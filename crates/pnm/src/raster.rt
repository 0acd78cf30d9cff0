//! Rasters: pictures as their bytes, decoded where they are needed.
ghost use Rattle.std.specs.Prelude.{◌≡◌, ℕ, ◌+◌, ◌*◌, ◌<◌, ◌≤◌, None, length, slice_index, IfErr, IfOk, OnOk};
ghost use Rattle.px.specs.Area.{Covers, HasPixel};
ghost use Rattle.px.specs.Cut.{IsCutOf, IsPlane, IsWhole, picture_of, place};
ghost use Rattle.px.specs.Kind.{channels};
ghost use Rattle.px.specs.Picture.{Picture};
ghost use Rattle.pnm.specs.declared.fault.PnmEnd.TheVariants.{Fault};
ghost use Rattle.pnm.specs.Fault.{fault_of};
ghost use Rattle.pnm.specs.Pnm.{IsPicture, IsRefusal};

use crate::PnmFault;
use crate::decoding::decode;
use crate::header::{Header, header_of, sample_len};
use px::{Cfa, Plane, PlaneKind, Region, RowPainter, paint_in_turn};
use std::alloc::{AllocError, Global};
use std::marker::Model;

/// A picture as the bytes of its raster, of which no value is decoded yet. It is seen as the whole plane
/// that its samples mean.
#[derive(Drop)]
pub struct Raster<'a> {
    header: Header<'a>,
}

impl<'a> Model for Raster<'a> {
    ghost use Rattle.px.specs.Cut.{Cut};
    ghost use Rattle.pnm.specs.Raster.{IsReadable, plane_meant};

    ghost Value = { Cut };

    ghost view = { λ r. plane_meant r.header.kind r.header.w r.header.h r.header.samples r.header.top r.header.raster.now };

    ghost invariant = { λ r. IsReadable r.header.kind r.header.w r.header.h r.header.samples r.header.top r.header.raster.now };
}

// So many bytes from a place on.
fn part(bytes: &[u8], from: usize, count: usize) -> &[u8]
    requires { from + count ≤ length bytes.now }
    ensures len { length result.now ≡ count }
    ensures same { (i : ℕ) → i < count → slice_index result.now i ≡ slice_index bytes.now (from + i) }
{
    &bytes[from..from + count]
}

impl Raster<'_> {
    pub fn kind(&self) -> PlaneKind
        ensures { result ≡ self.now.kind }
    {
        self.header.kind
    }

    /// The sides of the picture: columns, then rows.
    pub fn sides(&self) -> (u32, u32)
        ensures sides { result ≡ (self.now.w, self.now.h) }
        ensures valid { IsPlane self.now }
        ensures whole { IsWhole self.now }
    {
        (self.header.w, self.header.h)
    }

    // Writes the values of `n` pixels of row `y`, from column `x` on.
    fn decode_row(&self, x: u32, y: u32, n: u32, row: &mut [u32])
        requires first { HasPixel self.now.area x y }
        requires last { x + n ≤ self.now.area.x + self.now.area.w }
        requires room { length row.old ≡ n * channels self.now.kind }
        ensures values { (i : ℕ) → i < n * channels self.now.kind → slice_index row.new i ≡ slice_index self.now.values (place self.now x y + i) }
        ensures top { (i : ℕ) → slice_index row.new i ≤ 1048575 }
    {
        let header = self.header;
        let count = n as usize;
        let size = header.samples * sample_len(header.top);
        let from = (y as usize * header.w as usize + x as usize) * size;
        let bytes = part(header.raster, from, count * size);
        decode(header.kind, header.samples, header.top, count, bytes, row);
    }

    /// The values of a region that lies in the picture.
    pub fn cut(&self, alloc: Global, region: Region) -> Result<Plane, AllocError>
        requires { Covers self.now.area region }
        ensures area { IfOk result (λ p. p.area ≡ region) }
        ensures cut { IfOk result (λ p. (q : Picture) → IsCutOf q self.now → IsCutOf q p) }
    {
        let (w, h) = self.sides();
        paint_in_turn(
            alloc,
            None,
            self.kind(),
            w,
            h,
            region,
            &DecodedRows { raster: self },
        )
    }
}

// Paints a raster's rows.
#[derive(Drop)]
struct DecodedRows<'r, 'a> {
    raster: &'r Raster<'a>,
}

impl RowPainter for DecodedRows<'_, '_> {
    ghost use Rattle.px.specs.Area.{HasPixel};
    ghost use Rattle.px.specs.Kind.{channels};
    ghost use Rattle.px.specs.Copied.{IsCopied};

    ghost size = { λ p. channels p.raster.now.kind };

    ghost asks = { λ p x y. HasPixel p.raster.now.area x y };

    ghost gives = { λ p x y r. IsCopied p.raster.now x y r };

    fn fill_row(&self, x: u32, y: u32, n: u32, row: &mut [u32]) {
        if n == 0 {
            return;
        }
        self.raster.decode_row(x, y, n, row);
    }
}

/// The picture that the bytes begin with, as `read` reads it, but with no value decoded yet. Takes no
/// memory. Other bytes are refused at their first fault.
pub fn raster_of<'a>(bytes: &'a [u8], cfa: Option<Cfa>) -> Result<Raster<'a>, PnmFault>
    ensures picture { IfOk result (λ r. IsPicture bytes.now cfa (picture_of r)) }
    ensures only { IfOk result (λ r. (q : Picture) → IsPicture bytes.now cfa q → IsCutOf q r) }
    ensures whole { IfOk result (λ r. IsWhole r) }
    ensures none { OnOk result (fault_of bytes.now cfa ≡ None) }
    ensures fault { IfErr result (λ f. IsRefusal bytes.now cfa (Fault f)) }
{
    match header_of(bytes, cfa) {
        Ok(header) => Ok(Raster { header }),
        Err(fault) => Err(fault),
    }
}
