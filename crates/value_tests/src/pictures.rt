//! Small pictures by the bytes of their files, so that a test has no list of values to reason about.
ghost use Rattle.std.specs.Prelude.{◌≡◌, IfOk};
ghost use Rattle.px.specs.declared.kind.PlaneKind.TheVariants.{Rgb};
ghost use Rattle.px.specs.Area.{whole_of};

use modules_raw::Source;
use px::{Cfa, Plane, PlaneKind};
use std::alloc::{AllocError, Global};
use std::sync::Arc;
use std::test::Fail;

/// Three grey pixels side by side: 0, 48 and 96 of 255.
pub(crate) const GREYS: &[u8] = b"P6\n3 1\n255\n\x00\x00\x00\x30\x30\x30\x60\x60\x60";

/// One pixel of the samples 100, 300 and 5000.
pub(crate) const PIXEL: &[u8] = b"P6\n1 1\n65535\n\x00\x64\x01\x2c\x13\x88";

/// 3x2, whose pixel in column x and row y has 10 * y + x as red, and 100 and 200 more as green and blue.
pub(crate) const SIX: &[u8] =
    b"P6\n3 2\n65535\n\x00\x00\x00\x64\x00\xc8\x00\x01\x00\x65\x00\xc9\x00\x02\x00\x66\x00\xca\x00\x0a\x00\x6e\x00\xd2\x00\x0b\x00\x6f\x00\xd3\x00\x0c\x00\x70\x00\xd4";

/// A mosaic of 3x3 samples, 10 to 90.
pub(crate) const NINE: &[u8] = b"P5\n3 3\n255\n\x0a\x14\x1e\x28\x32\x3c\x46\x50\x5a";

// 5 columns and 3 rows with the value 10 * row + column.
const RAMP: &[u8] = b"P5\n5 3\n255\n\x00\x01\x02\x03\x04\x0a\x0b\x0c\x0d\x0e\x14\x15\x16\x17\x18";

/// The picture of these bytes, where it has so many columns and rows.
pub(crate) fn picture(alloc: Global, bytes: &[u8], w: u32, h: u32) -> Result<Plane, Fail>
    ensures kind { IfOk result (λ p. p.kind ≡ Rgb) }
    ensures wide { IfOk result (λ p. p.w ≡ w) }
    ensures high { IfOk result (λ p. p.h ≡ h) }
    ensures area { IfOk result (λ p. p.area ≡ whole_of w h) }
{
    let plane = pnm::read(alloc, bytes, None)?;
    let (columns, rows) = plane.sides();
    match plane.kind() {
        PlaneKind::Rgb if columns == w && rows == h => Ok(plane),
        _ => Err(Fail::from("another picture")),
    }
}

/// The same for a mosaic that begins with red.
pub(crate) fn mosaic(alloc: Global, bytes: &[u8], w: u32, h: u32) -> Result<Plane, Fail>
    ensures wide { IfOk result (λ p. p.w ≡ w) }
    ensures high { IfOk result (λ p. p.h ≡ h) }
    ensures area { IfOk result (λ p. p.area ≡ whole_of w h) }
{
    let plane = pnm::read(alloc, bytes, Some(Cfa::Rggb))?;
    let (columns, rows) = plane.sides();
    if columns == w && rows == h {
        return Ok(plane);
    }
    Err(Fail::from("another mosaic"))
}

/// The mosaic of 5 columns and 3 rows with the value 10 * row + column, as a source.
pub(crate) fn ramp(alloc: Global) -> Result<Arc<Source>, Fail> {
    let plane = pnm::read(alloc, RAMP, Some(Cfa::Rggb))?;
    Ok(Arc::new(alloc, Source::of(plane)).map_err(AllocError::from)?)
}
