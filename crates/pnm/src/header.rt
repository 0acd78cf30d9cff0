//! The header: its text as it is written, and what the bytes of a picture say of it.
ghost use Rattle.std.specs.Prelude.{◌≡◌, ◌+◌, ◌-◌, ◌<◌, ◌≤◌, ◌==◌, ◌&&◌, ◌||◌, nat_lt, Some, None, length, drop, slice_index, string_bytes, IfOk, MatchResult};
ghost use Rattle.px.specs.Kind.{least_side};
ghost use Rattle.pnm.specs.Fault.{fault_of, magic_fault, number_fault, raster_fault, sides_fault};
ghost use Rattle.pnm.specs.Header.{HasMagic, HasRaster, HasSides, IsHeader, IsNumberDue};
ghost use Rattle.pnm.specs.Pnm.{header};
ghost use Rattle.pnm.specs.Samples.{bytes_of_sample, read_kind, samples_of_magic};

use crate::words::{
    begins_gap, begins_number, begins_white, filling_len, front, front_number, skip,
};
use crate::{PnmFault, PnmKind};
use px::{Cfa, PlaneKind, SIDE};
use std::alloc::{AllocError, Global};

/// How many pixels a picture has at most.
const MOST_PIXELS: u32 = 25_165_824;

/// The greatest sample that there is.
const MOST_TOP: u32 = 65_535;

// The header of a P6 with these sides and this greatest sample.
pub(crate) fn header_text(alloc: Global, w: u32, h: u32, top: u32) -> Result<String, AllocError>
    ensures { IfOk result (λ t. string_bytes t ≡ header w h top) }
{
    format!(in alloc; "P6\n{w} {h}\n{top}\n")
}

// What the header says of a raster, and the raster.
#[derive(Clone, Copy)]
pub(crate) struct Header<'a> {
    pub(crate) kind: PlaneKind,
    pub(crate) w: u32,
    pub(crate) h: u32,
    pub(crate) samples: usize,
    pub(crate) top: u32,
    pub(crate) raster: &'a [u8],
}

// A number of the header, how many bytes stand from its first digit on, and what follows it.
#[derive(Clone, Copy)]
struct Number<'a> {
    value: u32,
    left: usize,
    rest: &'a [u8],
}

// A fault at the byte before which `left` of `total` bytes stand.
fn fault_at(kind: PnmKind, total: usize, left: usize) -> PnmFault
    requires { left ≤ total }
    ensures { result ≡ record { kind = kind; place = total - left } }
{
    PnmFault {
        kind,
        place: (total - left) as u64,
    }
}

// A byte of the text, or 0 past its end.
fn byte_or_zero(bytes: &[u8], i: usize) -> u8
    ensures { result ≡ slice_index bytes.now i }
{
    if i < bytes.len() { bytes[i] } else { 0 }
}

// Whether two bytes are one of Netpbm's magics that aren't read here.
fn is_other(first: u8, second: u8) -> bool
    ensures { result ≡ (first == 80 && (second == 49 || second == 50 || second == 51 || second == 52 || second == 55)) }
{
    first == 80 && (second == 49 || second == 50 || second == 51 || second == 52 || second == 55)
}

// Whether two bytes are a magic that is read.
fn is_read(first: u8, second: u8) -> bool
    ensures { result ≡ (first == 80 && (second == 53 || second == 54)) }
{
    first == 80 && (second == 53 || second == 54)
}

// The second byte of a P5 or P6.
fn magic_of(bytes: &[u8]) -> Result<u8, PnmFault>
    ensures { MatchResult result (HasMagic bytes.now) (λ f. magic_fault bytes.now ≡ Some f) }
{
    let first = byte_or_zero(bytes, 0);
    let second = byte_or_zero(bytes, 1);
    if is_other(first, second) {
        return Err(fault_at(PnmKind::OtherForm, bytes.len(), bytes.len()));
    }
    if !is_read(first, second) {
        return Err(fault_at(PnmKind::BadMagic, bytes.len(), bytes.len()));
    }
    Ok(second)
}

// The number from 1 to `most` that is due behind a gap.
fn number_due<'a>(
    total: usize,
    text: &'a [u8],
    most: u32,
    zero: PnmKind,
    large: PnmKind,
) -> Result<Number<'a>, PnmFault>
    requires within { length text.now ≤ total }
    requires most { most < 1000000 }
    ensures { MatchResult result (λ n. IsNumberDue total text.now most zero large n.value n.left n.rest.now) (λ f. number_fault total text.now most zero large ≡ Some f) }
{
    if !begins_gap(text) {
        return Err(fault_at(PnmKind::BadHeader, total, text.len()));
    }
    let from = skip(text, filling_len(text));
    let left = from.len();
    if !begins_number(from) {
        return Err(fault_at(PnmKind::BadHeader, total, left));
    }
    let (value, digits) = front_number(from);
    if value == 0 {
        return Err(fault_at(zero, total, left));
    }
    if value > most {
        return Err(fault_at(large, total, left));
    }
    let rest = skip(from, digits);
    Ok(Number { value, left, rest })
}

// The kind of a picture with this second byte.
fn kind_read(magic: u8, cfa: Option<Cfa>) -> PlaneKind
    ensures { result ≡ read_kind magic cfa }
{
    match cfa {
        Some(cfa) if magic != 54 => PlaneKind::Mosaic(cfa),
        _ => PlaneKind::Rgb,
    }
}

// How many samples a pixel has with this second byte.
fn samples_read(magic: u8) -> usize
    ensures samples { result ≡ samples_of_magic magic }
    ensures few { result ≤ 3 }
{
    if magic == 54 { 3 } else { 1 }
}

// Whether both sides are as long as the kind needs them.
fn is_small(kind: PlaneKind, w: u32, h: u32) -> bool
    ensures { result ≡ (nat_lt w (least_side kind) || nat_lt h (least_side kind)) }
{
    match kind {
        PlaneKind::Mosaic(_) => w < 2 || h < 2,
        PlaneKind::Rgb => w < 1 || h < 1,
    }
}

// Whether the sides belong to a picture that is read: `Ok` says that they do.
fn check_sides(total: usize, kind: PlaneKind, width: Number, height: Number) -> Result<(), PnmFault>
    requires width { width.left ≤ total }
    requires height { height.left ≤ total }
    requires wide { width.value ≤ 16384 }
    requires high { height.value ≤ 16384 }
    ensures { MatchResult result
        (λ _. HasSides total kind width.entry.value height.entry.value width.entry.left height.entry.left)
        (λ f. sides_fault total kind width.entry.value height.entry.value width.entry.left height.entry.left ≡ Some f) }
{
    if width.value * height.value > MOST_PIXELS {
        return Err(fault_at(PnmKind::TooLarge, total, height.left));
    }
    if is_small(kind, width.value, height.value) {
        return Err(fault_at(PnmKind::TooSmall, total, width.left));
    }
    Ok(())
}

// How many bytes a sample has, by the greatest one.
pub(crate) fn sample_len(top: u32) -> usize
    ensures len { result ≡ bytes_of_sample top }
    ensures few { result ≤ 2 }
{
    if top < 256 { 1 } else { 2 }
}

// The raster behind the white byte that ends the header.
fn raster_behind<'a>(total: usize, text: &'a [u8], need: usize) -> Result<&'a [u8], PnmFault>
    requires { length text.now ≤ total }
    ensures { MatchResult result (λ r. HasRaster total text.now need r.now) (λ f. raster_fault total text.now need ≡ Some f) }
{
    if !begins_white(text) {
        return Err(fault_at(PnmKind::BadHeader, total, text.len()));
    }
    let rest = skip(text, 1);
    if rest.len() < need {
        return Err(fault_at(PnmKind::Short, total, 0));
    }
    Ok(front(rest, need))
}

// What the bytes of a picture say of it, or their first fault.
pub(crate) fn header_of<'a>(bytes: &'a [u8], cfa: Option<Cfa>) -> Result<Header<'a>, PnmFault>
    ensures { MatchResult result (λ h. IsHeader bytes.now cfa h.kind h.w h.h h.samples h.top h.raster.now) (λ f. fault_of bytes.now cfa ≡ Some f) }
{
    let total = bytes.len();
    let magic = magic_of(bytes)?;
    let kind = kind_read(magic, cfa);
    let samples = samples_read(magic);
    let text = skip(bytes, 2);
    let width = number_due(total, text, SIDE, PnmKind::BadHeader, PnmKind::TooLarge)?;
    let height = number_due(
        total,
        width.rest,
        SIDE,
        PnmKind::BadHeader,
        PnmKind::TooLarge,
    )?;
    check_sides(total, kind, width, height)?;
    let greatest = number_due(
        total,
        height.rest,
        MOST_TOP,
        PnmKind::BadMaxval,
        PnmKind::BadMaxval,
    )?;
    let (w, h, top) = (width.value, height.value, greatest.value);
    let need = h as usize * w as usize * samples * sample_len(top);
    let raster = raster_behind(total, greatest.rest, need)?;
    Ok(Header {
        kind,
        w,
        h,
        samples,
        top,
        raster,
    })
}
