//! Bytes as the table writes them: texts with escapes, and bytes in hexadecimal.
ghost use Rattle.std.specs.Prelude.{◌≤◌, length};

use std::alloc::{AllocError, Global};
use std::fmt::Write;

/// The most bytes of a raster or another file that are printed one by one.
const MOST: usize = 64;

/// The byte that stands for this letter behind a backslash.
pub(crate) fn unescaped(letter: u8) -> Option<u8> {
    match letter {
        b'n' => Some(b'\n'),
        b'r' => Some(b'\r'),
        b't' => Some(b'\t'),
        b'\\' => Some(b'\\'),
        _ => None,
    }
}

// Whether a text shows the byte.
fn is_text(byte: u8) -> bool {
    matches!(byte, b'\n' | b'\r' | b'\t' | 32..127)
}

// The byte as a text shows it, behind what is written.
fn write_byte(text: &mut String, byte: u8) -> Result<(), AllocError> {
    match byte {
        b'\n' => text.push_str("\\n"),
        b'\r' => text.push_str("\\r"),
        b'\t' => text.push_str("\\t"),
        b'\\' => text.push_str("\\\\"),
        _ => text.push(char::from(byte)),
    }
}

// How many bytes the first line has, with its end.
fn line_len(bytes: &[u8]) -> usize
    ensures { result ≤ length bytes.now }
{
    match bytes.iter().position(|byte| *byte == b'\n') {
        Some(place) => place + 1,
        None => bytes.len(),
    }
}

// How many bytes the header of a picture has, which is three lines.
fn header_len(bytes: &[u8]) -> usize
    ensures { result ≤ length bytes.now }
{
    let magic = line_len(bytes);
    let sides = magic + line_len(&bytes[magic..]);
    sides + line_len(&bytes[sides..])
}

// How many bytes at the front are shown as text: of a picture its header, else all up to the first byte
// that is no text.
fn text_len(bytes: &[u8]) -> usize
    ensures { result ≤ length bytes.now }
{
    if bytes.starts_with(b"P6\n") {
        return header_len(bytes);
    }
    match bytes.iter().position(|byte| !is_text(*byte)) {
        Some(place) => place,
        None => bytes.len(),
    }
}

// The sum of the bytes, which is the whole sum of all that a memory holds.
fn sum_of(bytes: &[u8]) -> u64 {
    bytes
        .iter()
        .fold(0u64, |sum, byte| sum.saturating_add(u64::from(*byte)))
}

// Bytes that are no text: in hexadecimal, or where they are many as their count and their sum.
fn write_rest(text: &mut String, alloc: Global, rest: &[u8]) -> Result<(), AllocError> {
    if rest.len() > MOST {
        let sum = sum_of(rest);
        let count = rest.len();
        return write!(text, " and {count} bytes of sum {sum}");
    }
    let digits = hex::encode(alloc, rest)?;
    write!(text, " 0x{digits}")
}

/// Writes bytes as a text and what follows it.
pub(crate) fn write_bytes(
    text: &mut String,
    alloc: Global,
    bytes: &[u8],
) -> Result<(), AllocError> {
    let (front, rest) = bytes.split_at(text_len(bytes));
    text.push('\'')?;
    for byte in front {
        write_byte(text, *byte)?;
    }
    text.push('\'')?;
    if rest.is_empty() {
        return Ok(());
    }
    write_rest(text, alloc, rest)
}
