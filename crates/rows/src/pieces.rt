ghost use Rattle.std.specs.Prelude.{◌≡◌, ◌+◌, ◌*◌, length, OnOk, vec_len};

use crate::fault::RowsEnd;
use crate::notation::unescaped;
use crate::values::Values;
use std::alloc::{AllocError, Global};

/// The bytes of a quoted text.
pub(crate) fn quoted_bytes(alloc: Global, text: &str) -> Result<Vec<u8>, RowsEnd> {
    let mut bytes = Vec::new(alloc);
    let mut escaped = false;
    for byte in text.bytes() {
        if escaped {
            bytes.push(unescaped(byte).ok_or(RowsEnd::Form)?)?;
            escaped = false;
        } else if byte == b'\\' {
            escaped = true;
        } else {
            bytes.push(byte)?;
        }
    }
    if escaped {
        return Err(RowsEnd::Form);
    }
    Ok(bytes)
}

/// The bytes of pieces with `+` between them, one after the other.
pub(crate) fn joined(alloc: Global, values: &Values, pieces: &str) -> Result<Vec<u8>, RowsEnd> {
    let mut bytes = Vec::new(alloc);
    for piece in pieces.split('+') {
        let (count, piece) = counted(piece.trim())?;
        match piece.strip_prefix("0x") {
            Some(digits) => add_times(&mut bytes, count, hex::decode(alloc, digits)?.as_slice())?,
            None => add_times(&mut bytes, count, values.find(piece)?)?,
        }
    }
    Ok(bytes)
}

// How many times a piece stands, and what stands then.
fn counted(piece: &str) -> Result<(usize, &str), RowsEnd> {
    match piece.split_once('*') {
        None => Ok((1, piece)),
        Some((count, piece)) => match count.parse::<usize>() {
            Ok(count) => Ok((count, piece)),
            Err(_) => Err(RowsEnd::Form),
        },
    }
}

// Adds the piece to the bytes this many times.
fn add_times(bytes: &mut Vec<u8>, count: usize, piece: &[u8]) -> Result<(), AllocError>
    ensures { OnOk result (vec_len bytes.new ≡ vec_len bytes.old + count * length piece.now) }
{
    for _ in 0..count {
        bytes.extend_from_slice(piece)?;
    }
    Ok(())
}
