ghost use Rattle.std.specs.Prelude.{◌≡◌, ℕ, List, take};
ghost use Rattle.json_form.specs.Text.{text_of, IsRead};

use serde_json::Value;
use serde_json::error::Category;
use std::alloc::Global;
use thiserror::Error;

/// How many bytes a text has at most.
pub const LONGEST: usize = 4_194_304;

/// Why a text gives no value.
#[derive(Debug, Drop, Error)]
pub enum TextEnd {
    /// The text has over 4,194,304 bytes.
    #[error("the text is too long")]
    TooLong,
    /// The text is no JSON, or nests lists and objects more than 127 deep.
    #[error("the text is no JSON")]
    Text,
    #[error("out of memory")]
    Memory,
}

fn text_of(alloc: Global, bytes: &[u8]) -> Result<Value, TextEnd>
    ensures { IsRead result (text_of bytes.now) }
{
    if bytes.len() > LONGEST {
        return Err(TextEnd::TooLong);
    }
    match Value::from_slice(alloc, bytes) {
        Ok(value) => Ok(value),
        Err(refusal) => match refusal.classify() {
            Category::Memory => Err(TextEnd::Memory),
            _ => Err(TextEnd::Text),
        },
    }
}

/// The JSON value (RFC 8259) of a text of at most 4,194,304 bytes. `TooLong` comes exactly where there
/// are more, else `Text` exactly where the bytes are no JSON, or nest more than 127 deep. Of a repeated
/// key the last value counts. The front of a longer text, with one byte above the limit, is refused as
/// the whole text is.
pub fn value_of(alloc: Global, bytes: &[u8]) -> Result<Value, TextEnd>
    ensures value { IsRead result (text_of bytes.now) }
    ensures front { (text : List ℕ) → take 4194305 text ≡ bytes.now → IsRead result (text_of text) }
{
    text_of(alloc, bytes)
}
