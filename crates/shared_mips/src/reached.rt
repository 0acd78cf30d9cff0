use crate::holds::{ReadHold, WriteHold};

/// What a pass gets that reaches for a level.
pub enum SharedReached<'a> {
    /// The level is written, and the pass reads it.
    Read(ReadHold<'a>),
    /// That worker is writing the level.
    Pending { writer: u32 },
    /// The level had no slot and has one now, for the pass to write it.
    Write(WriteHold<'a>),
    /// The level has no slot, and none is free.
    Full,
}
