/// How a worker holds a mipmap level, 1 to 8.
#[derive(Clone, Copy, Debug, PartialEq, Eq)]
pub enum Hold {
    /// The worker alone is to make the level's plane.
    Writes { level: u8 },
    /// The worker is one of the level's readers.
    Reads { level: u8 },
}

/// What a worker gets that reaches for a level.
#[derive(Clone, Copy, Debug, PartialEq, Eq)]
pub enum ReachAnswer {
    /// The level is written, and the worker reads it now.
    Read,
    /// That worker is writing the level, and this one holds nothing.
    Pending { writer: u32 },
    /// The level had no slot and has one now, and this worker writes it.
    Write,
    /// The level has no slot and none is free, and this worker holds nothing.
    Full,
}
