/// How a level is held.
#[derive(Clone, Copy, Debug, PartialEq, Eq)]
pub enum Held {
    /// A worker is writing it, and nobody reads it.
    Writing { worker: u32 },
    /// It is written, and has so many readers.
    Ready { readers: u32 },
}

/// A mipmap level that has a slot, and how it is held.
#[derive(Clone, Copy, Debug, PartialEq, Eq)]
pub struct Entry {
    /// 1 to 8: how often the source's sides are halved.
    pub level: u8,
    pub held: Held,
}
