use level_store::ReachAnswer;

/// What a pass did to the index, an element of its story. The worker is the number of the pass, and a level
/// is 1 to 8.
#[derive(Clone, Copy, Debug, PartialEq, Eq)]
pub enum MipEvent {
    /// The worker reached for the level.
    Reach {
        worker: u32,
        level: u8,
        answer: ReachAnswer,
    },
    /// The level that the worker wrote is written, and the worker is its one reader.
    Demote {
        worker: u32,
        level: u8,
    },
    /// The worker doesn't write the level after all.
    Abandon {
        worker: u32,
        level: u8,
    },
    /// The worker doesn't read the level any more.
    Leave {
        worker: u32,
        level: u8,
    },
    /// The worker freed the slot of a level that nobody read, or there was none.
    Evict {
        worker: u32,
        answer: Option<u8>,
    },
}
