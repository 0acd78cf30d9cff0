use crate::items::Item;
use params::Module;

/// A change of a history.
#[derive(Clone, Copy, Debug, PartialEq, Eq)]
pub enum Edit {
    /// New settings of an instance. Items past the end go; the top item is overwritten where it is of
    /// the same instance.
    Set(Item),
    /// Only the first `end` items count.
    Select {
        end: u32,
    },
    /// Items past the end go, and of each instance all but the last.
    Compress,
    /// Puts an instance into the order at a place.
    Add {
        module: Module,
        instance: u8,
        place: u32,
    },
    /// Takes an instance out of the order, and all its items out of the stack.
    Delete {
        module: Module,
        instance: u8,
    },
    /// Moves an instance to a place of the order.
    Move {
        module: Module,
        instance: u8,
        place: u32,
    },
}
