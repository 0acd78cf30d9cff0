ghost use Rattle.std.specs.Prelude.{◌≡◌, IfOk};

use pipe_nodes::Prefix;
use px::Region;
use stage_cache::Kept;
use std::alloc::{AllocError, Global};
use std::marker::Model;

/// The prefixes that a find asks for, each with the region that is to be covered.
#[derive(Drop)]
pub struct AskedStages {
    items: Vec<(Prefix, Region)>,
}

impl Model for AskedStages {
    ghost use Rattle.std.specs.Prelude.{List};
    ghost use Rattle.stage_cache.specs.Stages.{Stage};

    ghost Value = { List Stage };

    ghost view = { λ a. a.items.items };
}

impl AskedStages {
    // The same list once more.
    pub(crate) fn of(alloc: Global, list: &[(Prefix, Region)]) -> Result<AskedStages, AllocError>
        ensures { IfOk result (λ a. a ≡ list.now) }
    {
        let mut items = Vec::with_capacity(alloc, list.len())?;
        for asked in list {
            items.push_reserved((asked.0.share()?, asked.1));
        }
        Ok(AskedStages { items })
    }
}

/// A call on a shared stage cache that didn't run out of memory, with the number of the pass that made it.
#[derive(Drop)]
pub enum StageEvent {
    /// A find, and the place in its list of what it found.
    Find {
        worker: u32,
        list: AskedStages,
        answer: Option<usize>,
    },
    /// A stage that was to be kept, by its prefix and its region.
    Keep {
        worker: u32,
        prefix: Prefix,
        region: Region,
        answer: Kept,
    },
}
