ghost use Rattle.std.specs.Prelude.{◌≡◌, ◌+◌, ◌<◌, ◌%◌, true, IfOk, IfSome};
ghost use Rattle.std.specs.Arc.{arc_value};
ghost use Rattle.counted_slot.specs.Counting.{readers};
ghost use Rattle.mip_cache.specs.Slots.{IsLevel};
ghost use Rattle.shared_mips.specs.Cells.{spot, is_filled};

use crate::holds::{ReadHold, WriteHold};
use crate::tag::{LevelPlane, Tag};
use counted_slot::{Claim, Counted, FREE, MOST_READERS, ONE_READER, PRESENT, TAKEN};
use modules_raw::Source;
use std::alloc::{AllocError, Global};
use std::marker::Model;
use std::sync::{Arc, Wait};
use std::thread;

/// The cells of the levels 1 to 8 of a source. Each has no plane, or the whole of its level, with one writer
/// or with readers. Contracts see them as the source.
#[derive(Drop)]
pub(crate) struct Cells {
    source: Arc<Source>,
    cells: Vec<Counted<Option<LevelPlane>>>,
}

impl Model for Cells {
    ghost use Rattle.std.specs.Arc.{arc_value};
    ghost use Rattle.px.specs.Cut.{Cut};
    ghost use Rattle.shared_mips.specs.Cells.{IsRow};

    ghost Value = { Cut };

    ghost view = { λ c. arc_value c.source };

    ghost invariant = { λ c. IsRow (arc_value c.source) c.cells.items 8 };
}

impl Cells {
    /// Cells without planes.
    pub(crate) fn new(alloc: Global, source: Arc<Source>) -> Result<Cells, AllocError>
        ensures { IfOk result (λ c. c ≡ arc_value source) }
    {
        let mut cells = Vec::with_capacity(alloc, 8)?;
        for k in 0..8_u8 {
            let tag = Tag {
                source: Arc::try_clone(&source)?,
                level: k + 1,
            };
            cells.push_reserved(Counted::new(None, &tag));
        }
        Ok(Cells { source, cells })
    }

    // The cell of a level.
    fn cell(&self, level: u8) -> &Counted<Option<LevelPlane>>
        requires { IsLevel level }
        ensures { result.now ≡ spot self.now level }
    {
        &self.cells[level as usize - 1]
    }

    /// The level's cell, for its one writer. It waits until nobody has it and it has no plane.
    pub(crate) fn claim<R: Wait>(&self, rt: &R, level: u8) -> WriteHold<'_>
        requires { IsLevel level }
        ensures { result ≡ spot self.now level }
    {
        let cell = self.cell(level);
        for _ in rt.forever() {
            let (found, claim) = cell.turn(FREE, TAKEN);
            if found == FREE {
                return WriteHold { level, claim };
            }
            claim.done();
            thread::yield_now();
        }
        unreachable!()
    }

    /// The level's cell, for one reader more. It waits until the cell has a plane.
    pub(crate) fn enter<R: Wait>(&self, rt: &R, level: u8) -> ReadHold<'_>
        requires { IsLevel level }
        ensures { result ≡ spot self.now level }
    {
        let cell = self.cell(level);
        for _ in rt.forever() {
            if let Some(claim) = try_enter(cell) {
                return ReadHold { level, claim };
            }
            thread::yield_now();
        }
        unreachable!()
    }

    /// Takes the plane out of the cell of a level that was chosen to go, and says the level. It waits until
    /// nobody reads the cell.
    pub(crate) fn clear<R: Wait>(&self, rt: &R, chosen: Chosen) -> u8
        ensures { result ≡ chosen.level }
    {
        let level = chosen.spend();
        let cell = self.cell(level);
        for _ in rt.forever() {
            let (found, claim) = cell.turn(PRESENT, TAKEN);
            if found == PRESENT {
                return WriteHold { level, claim }.empty().spend();
            }
            claim.done();
            thread::yield_now();
        }
        unreachable!()
    }
}

/// A level that a turn chose to go. Only the clearing of its cell spends it.
pub(crate) struct Chosen {
    level: u8,
    ghost range: { IsLevel level },
}

impl Chosen {
    ghost use Rattle.shared_mips.specs.Chosen.{chosen_level};

    /// The choice of the level that a turn answered.
    pub(crate) fn of(answer: Result<Option<u8>, AllocError>) -> Result<Option<Chosen>, AllocError>
        requires { IfOk answer (λ gone. IfSome gone (λ level. IsLevel level)) }
        ensures { chosen_level result ≡ answer }
    {
        match answer {
            Ok(Some(level)) => Ok(Some(Chosen { level })),
            Ok(None) => Ok(None),
            Err(e) => Err(e),
        }
    }

    fn spend(self) -> u8
        ensures level { result ≡ self.level }
        ensures range { IsLevel result }
    {
        let Chosen { level } = self;
        level
    }
}

// The state of a cell's word.
fn state_of(word: u64) -> u64
    ensures { result ≡ word % 4 }
{
    word % 4
}

// How many read the cell.
fn reader_count(word: u64) -> u64
    ensures { result ≡ readers word }
{
    word % 0x1_0000_0000 / 4
}

// One reader more, where the cell has a plane and no other thread changes its word in between.
fn try_enter(cell: &Counted<Option<LevelPlane>>) -> Option<Claim<'_, Option<LevelPlane>>>
    ensures { IfSome result (λ c. (c.tag ≡ cell.now) × (c.right ≡ 1) × (is_filled c.value ≡ true)) }
{
    let seen = cell.load();
    if state_of(seen) != PRESENT || reader_count(seen) >= MOST_READERS {
        return None;
    }
    let (found, claim) = cell.turn(seen, seen + ONE_READER);
    if found != seen {
        claim.done();
        return None;
    }
    if claim.get().is_none() {
        claim.leave();
        return None;
    }
    Some(claim)
}
