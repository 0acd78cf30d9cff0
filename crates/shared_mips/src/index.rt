//! The list of levels that have a slot, with its story.
ghost use Rattle.std.specs.Prelude.{◌≡◌, ◌<◌, ◌≤◌, ◌∷◌, [], ◌++◌, length, vec_capacity, Some, None, IfOk, IfSome, Ok};
ghost use Rattle.std.specs.Arc.{arc_value};
ghost use Rattle.level_store.specs.Levels.{reached_answer};
ghost use Rattle.mip_cache.specs.Slots.{IsLevel};

use crate::event::MipEvent;
use level_store::ReachAnswer;
use mip_cache::{MipState, Reached, ReadPass, WritePass};
use modules_raw::Source;
use std::alloc::{AllocError, Global};
use std::marker::Model;
use std::sync::Arc;
use turn_lock::Told;

// The room that is made for one element: its own place, and two more for each of 16 passes, to end its hold.
const ROOM: usize = 33;

/// Which levels of a source have a slot, who writes them and how many read them, and the story of this.
/// Contracts see it as the source, the number of slots and the story.
#[derive(Drop)]
pub struct MipIndex {
    source: Arc<Source>,
    state: MipState,
    story: Vec<MipEvent>,
}

impl Model for MipIndex {
    ghost use Rattle.std.specs.Arc.{arc_value};
    ghost use Rattle.std.specs.Vec.{vec_capacity};
    ghost use Rattle.shared_mips.specs.Index.{Sheet, IsIndex};

    ghost Value = { Sheet };

    ghost view = { λ m. record { source = arc_value m.source; slots = m.state.slots; story = m.story.items } };

    ghost invariant = { λ m. IsIndex m.state m.story.items (vec_capacity m.story) };
}

/// What never changes of an index: its source, and how many slots there are. It is for contracts alone.
pub struct MipName {
    pub source: Source,
    pub slots: u32,
}

/// The mark is the length of the story.
impl Told for MipIndex {
    ghost use Rattle.std.specs.Prelude.{length};
    ghost use Rattle.shared_mips.specs.Story.{worker_of};

    type Name = MipName;

    type Entry = MipEvent;

    ghost name = { λ m. record { source = m.source; slots = m.slots } };

    ghost story = { λ m. m.story };

    ghost bearer = { λ e. worker_of e };

    ghost mark = { λ m. length m.story };

    ghost most = { λ _. 18446744073709551615 };

    fn mark_now(&self) -> u64 {
        self.story.len() as u64
    }
}

impl MipIndex {
    ghost use Rattle.level_store.specs.declared.hold.Hold.TheVariants.{Writes, Reads};
    ghost use Rattle.shared_mips.specs.declared.event.MipEvent.TheVariants.{Demote, Abandon, Leave};
    ghost use Rattle.shared_mips.specs.Story.{hold_in, Replays};
    ghost use Rattle.shared_mips.specs.Index.{reach_adds, evict_adds};

    /// No level has a slot, and nothing happened yet.
    pub(crate) fn new(
        alloc: Global,
        source: Arc<Source>,
        slots: u32,
    ) -> Result<MipIndex, AllocError>
        requires some_slots { 1 ≤ slots }
        requires few_slots { slots ≤ 4 }
        ensures { IfOk result (λ m. m ≡ record { source = arc_value source; slots = slots; story = [] }) }
    {
        let state = MipState::new(alloc, slots)?;
        Ok(MipIndex {
            source,
            state,
            story: Vec::new(alloc),
        })
    }

    /// The worker reaches for the level. Room is made for the elements that end its hold.
    pub(crate) fn reach(&mut self, worker: u32, level: u8) -> Result<ReachAnswer, AllocError>
        requires worker { worker < 16 }
        requires level { IsLevel level }
        requires bare { hold_in worker self.old.story ≡ None }
        ensures story { self.new ≡ record self.old { story = self.old.story ++ reach_adds worker level result } }
        ensures replays { Replays self.new.slots self.new.story }
    {
        self.story.reserve(ROOM)?;
        let answer = told(self.state.reach(worker, level));
        self.story.push_reserved(MipEvent::Reach {
            worker,
            level,
            answer,
        });
        Ok(answer)
    }

    /// The level that the worker writes is written, and in the same step its writer is its one reader.
    pub(crate) fn demote(&mut self, worker: u32, level: u8)
        requires worker { worker < 16 }
        requires holds { hold_in worker self.old.story ≡ Some (Writes level) }
        ensures story { self.new ≡ record self.old { story = self.old.story ++ Demote worker level ∷ [] } }
        ensures replays { Replays self.new.slots self.new.story }
    {
        self.state.demote(WritePass::of(worker, level)).spend();
        self.story.push_reserved(MipEvent::Demote { worker, level });
    }

    /// The level that the worker writes has no slot any more.
    pub(crate) fn abandon(&mut self, worker: u32, level: u8)
        requires worker { worker < 16 }
        requires holds { hold_in worker self.old.story ≡ Some (Writes level) }
        ensures story { self.new ≡ record self.old { story = self.old.story ++ Abandon worker level ∷ [] } }
        ensures replays { Replays self.new.slots self.new.story }
    {
        self.state.abandon(WritePass::of(worker, level));
        self.story
            .push_reserved(MipEvent::Abandon { worker, level });
    }

    /// The worker doesn't read the level any more.
    pub(crate) fn leave(&mut self, worker: u32, level: u8)
        requires worker { worker < 16 }
        requires holds { hold_in worker self.old.story ≡ Some (Reads level) }
        ensures story { self.new ≡ record self.old { story = self.old.story ++ Leave worker level ∷ [] } }
        ensures replays { Replays self.new.slots self.new.story }
    {
        self.state.leave(ReadPass::of(level));
        self.story.push_reserved(MipEvent::Leave { worker, level });
    }

    /// Frees the slot of a level that is written and that nobody reads, where there is one.
    pub(crate) fn evict_one(&mut self, worker: u32) -> Result<Option<u8>, AllocError>
        requires { worker < 16 }
        ensures story { self.new ≡ record self.old { story = self.old.story ++ evict_adds worker result } }
        ensures replays { Replays self.new.slots self.new.story }
        ensures range { IfOk result (λ answer. IfSome answer (λ level. IsLevel level)) }
    {
        self.story.reserve(ROOM)?;
        let answer = self.state.evict_one();
        self.story.push_reserved(MipEvent::Evict { worker, answer });
        Ok(answer)
    }
}

// What the worker is told. Its pass goes: the story says what the worker holds.
fn told(reached: Reached) -> ReachAnswer
    ensures { result ≡ reached_answer reached }
{
    match reached {
        Reached::Read(pass) => {
            pass.spend();
            ReachAnswer::Read
        }
        Reached::Pending { writer } => ReachAnswer::Pending { writer },
        Reached::Write(pass) => {
            pass.spend();
            ReachAnswer::Write
        }
        Reached::Full => ReachAnswer::Full,
    }
}
