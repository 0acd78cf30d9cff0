ghost use Rattle.std.specs.List.{filter};
ghost use Rattle.std.specs.Prelude.{◌≡◌, ◌≢◌, ◌<◌, ◌≤◌, ◌↔◌, ◌-◌, ℕ, [], Some, None, length, IfOk, IfSome, IsNone};

use crate::entry::{Entry, Held};
use crate::lists::{held_at, last_free, put_first, set_held, take_out};
use crate::passes::{Reached, ReadPass, WritePass};
use std::alloc::{AllocError, Global};
use std::marker::Model;

/// Which levels of a source have a slot, who writes them and how many read them, the level that was last
/// answered `Read` or `Write` first. There are 1 to 4 slots, and a level has one at most.
#[derive(Debug, Drop)]
pub struct MipState {
    slots: u32,
    entries: Vec<Entry>,
}

impl Model for MipState {
    ghost use Rattle.mip_cache.specs.Mipmaps.{Mipmaps};

    ghost Value = { Mipmaps };

    ghost use Rattle.std.specs.Prelude.{◌≤◌};
    ghost use Rattle.std.specs.Vec.{vec_capacity};
    ghost use Rattle.mip_cache.specs.Slots.{FitSlots};

    ghost view = { λ m. record { slots = m.slots; entries = m.entries.items } };

    ghost invariant = { λ m. FitSlots m.slots m.entries.items × (m.slots ≤ vec_capacity m.entries) };
}

impl MipState {
    ghost use Rattle.mip_cache.specs.declared.entry.Held.TheVariants.{Writing, Ready};
    ghost use Rattle.mip_cache.specs.declared.passes.Reached.TheVariants.{Pending, Full};
    ghost use Rattle.mip_cache.specs.Mipmaps.{held_at, readers_at, reach_answer, after_reach, after_demote, after_abandon, after_leave, is_free, evict_answer, after_evict, KeepsOthers};
    ghost use Rattle.mip_cache.specs.Passes.{read_pass};
    ghost use Rattle.mip_cache.specs.Slots.{FitSlots};

    /// No level has a slot. All room is taken here: no later call takes memory.
    pub fn new(alloc: Global, slots: u32) -> Result<MipState, AllocError>
        requires some_slots { 1 ≤ slots }
        requires few_slots { slots ≤ 4 }
        ensures { IfOk result (λ m. m ≡ record { slots = slots; entries = [] }) }
    {
        let entries = Vec::with_capacity(alloc, slots as usize)?;
        Ok(MipState { slots, entries })
    }

    /// The levels that have a slot, the one last answered `Read` or `Write` first.
    pub fn entries(&self) -> &[Entry]
        ensures entries { result.now ≡ self.now.entries }
        ensures fit { FitSlots self.now.slots self.now.entries }
    {
        &self.entries
    }

    /// Reaches for a level, 1 to 8. Where it is written, the worker reads it, and it is at the front. Where
    /// a worker is writing it, nothing changes. Where it has no slot, it gets a free one, at the front, for
    /// the worker to write it; where no slot is free, nothing changes.
    pub fn reach(&mut self, worker: u32, level: u8) -> Reached
        requires some_level { 1 ≤ level }
        requires few_levels { level ≤ 8 }
        requires other { held_at level self.old.entries ≢ Some (Writing worker) }
        requires few_readers { readers_at level self.old.entries < 4294967295 }
        ensures answer { result ≡ reach_answer self.old.slots worker level self.old.entries }
        ensures entries { self.new ≡ record self.old { entries = after_reach self.old.slots worker level self.old.entries } }
        ensures others { KeepsOthers level self.old.entries self.new.entries }
        ensures pending { (writer : ℕ) → result ≡ Pending writer ↔ held_at level self.old.entries ≡ Some (Writing writer) }
        ensures full { (result ≡ Full) ↔ ((held_at level self.old.entries ≡ None) × (self.old.slots ≤ length self.old.entries)) }
    {
        match held_at(&self.entries, level) {
            Some(Held::Writing { worker: writer }) => Reached::Pending { writer },
            Some(Held::Ready { readers }) => {
                let held = Held::Ready {
                    readers: readers + 1,
                };
                take_out(&mut self.entries, level);
                put_first(&mut self.entries, Entry { level, held });
                Reached::Read(ReadPass::of(level))
            }
            None if self.entries.len() < self.slots as usize => {
                let held = Held::Writing { worker };
                put_first(&mut self.entries, Entry { level, held });
                Reached::Write(WritePass::of(worker, level))
            }
            None => Reached::Full,
        }
    }

    /// The level is written, and in the same step its writer is its one reader. Takes no memory.
    pub fn demote(&mut self, pass: WritePass) -> ReadPass
        requires { held_at pass.level self.old.entries ≡ Some (Writing pass.worker) }
        ensures answer { result ≡ read_pass pass.level }
        ensures entries { self.new ≡ record self.old { entries = after_demote pass.level self.old.entries } }
        ensures held { held_at pass.level self.new.entries ≡ Some (Ready 1) }
        ensures others { KeepsOthers pass.level self.old.entries self.new.entries }
    {
        let level = pass.spend();
        set_held(&mut self.entries, level, Held::Ready { readers: 1 });
        ReadPass::of(level)
    }

    /// The level isn't written after all, and has no slot any more. Takes no memory.
    pub fn abandon(&mut self, pass: WritePass)
        requires { held_at pass.level self.old.entries ≡ Some (Writing pass.worker) }
        ensures entries { self.new ≡ record self.old { entries = after_abandon pass.level self.old.entries } }
        ensures held { held_at pass.level self.new.entries ≡ None }
        ensures others { KeepsOthers pass.level self.old.entries self.new.entries }
    {
        take_out(&mut self.entries, pass.spend());
    }

    /// The level has one reader fewer. Takes no memory.
    pub fn leave(&mut self, pass: ReadPass)
        requires { 1 ≤ readers_at pass.level self.old.entries }
        ensures entries { self.new ≡ record self.old { entries = after_leave pass.level self.old.entries } }
        ensures held { held_at pass.level self.new.entries ≡ Some (Ready (readers_at pass.level self.old.entries - 1)) }
        ensures others { KeepsOthers pass.level self.old.entries self.new.entries }
    {
        let level = pass.spend();
        let Some(Held::Ready { readers }) = held_at(&self.entries, level) else {
            unreachable!();
        };
        set_held(
            &mut self.entries,
            level,
            Held::Ready {
                readers: readers - 1,
            },
        );
    }

    /// Frees the slot of the last level in the list that is written and has no reader; `None` exactly where
    /// there is none. Takes no memory.
    pub fn evict_one(&mut self) -> Option<u8>
        ensures answer { result ≡ evict_answer self.old.entries }
        ensures entries { self.new ≡ record self.old { entries = after_evict self.old.entries } }
        ensures unread { IfSome result (λ level. held_at level self.old.entries ≡ Some (Ready 0)) }
        ensures gone { IfSome result (λ level. held_at level self.new.entries ≡ None) }
        ensures others { IfSome result (λ level. KeepsOthers level self.old.entries self.new.entries) }
        ensures none { IsNone result ↔ (filter is_free self.old.entries ≡ []) }
    {
        let level = last_free(&self.entries)?;
        take_out(&mut self.entries, level);
        Some(level)
    }
}
