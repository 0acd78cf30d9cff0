//! The levels that have a slot, and who holds them.
ghost use Rattle.std.specs.Prelude.{◌≡◌, ◌<◌, ◌≤◌, ℕ, length, IsTrue, IfOk, IfSome, IsNone, Some, None};
ghost use Rattle.mip_cache.specs.Mipmaps.{Mipmaps, KeepsOthers, held_at, evict_answer};
ghost use Rattle.mip_cache.specs.Slots.{IsLevel};
ghost use Rattle.level_store.specs.Agreement.{Agree, SameReady};

use crate::hold::{Hold, ReachAnswer};
use crate::holds::{HoldPass, Holds};
use mip_cache::{MipState, Reached};
use std::alloc::{AllocError, Global};
use std::marker::Model;

/// The levels that have a slot, and what each worker holds of them.
pub(crate) struct Levels {
    mips: MipState,
    holds: Holds,
}

impl Model for Levels {
    ghost use Rattle.level_store.specs.Levels.{LevelsSeen};

    ghost Value = { LevelsSeen };

    ghost use Rattle.level_store.specs.Agreement.{Agree};

    ghost view = { λ s. record { mips = s.mips; holds = s.holds } };

    ghost invariant = { λ s. Agree s.mips.entries s.holds };
}

impl Levels {
    ghost use Rattle.level_store.specs.declared.hold.Hold.TheVariants.{Writes};
    ghost use Rattle.level_store.specs.Levels.{hold_of, is_writing, is_reading, start_levels, reach_got, reached_answer, reach_levels, demote_levels, abandon_levels, leave_levels, evict_levels};

    /// No level has a slot, and no worker holds one.
    pub(crate) fn start(alloc: Global, slots: u32, workers: u32) -> Result<Levels, AllocError>
        requires some_slots { 1 ≤ slots }
        requires few_slots { slots ≤ 4 }
        requires few_workers { workers ≤ 4 }
        ensures { IfOk result (λ s. s ≡ start_levels slots workers) }
    {
        let mips = MipState::new(alloc, slots)?;
        let holds = Holds::none(alloc, workers)?;
        Ok(Levels { mips, holds })
    }

    /// What the worker holds.
    pub(crate) fn hold(&self, worker: u32) -> Option<Hold>
        ensures hold { result ≡ hold_of self.now worker }
        ensures agree { Agree self.now.mips.entries self.now.holds }
    {
        self.holds.at(worker)
    }

    /// Reaches for a level.
    pub(crate) fn reach(&mut self, worker: u32, level: u8) -> ReachAnswer
        requires seat { worker < length self.old.holds }
        requires bare { hold_of self.old worker ≡ None }
        requires some_level { 1 ≤ level }
        requires few_levels { level ≤ 8 }
        ensures answer { result ≡ reached_answer (reach_got worker level self.old) }
        ensures levels { self.new ≡ reach_levels worker level self.old }
        ensures same { SameReady self.old.mips.entries self.new.mips.entries }
    {
        match self.mips.reach(worker, level) {
            Reached::Read(pass) => {
                self.holds.put(worker, HoldPass::Read(pass));
                ReachAnswer::Read
            }
            Reached::Pending { writer } => ReachAnswer::Pending { writer },
            Reached::Write(pass) => {
                self.holds.put(worker, HoldPass::Write(pass));
                ReachAnswer::Write
            }
            Reached::Full => ReachAnswer::Full,
        }
    }

    /// The level that the worker writes is written, and the worker reads it.
    pub(crate) fn demote(&mut self, worker: u32)
        requires { IsTrue (is_writing (hold_of self.old worker)) }
        ensures levels { self.new ≡ demote_levels worker self.old }
    {
        let pass = self.holds.take_write(worker);
        let read = self.mips.demote(pass);
        self.holds.put(worker, HoldPass::Read(read));
    }

    /// The level that the worker writes has no slot any more.
    pub(crate) fn abandon(&mut self, worker: u32)
        requires { IsTrue (is_writing (hold_of self.old worker)) }
        ensures levels { self.new ≡ abandon_levels worker self.old }
        ensures same { SameReady self.old.mips.entries self.new.mips.entries }
    {
        self.mips.abandon(self.holds.take_write(worker));
    }

    /// The worker doesn't read its level any more.
    pub(crate) fn leave(&mut self, worker: u32)
        requires { IsTrue (is_reading (hold_of self.old worker)) }
        ensures levels { self.new ≡ leave_levels worker self.old }
        ensures same { SameReady self.old.mips.entries self.new.mips.entries }
    {
        self.mips.leave(self.holds.take_read(worker));
    }

    /// Frees the slot of a level that is written and that nobody reads.
    pub(crate) fn evict(&mut self) -> Option<u8>
        ensures answer { result ≡ evict_answer self.old.mips.entries }
        ensures levels { self.new ≡ evict_levels self.old }
        ensures range { IfSome result (λ level. IsLevel level) }
        ensures gone { IfSome result (λ level. held_at level self.new.mips.entries ≡ None) }
        ensures others { IfSome result (λ level. KeepsOthers level self.old.mips.entries self.new.mips.entries) }
    {
        self.mips.evict_one()
    }
}

impl Drop for Levels {
    // Spends the passes.
    fn drop(self) {
        let Levels { mut mips, holds } = self;
        give_up_all(&mut mips, holds);
    }
}

fn give_up_all(mips: &mut MipState, mut holds: Holds)
    requires { Agree mips.old.entries holds }
{
    while let Some(seat) = holds.pop() {
        match seat {
            None => {}
            Some(HoldPass::Write(pass)) => mips.abandon(pass),
            Some(HoldPass::Read(pass)) => mips.leave(pass),
        }
    }
    holds.destroy_empty();
}
