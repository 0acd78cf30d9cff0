ghost use Rattle.std.specs.Prelude.{◌≡◌, ◌+◌, ◌<◌, ◌≤◌, ℕ, length, replicate, is_some, IsTrue, IfOk, IfErr, IfSome, Some, None};
ghost use Rattle.std.specs.Arc.{arc_value};

use crate::hold::{Hold, ReachAnswer};
use crate::levels::Levels;
use modules_raw::Source;
use px::Plane;
use std::alloc::{AllocError, Global};
use std::marker::Model;
use std::sync::Arc;
use std::thread::Threads;

/// The mipmap levels of one source, for an editor and workers: which levels have a slot, the planes of
/// those that are written, and what each worker holds.
#[derive(Drop)]
pub struct LevelStore {
    source: Arc<Source>,
    levels: Levels,
    planes: Vec<Option<Plane>>,
}

impl Model for LevelStore {
    ghost use Rattle.level_store.specs.Levels.{StoreSeen};

    ghost Value = { StoreSeen };

    ghost use Rattle.std.specs.Arc.{arc_value};
    ghost use Rattle.level_store.specs.Planes.{PlanesStand};

    ghost view = { λ s. record { source = arc_value s.source; levels = s.levels } };

    ghost invariant = { λ s. PlanesStand (arc_value s.source) s.levels.mips.entries s.planes.items };
}

impl LevelStore {
    ghost use Rattle.mip_cache.specs.Mipmaps.{evict_answer};
    ghost use Rattle.level_store.specs.declared.hold.Hold.TheVariants.{Reads};
    ghost use Rattle.level_store.specs.Levels.{hold_of, is_writing, is_reading, start_levels, reach_got, reached_answer, reach_levels, demote_levels, abandon_levels, leave_levels, evict_levels};
    ghost use Rattle.level_store.specs.Planes.{IsOfLevel};

    /// No level of the source has a slot, and no worker holds one. There are 1 to 4 slots, and workers of
    /// the numbers from 0 to `workers`, which is 4 at most.
    pub fn new(
        alloc: Global,
        source: Arc<Source>,
        slots: u32,
        workers: u32,
    ) -> Result<LevelStore, AllocError>
        requires some_slots { 1 ≤ slots }
        requires few_slots { slots ≤ 4 }
        requires few_workers { workers ≤ 4 }
        ensures { IfOk result (λ s. s ≡ record { source = arc_value source; levels = start_levels slots workers }) }
    {
        let levels = Levels::start(alloc, slots, workers)?;
        let planes = no_planes(alloc)?;
        Ok(LevelStore {
            source,
            levels,
            planes,
        })
    }

    /// What the worker holds.
    pub fn hold(&self, worker: u32) -> Option<Hold>
        ensures { result ≡ hold_of self.now.levels worker }
    {
        self.levels.hold(worker)
    }

    /// Reaches for a level, 1 to 8, for a worker that holds none. Where it is written, the worker reads it.
    /// Where a worker is writing it, nothing changes. Where it has no slot, it gets a free one, for the
    /// worker to write it; where no slot is free, nothing changes. Takes no memory.
    pub fn reach(&mut self, worker: u32, level: u8) -> ReachAnswer
        requires seat { worker < length self.old.levels.holds }
        requires bare { hold_of self.old.levels worker ≡ None }
        requires some_level { 1 ≤ level }
        requires few_levels { level ≤ 8 }
        ensures answer { result ≡ reached_answer (reach_got worker level self.old.levels) }
        ensures levels { self.new ≡ record self.old { levels = reach_levels worker level self.old.levels } }
    {
        self.levels.reach(worker, level)
    }

    /// Makes the level that the worker writes, and in the same step its writer is its one reader. Where
    /// memory runs out, all is as before.
    pub fn demote<R: Threads + Sync>(
        &mut self,
        rt: &R,
        alloc: Global,
        worker: u32,
    ) -> Result<(), AllocError>
        requires { IsTrue (is_writing (hold_of self.old.levels worker)) }
        ensures ok { IfOk result (λ _. self.new ≡ record self.old { levels = demote_levels worker self.old.levels }) }
        ensures err { IfErr result (λ _. self.new ≡ self.old) }
    {
        let Some(Hold::Writes { level }) = self.levels.hold(worker) else {
            unreachable!();
        };
        let plane = modules_raw::level(rt, alloc, &self.source, level)?;
        self.planes[level as usize] = Some(plane);
        self.levels.demote(worker);
        Ok(())
    }

    /// The level that the worker writes isn't written after all, and has no slot any more. Takes no memory.
    pub fn abandon(&mut self, worker: u32)
        requires { IsTrue (is_writing (hold_of self.old.levels worker)) }
        ensures { self.new ≡ record self.old { levels = abandon_levels worker self.old.levels } }
    {
        self.levels.abandon(worker);
    }

    /// The level that the worker reads has one reader fewer. Takes no memory.
    pub fn leave(&mut self, worker: u32)
        requires { IsTrue (is_reading (hold_of self.old.levels worker)) }
        ensures { self.new ≡ record self.old { levels = leave_levels worker self.old.levels } }
    {
        self.levels.leave(worker);
    }

    /// Frees the slot of the last level in the list that is written and has no reader, and drops its plane;
    /// `None` where there is none. Takes no memory.
    pub fn evict(&mut self) -> Option<u8>
        ensures answer { result ≡ evict_answer self.old.levels.mips.entries }
        ensures levels { self.new ≡ record self.old { levels = evict_levels self.old.levels } }
    {
        let level = self.levels.evict()?;
        self.planes[level as usize] = None;
        Some(level)
    }

    /// The plane of the level that the worker reads, the whole of it; `None` where it reads none.
    pub fn plane(&self, worker: u32) -> Option<&Plane>
        ensures reads { is_some result ≡ is_reading (hold_of self.now.levels worker) }
        ensures plane { IfSome result (λ p. (level : ℕ) → hold_of self.now.levels worker ≡ Some (Reads level) → IsOfLevel self.now.source level p.now) }
    {
        match self.levels.hold(worker) {
            None => None,
            Some(Hold::Writes { .. }) => None,
            Some(Hold::Reads { level }) => self.planes[level as usize].as_ref(),
        }
    }
}

// A place for the plane of each level from 0 to 8, and no plane.
fn no_planes(alloc: Global) -> Result<Vec<Option<Plane>>, AllocError>
    ensures { IfOk result (λ v. v.items ≡ replicate 9 None) }
{
    let mut planes = Vec::with_capacity(alloc, 9)?;
    for _level in 0..9_u32 {
        planes.push_reserved(None);
    }
    Ok(planes)
}
