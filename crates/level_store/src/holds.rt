//! The workers' passes, by the workers' numbers.
ghost use Rattle.std.specs.Prelude.{◌≡◌, ◌+◌, ◌<◌, ◌≤◌, [], ◌∷◌, ◌++◌, length, replicate, slice_set, option_map, IsOk, IfOk, IfSome, IsNone, IsTrue, Some, None};

use crate::hold::Hold;
use mip_cache::{ReadPass, WritePass};
use std::alloc::{AllocError, Global};
use std::marker::Model;
use std::mem;

/// A worker's pass.
pub(crate) enum HoldPass {
    Write(WritePass),
    Read(ReadPass),
}

impl HoldPass {
    ghost use Rattle.level_store.specs.Passes.{hold_by};

    fn hold(&self) -> Hold
        ensures { result ≡ hold_by self.now }
    {
        match self {
            HoldPass::Write(pass) => Hold::Writes {
                level: pass.level(),
            },
            HoldPass::Read(pass) => Hold::Reads {
                level: pass.level(),
            },
        }
    }
}

/// What each worker holds, with its pass. It must be emptied by `pop` and then destroyed.
pub(crate) struct Holds {
    passes: Vec<Option<HoldPass>>,
}

impl Model for Holds {
    ghost use Rattle.std.specs.Prelude.{List, Option};
    ghost use Rattle.level_store.specs.declared.hold.Hold.{Hold};

    ghost Value = { List (Option Hold) };

    ghost use Rattle.level_store.specs.Passes.{holds_by, AreOwn};

    ghost view = { λ h. holds_by h.passes.items };

    ghost invariant = { λ h. AreOwn h.passes.items };
}

impl Holds {
    ghost use Rattle.level_store.specs.Levels.{hold_in, is_writing, is_reading};
    ghost use Rattle.level_store.specs.declared.hold.Hold.TheVariants.{Writes, Reads};
    ghost use Rattle.level_store.specs.Passes.{hold_by, IsOwn};

    /// Nothing, for workers of the numbers from 0 to this one.
    pub(crate) fn none(alloc: Global, workers: u32) -> Result<Holds, AllocError>
        requires { workers ≤ 4 }
        ensures { IfOk result (λ h. h ≡ replicate (workers + 1) None) }
    {
        let mut passes = Vec::with_capacity(alloc, workers as usize + 1)?;
        for _seat in 0..workers + 1 {
            passes.push_reserved(None);
        }
        Ok(Holds { passes })
    }

    /// What the worker holds.
    pub(crate) fn at(&self, worker: u32) -> Option<Hold>
        ensures { result ≡ hold_in self.now worker }
    {
        match self.passes.get(worker as usize) {
            None => None,
            Some(None) => None,
            Some(Some(pass)) => Some(pass.hold()),
        }
    }

    /// Takes the pass of a worker that writes.
    pub(crate) fn take_write(&mut self, worker: u32) -> WritePass
        requires { IsTrue (is_writing (hold_in self.old worker)) }
        ensures held { hold_in self.old worker ≡ Some (Writes result.level) }
        ensures own { result.worker ≡ worker }
        ensures bare { self.new ≡ slice_set self.old worker None }
    {
        match mem::replace(&mut self.passes[worker as usize], None) {
            Some(HoldPass::Write(pass)) => pass,
            Some(HoldPass::Read(_pass)) => unreachable!(),
            None => unreachable!(),
        }
    }

    /// Takes the pass of a worker that reads.
    pub(crate) fn take_read(&mut self, worker: u32) -> ReadPass
        requires { IsTrue (is_reading (hold_in self.old worker)) }
        ensures held { hold_in self.old worker ≡ Some (Reads result.level) }
        ensures bare { self.new ≡ slice_set self.old worker None }
    {
        match mem::replace(&mut self.passes[worker as usize], None) {
            Some(HoldPass::Read(pass)) => pass,
            Some(HoldPass::Write(_pass)) => unreachable!(),
            None => unreachable!(),
        }
    }

    /// Puts a pass where the worker has none.
    pub(crate) fn put(&mut self, worker: u32, pass: HoldPass)
        requires there { worker < length self.old }
        requires bare { hold_in self.old worker ≡ None }
        requires own { IsOwn worker (Some pass) }
        ensures { self.new ≡ slice_set self.old worker (Some (hold_by pass)) }
    {
        let before = mem::replace(&mut self.passes[worker as usize], Some(pass));
        let None = before else { unreachable!() };
    }

    /// Takes the last worker's seat away, with its pass.
    pub(crate) fn pop(&mut self) -> Option<Option<HoldPass>>
        ensures last { IfSome result (λ seat. self.old ≡ self.new ++ option_map hold_by seat ∷ []) }
        ensures own { IfSome result (λ seat. IsOwn (length self.new) seat) }
        ensures none { IsNone result → self.new ≡ [] }
    {
        self.passes.pop()
    }

    /// Ends it, where no seat is left.
    pub(crate) fn destroy_empty(self)
        requires { self ≡ [] }
    {
        let Holds { passes } = self;
        passes.destroy_empty();
    }
}
