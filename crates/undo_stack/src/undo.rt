ghost use Rattle.std.specs.Prelude.{◌≡◌, ◌≢◌, ◌↔◌, ◌≤◌, ◌-◌, [], ◌∷◌, take, length, IfOk, IsTrue};

use std::alloc::{AllocError, Global};
use std::collections::VecDeque;
use std::marker::Model;
use std::mem::replace;

/// A value with two lists of others, each newest first: those that it was before, its *past*, and those
/// that were taken back, its *future*. Both together are never more than the depth, 1 to 64.
#[derive(Debug, Drop)]
pub struct Undo<T> {
    present: T,
    past: VecDeque<T>,
    future: VecDeque<T>,
    depth: usize,
}

impl<T> Model for Undo<T> {
    ghost use Rattle.undo_stack.specs.Undoing.{Undoing, undoing_code};

    ghost Value = { Undoing T };

    ghost coded = { undoing_code T.code };

    ghost use Rattle.std.specs.VecDeque.{deque_capacity};
    ghost use Rattle.undo_stack.specs.Kept.{IsKept};

    ghost view = { λ u. record { present = u.present; past = u.past.items; future = u.future.items; depth = u.depth } };

    ghost invariant = { λ u. IsKept u.past.items u.future.items u.depth (deque_capacity u.past) (deque_capacity u.future) };
}

impl<T> Undo<T> {
    ghost use Rattle.undo_stack.specs.Undoing.{start, changed, undone, redone, IsWithinDepth};

    /// The value with no past and no future. All room is taken here: no later call takes memory.
    pub fn new(alloc: Global, present: T, depth: u32) -> Result<Undo<T>, AllocError>
    where
        T: Drop,
        requires some_depth { 1 ≤ depth }
        requires small_depth { depth ≤ 64 }
        ensures { IfOk result (λ u. u ≡ start present depth) }
    {
        let depth = depth as usize;
        let past = VecDeque::with_capacity(alloc, depth)?;
        let future = VecDeque::with_capacity(alloc, depth)?;
        Ok(Undo {
            present,
            past,
            future,
            depth,
        })
    }

    /// The value that stands now.
    pub fn now(&self) -> &T
        ensures { result.now ≡ self.now.present }
    {
        &self.present
    }

    /// The value that stands now, without its past and its future.
    pub fn into_now(self) -> T
    where
        T: Drop,
        ensures { result ≡ self.present }
    {
        self.present
    }

    /// How often undo has somewhere to go.
    pub fn past(&self) -> u32
        ensures count { result ≡ length self.now.past }
        ensures within { IsWithinDepth self.now }
    {
        self.past.len() as u32
    }

    /// How often redo has somewhere to go.
    pub fn future(&self) -> u32
        ensures count { result ≡ length self.now.future }
        ensures within { IsWithinDepth self.now }
    {
        self.future.len() as u32
    }

    /// Makes `next` the value. The one before is the newest of the past, of which as many as the depth
    /// are kept, and there is no future. Takes no memory.
    ///
    /// An undo gives the value before again, with what is kept of its past.
    pub fn change(&mut self, next: T)
    where
        T: Drop,
        ensures state { self.new ≡ changed self.old next }
        ensures undone { undone self.new ≡ record { present = self.old.present; past = take (self.old.depth - 1) self.old.past; future = next ∷ []; depth = self.old.depth } }
    {
        let before = replace(&mut self.present, next);
        self.past.truncate(self.depth - 1);
        self.past.push_front_reserved(before);
        self.future.clear();
    }

    /// Goes back to the newest value of the past; what stood is the newest of the future. `false` exactly
    /// where there is no past, and then nothing changes. Takes no memory.
    ///
    /// After a step back, redo gives the state again.
    pub fn undo(&mut self) -> bool
        ensures went { IsTrue result ↔ (self.old.past ≢ []) }
        ensures state { self.new ≡ undone self.old }
        ensures redone { IsTrue result → redone self.new ≡ self.old }
    {
        let Some(before) = self.past.pop_front() else {
            return false;
        };
        let after = replace(&mut self.present, before);
        self.future.push_front_reserved(after);
        true
    }

    /// Goes forward to the newest value of the future; what stood is the newest of the past. `false`
    /// exactly where there is no future, and then nothing changes. Takes no memory.
    ///
    /// After a step forward, undo gives the state again.
    pub fn redo(&mut self) -> bool
        ensures went { IsTrue result ↔ (self.old.future ≢ []) }
        ensures state { self.new ≡ redone self.old }
        ensures undone { IsTrue result → undone self.new ≡ self.old }
    {
        let Some(after) = self.future.pop_front() else {
            return false;
        };
        let before = replace(&mut self.present, after);
        self.past.push_front_reserved(before);
        true
    }
}
