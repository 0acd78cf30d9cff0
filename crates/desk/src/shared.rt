ghost use Rattle.std.specs.Prelude.{◌≡◌, ℕ, ◌<◌, ◌+◌, ◌≤◌, [], IfOk, All, Contains, map};
ghost use Rattle.std.specs.List.{range_with_len};
ghost use Rattle.std.specs.Arc.{arc_value};
ghost use Rattle.turn_lock.specs.Story.{StartsWith, borne};
ghost use Rattle.turn_lock.specs.Known.{fresh, IsIdle};
ghost use Rattle.edit_steps.specs.Script.{changes};
ghost use Rattle.journal.specs.Desk.{Legal};
ghost use Rattle.journal.specs.Own.{worker_of};
ghost use Rattle.desk.specs.Passes.{DeskKnown};
ghost use Rattle.desk.specs.Turns.{Began, MayEnd, Ended};

use dev_core::{DeskState, Subject};
use std::alloc::{AllocError, Global};
use std::marker::Model;
use std::sync::atomic::{AtomicU64, Ordering};
use std::sync::{Arc, Wait};
use turn_lock::{Pass, Turn, TurnLock};

/// The right of one thread to a desk. Its number is the number of its worker, and 0 is the editor's.
pub type DeskPass = Pass<DeskState>;

/// A desk that threads use in turns. Contracts see which lock it is, and its subject as the name.
#[derive(Drop)]
pub struct SharedDesk {
    lock: TurnLock<DeskState>,
    // It counts the rings: whoever sleeps wakes when it changes.
    bell: AtomicU64,
}

impl Model for SharedDesk {
    ghost use Rattle.desk.specs.Passes.{DeskLock};

    ghost Value = { DeskLock };

    ghost view = { λ s. s.lock };
}

impl SharedDesk {
    /// The desk of a subject, at which nothing was done yet, and its 1 to 16 passes in the order of their numbers.
    pub fn new(
        alloc: Global,
        subject: Arc<Subject>,
        seats: u32,
    ) -> Result<(SharedDesk, Vec<DeskPass>), AllocError>
        requires seats { (1 ≤ seats) × (seats ≤ 16) }
        ensures lock { IfOk result (λ r. (r.0.id.seats ≡ seats) × (r.0.name ≡ arc_value subject)) }
        ensures passes { IfOk result (λ r. r.1.items ≡ map (fresh r.0 0) (range_with_len 0 seats)) }
    {
        let state = DeskState::start(alloc, subject)?;
        let (lock, passes) = TurnLock::new(alloc, state, seats)?;
        let bell = AtomicU64::new(0);
        Ok((SharedDesk { lock, bell }, passes))
    }

    /// The number of changes that were made, as the turn that was given last left it, or as the one that is just being
    /// given leaves it. It waits for nobody, and takes no memory.
    pub fn latest(&self, pass: &mut DeskPass) -> u64
        requires lock { IsIdle self.now pass.old }
        ensures pass { pass.new ≡ record pass.old { mark = result; loads = pass.old.loads + 1; loaded = result } }
        ensures risen { pass.old.mark ≤ result }
        ensures top { result ≤ changes self.now.name.script }
        ensures lock { IsIdle self.now pass.new }
    {
        self.lock.mark(pass)
    }

    /// Ends the desk that is shared. It wants all its passes. It waits for nobody, and takes no memory.
    pub fn close(self, passes: Vec<DeskPass>) -> DeskState
        requires idle { All (IsIdle self) passes.items }
        requires all { (n : ℕ) → n < self.id.seats → (p : DeskKnown) × Contains passes.items p × (p.number ≡ n) }
        ensures subject { result.subject ≡ self.name }
        ensures legal { Legal result.subject.script result.journal }
        ensures passes { All (λ (p : DeskKnown). StartsWith result.journal p.seen × (borne worker_of p.number result.journal ≡ p.own)) passes.items }
        ensures others { (n : ℕ) → self.id.seats ≤ n → borne worker_of n result.journal ≡ [] }
    {
        let SharedDesk { lock, bell: _ } = self;
        let state = lock.close(passes);
        state.journal();
        state
    }
}

/// Sleeping until something happens.
impl SharedDesk {
    /// How often the bell was rung. Whoever wants to sleep reads it before the turn that finds nothing to do.
    pub fn rings(&self) -> u64 {
        self.bell.load(Ordering::SeqCst)
    }

    /// Sleeps until the bell has rung again after so many rings. It may also return for no reason.
    pub fn listen<R: Wait>(&self, rt: &R, rings: u64) {
        self.bell.park(rt, (rings & 0xffff_ffff) as u32);
    }

    // Wakes all who sleep.
    pub(crate) fn ring(&self) {
        self.bell.fetch_add(1, Ordering::SeqCst);
        self.bell.wake_all();
    }
}

/// One turn.
impl SharedDesk {
    // Takes the desk, which is legal.
    pub(crate) fn begin<R: Wait>(&self, rt: &R, pass: &mut DeskPass) -> Turn<DeskState>
        requires { IsIdle self.now pass.old }
        ensures { Began self.now pass.old pass.new result }
    {
        let mut turn = self.lock.take(rt, pass);
        turn.value().journal();
        turn
    }

    // Gives the desk back, with what was added to its journal.
    pub(crate) fn end(&self, mut turn: Turn<DeskState>, pass: &mut DeskPass)
        requires { MayEnd self.now pass.old turn }
        ensures { Ended pass.old pass.new turn }
    {
        turn.value().journal();
        self.lock.give(turn, pass);
    }
}

fn may_cross<X: Send>(_value: &X) {}

fn may_be_shared<X: Send + Sync>(_value: &X) {}

// Threads may share a desk, and each may have a pass.
fn threads_may_share(desk: &SharedDesk, pass: &DeskPass) {
    may_be_shared(desk);
    may_cross(pass);
}
