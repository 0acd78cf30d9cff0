ghost use Rattle.std.specs.Prelude.{◌≡◌, ◌≤◌, [], map, length, IfOk, IfSome};
ghost use Rattle.std.specs.List.{range_with_len};
ghost use Rattle.turn_lock.specs.Known.{fresh, IsIdle};
ghost use Rattle.turn_lock.specs.Turned.{Turned};
ghost use Rattle.stage_cache.specs.Stages.{IsRising};
ghost use Rattle.shared_stage.specs.Story.{Replays, worker_of, find_adds, keep_adds, IsFoundIn};
ghost use Rattle.shared_stage.specs.State.{name_of};

use crate::stage_state::StageState;
use pipe_nodes::{Prefix, Staged};
use px::Region;
use stage_cache::{Kept, StageCache};
use std::alloc::{AllocError, Global};
use std::marker::Model;
use std::sync::Wait;
use turn_lock::{Pass, TurnLock};

/// The right of one thread to a shared stage cache.
pub type StagePass = Pass<StageState>;

/// A stage cache that threads use in turns. Contracts see which lock it is, and its name: the source and how much it may keep.
#[derive(Drop)]
pub struct SharedStage {
    lock: TurnLock<StageState>,
}

impl Model for SharedStage {
    ghost use Rattle.turn_lock.specs.Known.{Named};
    ghost use Rattle.shared_stage.specs.declared.stage_name.StageName.{StageName};

    ghost Value = { Named StageName };

    ghost view = { λ s. s.lock };
}

impl SharedStage {
    /// Shares a cache that has no stages yet, with 1 to 16 passes in the order of their numbers.
    pub fn new(
        alloc: Global,
        cache: StageCache,
        seats: u32,
    ) -> Result<(SharedStage, Vec<StagePass>), AllocError>
        requires seats { (1 ≤ seats) × (seats ≤ 16) }
        requires stages { cache.stages ≡ [] }
        ensures lock { IfOk result (λ r. (r.0.id.seats ≡ seats) × (r.0.name ≡ name_of cache)) }
        ensures passes { IfOk result (λ r. r.1.items ≡ map (fresh r.0 0) (range_with_len 0 seats)) }
    {
        let (lock, passes) = TurnLock::new(alloc, StageState::start(alloc, cache), seats)?;
        Ok((SharedStage { lock }, passes))
    }

    /// The longest prefix of the list that has a stage which covers the region beside it: its place in the list, and that stage.
    /// The prefixes are of rising length. The answer is that of `StageCache::find` over the entries found in this turn.
    pub fn find<R: Wait>(
        &self,
        rt: &R,
        alloc: Global,
        pass: &mut StagePass,
        list: &[(Prefix, Region)],
    ) -> Result<Option<(usize, Staged)>, AllocError>
        requires lock { IsIdle self.now pass.old }
        requires rising { IsRising list.now }
        ensures turn { Turned worker_of pass.old pass.new (find_adds pass.old.number list.now result) }
        ensures replays { Replays self.now.name pass.new.seen }
        ensures stage { IfOk result (λ r. IfSome r (λ f. IsFoundIn self.now.name pass.new.seen list.now f.0 f.1)) }
        ensures mark { pass.new.mark ≡ length pass.new.seen }
        ensures lock { IsIdle self.now pass.new }
        ensures number { pass.new.number ≡ pass.old.number }
    {
        let worker = pass.number();
        let mut turn = self.lock.take(rt, pass);
        let answer = turn.value().find(alloc, worker, list);
        self.lock.give(turn, pass);
        answer
    }

    /// Keeps a stage of the cache's source. The answer is that of `StageCache::keep` over the entries found in this turn.
    pub fn keep<R: Wait>(
        &self,
        rt: &R,
        pass: &mut StagePass,
        stage: Staged,
    ) -> Result<Kept, AllocError>
        requires lock { IsIdle self.now pass.old }
        requires source { stage.source ≡ self.now.name.source }
        ensures turn { Turned worker_of pass.old pass.new (keep_adds pass.old.number stage result) }
        ensures replays { Replays self.now.name pass.new.seen }
        ensures mark { pass.new.mark ≡ length pass.new.seen }
        ensures lock { IsIdle self.now pass.new }
        ensures number { pass.new.number ≡ pass.old.number }
    {
        let worker = pass.number();
        let mut turn = self.lock.take(rt, pass);
        let answer = turn.value().keep(worker, stage);
        self.lock.give(turn, pass);
        answer
    }
}

fn may_cross<X: Send>(_value: &X) {}

fn may_be_shared<X: Send + Sync>(_value: &X) {}

// Threads may share the cache, and each have a pass.
fn threads_may_share(stage: &SharedStage, pass: &StagePass) {
    may_be_shared(stage);
    may_cross(pass);
}
