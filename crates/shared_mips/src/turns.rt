//! One turn each. What a move on a cell must come before, its turn asks for; what must come after it, the
//! turn gives.
ghost use Rattle.std.specs.Prelude.{◌≡◌, ◌∷◌, [], Some, None, IfOk};
ghost use Rattle.mip_cache.specs.Mipmaps.{evict_answer};
ghost use Rattle.mip_cache.specs.Slots.{IsLevel};
ghost use Rattle.level_store.specs.declared.hold.Hold.TheVariants.{Writes, Reads};
ghost use Rattle.turn_lock.specs.Known.{IsIdle};
ghost use Rattle.turn_lock.specs.Turned.{Turned};
ghost use Rattle.shared_mips.specs.declared.event.MipEvent.TheVariants.{Demote, Abandon, Leave};
ghost use Rattle.shared_mips.specs.Story.{worker_of, hold_of, entries_of, told_answer, found, Replays};
ghost use Rattle.shared_mips.specs.Index.{reach_adds, evict_adds};
ghost use Rattle.shared_mips.specs.Shared.{reached_hold};
ghost use Rattle.shared_mips.specs.Chosen.{chosen_level};

use crate::cells::Chosen;
use crate::holds::{Ended, ReadHold};
use crate::index::MipIndex;
use level_store::ReachAnswer;
use std::alloc::AllocError;
use std::sync::Wait;
use turn_lock::{Pass, TurnLock};

/// The right of one thread to a shared mipmap cache. Its number is its worker number.
pub type MipPass = Pass<MipIndex>;

/// The pass reaches for the level.
pub(crate) fn reach_turn<R: Wait>(
    rt: &R,
    lock: &TurnLock<MipIndex>,
    pass: &mut MipPass,
    level: u8,
) -> Result<ReachAnswer, AllocError>
    requires lock { IsIdle lock.now pass.old }
    requires level { IsLevel level }
    requires bare { hold_of pass.old.own ≡ None }
    ensures turned { Turned worker_of pass.old pass.new (reach_adds pass.old.number level result) }
    ensures replays { Replays lock.now.name.slots pass.new.seen }
    ensures answer { IfOk result (λ answer. answer ≡ told_answer lock.now.name.slots pass.old.number level (found pass.new.seen)) }
    ensures held { hold_of pass.new.own ≡ reached_hold level result }
    ensures lock { IsIdle lock.now pass.new }
    ensures number { pass.new.number ≡ pass.old.number }
{
    let worker = pass.number();
    let mut turn = lock.take(rt, pass);
    let answer = turn.value().reach(worker, level);
    lock.give(turn, pass);
    answer
}

/// The level that the pass writes is written. Its reader stands in the cell already.
pub(crate) fn demote_turn<R: Wait>(
    rt: &R,
    lock: &TurnLock<MipIndex>,
    pass: &mut MipPass,
    reader: &ReadHold<'_>,
)
    requires lock { IsIdle lock.now pass.old }
    requires holds { hold_of pass.old.own ≡ Some (Writes reader.now.level) }
    ensures turned { Turned worker_of pass.old pass.new (Demote pass.old.number reader.now.level ∷ []) }
    ensures replays { Replays lock.now.name.slots pass.new.seen }
    ensures held { hold_of pass.new.own ≡ Some (Reads reader.now.level) }
    ensures lock { IsIdle lock.now pass.new }
    ensures number { pass.new.number ≡ pass.old.number }
{
    let worker = pass.number();
    let level = reader.level();
    let mut turn = lock.take(rt, pass);
    turn.value().demote(worker, level);
    lock.give(turn, pass);
}

/// The pass doesn't write the level any more, whose cell it gave back.
pub(crate) fn abandon_turn<R: Wait>(
    rt: &R,
    lock: &TurnLock<MipIndex>,
    pass: &mut MipPass,
    ended: Ended,
)
    requires lock { IsIdle lock.now pass.old }
    requires holds { hold_of pass.old.own ≡ Some (Writes ended.level) }
    ensures turned { Turned worker_of pass.old pass.new (Abandon pass.old.number ended.level ∷ []) }
    ensures replays { Replays lock.now.name.slots pass.new.seen }
    ensures held { hold_of pass.new.own ≡ None }
    ensures lock { IsIdle lock.now pass.new }
    ensures number { pass.new.number ≡ pass.old.number }
{
    let worker = pass.number();
    let level = ended.spend();
    let mut turn = lock.take(rt, pass);
    turn.value().abandon(worker, level);
    lock.give(turn, pass);
}

/// The pass doesn't read the level any more, whose cell it gave back.
pub(crate) fn leave_turn<R: Wait>(
    rt: &R,
    lock: &TurnLock<MipIndex>,
    pass: &mut MipPass,
    ended: Ended,
)
    requires lock { IsIdle lock.now pass.old }
    requires holds { hold_of pass.old.own ≡ Some (Reads ended.level) }
    ensures turned { Turned worker_of pass.old pass.new (Leave pass.old.number ended.level ∷ []) }
    ensures replays { Replays lock.now.name.slots pass.new.seen }
    ensures held { hold_of pass.new.own ≡ None }
    ensures lock { IsIdle lock.now pass.new }
    ensures number { pass.new.number ≡ pass.old.number }
{
    let worker = pass.number();
    let level = ended.spend();
    let mut turn = lock.take(rt, pass);
    turn.value().leave(worker, level);
    lock.give(turn, pass);
}

/// A level goes that is written and that nobody reads, where there is one. Its cell must be cleared.
pub(crate) fn evict_turn<R: Wait>(
    rt: &R,
    lock: &TurnLock<MipIndex>,
    pass: &mut MipPass,
) -> Result<Option<Chosen>, AllocError>
    requires { IsIdle lock.now pass.old }
    ensures turned { Turned worker_of pass.old pass.new (evict_adds pass.old.number (chosen_level result)) }
    ensures replays { Replays lock.now.name.slots pass.new.seen }
    ensures answer { IfOk (chosen_level result) (λ answer. answer ≡ evict_answer (entries_of lock.now.name.slots (found pass.new.seen))) }
    ensures held { hold_of pass.new.own ≡ hold_of pass.old.own }
    ensures lock { IsIdle lock.now pass.new }
    ensures number { pass.new.number ≡ pass.old.number }
{
    let worker = pass.number();
    let mut turn = lock.take(rt, pass);
    let answer = turn.value().evict_one(worker);
    lock.give(turn, pass);
    Chosen::of(answer)
}
