ghost use Rattle.std.specs.Prelude.{◌≡◌, ◌≤◌, ◌∷◌, [], map, Some, None, Ok, IfOk};
ghost use Rattle.std.specs.List.{range_with_len};
ghost use Rattle.std.specs.Arc.{arc_value};
ghost use Rattle.px.specs.Area.{IsIn};
ghost use Rattle.px.specs.Cut.{IsCutOf, picture_of};
ghost use Rattle.modules_raw.specs.Levels.{level_side, levelled};
ghost use Rattle.mip_cache.specs.Mipmaps.{evict_answer};
ghost use Rattle.mip_cache.specs.Slots.{IsLevel};
ghost use Rattle.level_store.specs.declared.hold.Hold.TheVariants.{Writes, Reads};
ghost use Rattle.level_store.specs.Planes.{IsLevelPlane};
ghost use Rattle.turn_lock.specs.Known.{IsIdle, fresh};
ghost use Rattle.turn_lock.specs.Turned.{Turned};

use crate::cells::Cells;
use crate::holds::{ReadHold, WriteHold};
use crate::index::{MipIndex, MipName};
use crate::reached::SharedReached;
use crate::turns::{MipPass, abandon_turn, demote_turn, evict_turn, leave_turn, reach_turn};
use level_store::ReachAnswer;
use modules_raw::Source;
use px::{Plane, Region};
use std::alloc::{AllocError, Global};
use std::marker::Model;
use std::sync::{Arc, Wait};
use turn_lock::TurnLock;

/// The mipmap levels of one source, for several threads, each with a `MipPass`. Contracts see it as its turn
/// lock, whose name is the source and the number of slots.
///
/// Each call but `read` takes one turn, and adds one element to the story, which bears the number of the
/// pass. The answer is the one that the list of one thread gives on the levels that the turn found.
#[derive(Drop)]
pub struct MipCache {
    lock: TurnLock<MipIndex>,
    cells: Cells,
}

impl Model for MipCache {
    ghost use Rattle.std.specs.Prelude.{◌≡◌};
    ghost use Rattle.turn_lock.specs.Known.{Named};
    ghost use Rattle.shared_mips.specs.declared.index.MipName.{MipName};

    ghost Value = { Named MipName };

    ghost view = { λ c. c.lock };

    ghost invariant = { λ c. c.cells ≡ c.lock.name.source };
}

impl MipCache {
    ghost use Rattle.shared_mips.specs.declared.event.MipEvent.TheVariants.{Demote, Abandon, Leave};
    ghost use Rattle.shared_mips.specs.Story.{worker_of, hold_of, entries_of, told_answer, found, Replays};
    ghost use Rattle.shared_mips.specs.Index.{reach_adds, evict_adds};
    ghost use Rattle.shared_mips.specs.Shared.{answer_of, answered, reached_hold, IsHoldOf};

    /// A cache of 1 to 4 slots with no level in them, and its 1 to 16 passes in the order of their numbers.
    pub fn new(
        alloc: Global,
        source: Arc<Source>,
        slots: u32,
        seats: u32,
    ) -> Result<(MipCache, Vec<MipPass>), AllocError>
        requires some_slots { 1 ≤ slots }
        requires few_slots { slots ≤ 4 }
        requires some_seats { 1 ≤ seats }
        requires few_seats { seats ≤ 16 }
        ensures seats { IfOk result (λ r. r.0.id.seats ≡ seats) }
        ensures name { IfOk result (λ r. r.0.name ≡ record { source = arc_value source; slots = slots }) }
        ensures passes { IfOk result (λ r. r.1.items ≡ map (fresh r.0 0) (range_with_len 0 seats)) }
    {
        let cells = Cells::new(alloc, Arc::try_clone(&source)?)?;
        let index = MipIndex::new(alloc, source, slots)?;
        let (lock, passes) = TurnLock::new(alloc, index, seats)?;
        Ok((MipCache { lock, cells }, passes))
    }

    /// Reaches for a level, 1 to 8. `Read`: it is written, and the pass reads it. `Pending`: that worker is
    /// writing it. `Write`: it had no slot and gets one, for the pass to write it. `Full`: it has no slot, and
    /// none is free. The room for the elements that end the hold is taken here. Where memory runs out,
    /// nothing changes.
    pub fn reach<R: Wait>(
        &self,
        rt: &R,
        pass: &mut MipPass,
        level: u8,
    ) -> Result<SharedReached<'_>, AllocError>
        requires lock { IsIdle self.now pass.old }
        requires level { IsLevel level }
        requires bare { hold_of pass.old.own ≡ None }
        ensures turned { Turned worker_of pass.old pass.new (reach_adds pass.old.number level (answered result)) }
        ensures replays { Replays self.now.name.slots pass.new.seen }
        ensures answer { IfOk result (λ reached. answer_of reached ≡ told_answer self.now.name.slots pass.old.number level (found pass.new.seen)) }
        ensures held { hold_of pass.new.own ≡ reached_hold level (answered result) }
        ensures lock { IsIdle self.now pass.new }
        ensures number { pass.new.number ≡ pass.old.number }
        ensures hold { IfOk result (λ reached. IsHoldOf self.now.name.source level reached) }
    {
        match reach_turn(rt, &self.lock, pass, level) {
            Ok(answer) => Ok(self.holding(rt, level, answer)),
            Err(e) => Err(e),
        }
    }

    // The answer, with the hold that goes with it.
    fn holding<R: Wait>(&self, rt: &R, level: u8, answer: ReachAnswer) -> SharedReached<'_>
        requires { IsLevel level }
        ensures answer { answer_of result ≡ answer }
        ensures hold { IsHoldOf self.now.name.source level result }
    {
        match answer {
            ReachAnswer::Read => SharedReached::Read(self.cells.enter(rt, level)),
            ReachAnswer::Pending { writer } => SharedReached::Pending { writer },
            ReachAnswer::Write => SharedReached::Write(self.cells.claim(rt, level)),
            ReachAnswer::Full => SharedReached::Full,
        }
    }

    /// The level is written, with this plane, and its writer is its one reader. First the plane goes into the
    /// cell, then the reader, and only then the turn says so: until then nobody can choose the level to go.
    /// Takes no memory.
    pub fn demote<R: Wait>(
        &self,
        rt: &R,
        pass: &mut MipPass,
        hold: WriteHold<'_>,
        plane: Plane,
    ) -> ReadHold<'_>
        requires lock { IsIdle self.now pass.old }
        requires cache { hold.source ≡ self.now.name.source }
        requires holds { hold_of pass.old.own ≡ Some (Writes hold.level) }
        requires whole { IsLevelPlane hold.source hold.level plane }
        ensures turned { Turned worker_of pass.old pass.new (Demote pass.old.number hold.entry.level ∷ []) }
        ensures replays { Replays self.now.name.slots pass.new.seen }
        ensures held { hold_of pass.new.own ≡ Some (Reads hold.entry.level) }
        ensures lock { IsIdle self.now pass.new }
        ensures number { pass.new.number ≡ pass.old.number }
        ensures hold { result ≡ hold.entry }
    {
        let level = hold.fill(plane);
        let reader = self.cells.enter(rt, level);
        demote_turn(rt, &self.lock, pass, &reader);
        reader
    }

    /// The level isn't written after all, and has no slot any more. The cell is given back before the turn.
    /// Takes no memory.
    pub fn abandon<R: Wait>(&self, rt: &R, pass: &mut MipPass, hold: WriteHold<'_>)
        requires lock { IsIdle self.now pass.old }
        requires holds { hold_of pass.old.own ≡ Some (Writes hold.level) }
        ensures turned { Turned worker_of pass.old pass.new (Abandon pass.old.number hold.entry.level ∷ []) }
        ensures replays { Replays self.now.name.slots pass.new.seen }
        ensures held { hold_of pass.new.own ≡ None }
        ensures lock { IsIdle self.now pass.new }
        ensures number { pass.new.number ≡ pass.old.number }
    {
        let ended = hold.empty();
        abandon_turn(rt, &self.lock, pass, ended);
    }

    /// The level has one reader fewer. The claim on the cell is given back before the turn. Takes no memory.
    pub fn leave<R: Wait>(&self, rt: &R, pass: &mut MipPass, hold: ReadHold<'_>)
        requires lock { IsIdle self.now pass.old }
        requires holds { hold_of pass.old.own ≡ Some (Reads hold.level) }
        ensures turned { Turned worker_of pass.old pass.new (Leave pass.old.number hold.entry.level ∷ []) }
        ensures replays { Replays self.now.name.slots pass.new.seen }
        ensures held { hold_of pass.new.own ≡ None }
        ensures lock { IsIdle self.now pass.new }
        ensures number { pass.new.number ≡ pass.old.number }
    {
        let ended = hold.leave();
        leave_turn(rt, &self.lock, pass, ended);
    }

    /// Frees the slot of the last level in the list that is written and has no reader, and takes its plane out
    /// of its cell; `None` exactly where there is none. Where memory runs out, nothing changes.
    pub fn evict_one<R: Wait>(&self, rt: &R, pass: &mut MipPass) -> Result<Option<u8>, AllocError>
        requires { IsIdle self.now pass.old }
        ensures turned { Turned worker_of pass.old pass.new (evict_adds pass.old.number result) }
        ensures replays { Replays self.now.name.slots pass.new.seen }
        ensures answer { IfOk result (λ gone. gone ≡ evict_answer (entries_of self.now.name.slots (found pass.new.seen))) }
        ensures held { hold_of pass.new.own ≡ hold_of pass.old.own }
        ensures lock { IsIdle self.now pass.new }
        ensures number { pass.new.number ≡ pass.old.number }
    {
        match evict_turn(rt, &self.lock, pass) {
            Ok(Some(chosen)) => Ok(Some(self.cells.clear(rt, chosen))),
            Ok(None) => Ok(None),
            Err(e) => Err(e),
        }
    }

    /// The part of the level that lies in the region. It waits for nobody.
    pub fn read(
        &self,
        alloc: Global,
        hold: &ReadHold<'_>,
        region: Region,
    ) -> Result<Plane, AllocError>
        requires cache { hold.now.source ≡ self.now.name.source }
        requires inside { IsIn region (level_side self.now.name.source.w hold.now.level) (level_side self.now.name.source.h hold.now.level) }
        ensures region { IfOk result (λ p. p.area ≡ region) }
        ensures plane { IfOk result (λ p. IsCutOf (levelled hold.now.level (picture_of self.now.name.source)) p) }
    {
        hold.plane().cut(alloc, region)
    }
}

fn may_cross<X: Send>(_value: &X) {}

fn may_be_shared<X: Send + Sync>(_value: &X) {}

// Threads may share a cache, and each have a pass.
fn threads_may_share(cache: &MipCache, pass: &MipPass) {
    may_be_shared(cache);
    may_cross(pass);
}
