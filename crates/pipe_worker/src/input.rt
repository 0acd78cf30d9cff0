//! The input of a run: a region of a level, by the mipmap cache where the level is above 0.
ghost use Rattle.std.specs.Prelude.{◌≡◌, [], ◌∷◌, List, Some, None, IfOk, OnOk, OnErr};
ghost use Rattle.std.specs.Arc.{arc_value};
ghost use Rattle.px.specs.Area.{IsIn};
ghost use Rattle.px.specs.Cut.{IsCutOf, picture_of};
ghost use Rattle.modules_raw.specs.Levels.{level_side, levelled};
ghost use Rattle.level_store.specs.declared.hold.Hold.TheVariants.{Writes, Reads};
ghost use Rattle.shared_mips.specs.declared.event.MipEvent.TheVariants.{Demote, Leave};
ghost use Rattle.pipe_run.specs.Planned.{sides_at};
ghost use Rattle.mip_cache.specs.Slots.{IsLevel};
ghost use Rattle.turn_lock.specs.Known.{IsIdle};
ghost use Rattle.shared_mips.specs.declared.event.MipEvent.{MipEvent};
ghost use Rattle.shared_mips.specs.Story.{hold_of, reach_hold};
ghost use Rattle.shared_mips.specs.Shared.{answer_of, IsHoldOf};
ghost use Rattle.pipe_worker.specs.Job.{show_for};
ghost use Rattle.pipe_worker.specs.Grew.{Grew};
ghost use Rattle.pipe_worker.specs.Routes.{IsInput, Front, front_events, Fits, rest_events};
ghost use Rattle.pipe_worker.specs.Inputs.{IsInputOf};

use dev_core::Job;
use modules_raw::{Source, level};
use outside::{Gate, Point};
use pipe_nodes::{Prefix, Staged};
use pipe_run::load;
use px::{Plane, Region};
use shared_mips::{MipCache, MipPass, ReadHold, SharedReached, WriteHold};
use std::alloc::{AllocError, Global};
use std::sync::{Arc, Wait};
use std::thread::Threads;

// Reaches for a level, once more after an eviction where no slot was free.
fn reach_level<'a, R: Wait>(
    rt: &R,
    mips: &'a MipCache,
    pass: &mut MipPass,
    l: u8,
) -> Result<SharedReached<'a>, AllocError>
    requires lock { IsIdle mips.now pass.old }
    requires level { IsLevel l }
    requires bare { hold_of pass.old.own ≡ None }
    ensures ok { IfOk result (λ r. (f : Front) × Fits f (answer_of r) × Grew pass.old pass.new (front_events pass.old.number l f (answer_of r))) }
    ensures err { OnErr result ((gain : List MipEvent) × Grew pass.old pass.new gain) }
    ensures held { IfOk result (λ r. hold_of pass.new.own ≡ reach_hold l (answer_of r)) }
    ensures bare { OnErr result (hold_of pass.new.own ≡ None) }
    ensures hold { IfOk result (IsHoldOf mips.now.name.source l) }
    ensures lock { IsIdle mips.now pass.new }
{
    match mips.reach(rt, pass, l)? {
        SharedReached::Read(hold) => Ok(SharedReached::Read(hold)),
        SharedReached::Write(hold) => Ok(SharedReached::Write(hold)),
        SharedReached::Pending { writer } => Ok(SharedReached::Pending { writer }),
        SharedReached::Full => match mips.evict_one(rt, pass)? {
            None => Ok(SharedReached::Full),
            Some(_) => mips.reach(rt, pass, l),
        },
    }
}

// Makes the level that is held for writing, and holds it for reading then. Where memory runs out, the
// level is abandoned.
fn fill_level<'a, R: Wait + Threads + Sync>(
    rt: &R,
    alloc: Global,
    mips: &'a MipCache,
    pass: &mut MipPass,
    source: &Source,
    hold: WriteHold<'a>,
) -> Result<ReadHold<'a>, AllocError>
    requires lock { IsIdle mips.now pass.old }
    requires holds { hold_of pass.old.own ≡ Some (Writes hold.level) }
    requires cache { hold.source ≡ mips.now.name.source }
    requires source { source.now ≡ mips.now.name.source }
    requires level { IsLevel hold.level }
    ensures ok { OnOk result (Grew pass.old pass.new (Demote pass.old.number hold.entry.level ∷ [])) }
    ensures err { OnErr result ((gain : List MipEvent) × Grew pass.old pass.new gain) }
    ensures held { OnOk result (hold_of pass.new.own ≡ Some (Reads hold.entry.level)) }
    ensures bare { OnErr result (hold_of pass.new.own ≡ None) }
    ensures hold { IfOk result (λ r. r ≡ hold.entry) }
    ensures lock { IsIdle mips.now pass.new }
{
    match level(rt, alloc, source, hold.level()) {
        Ok(plane) => Ok(mips.demote(rt, pass, hold, plane)),
        Err(error) => {
            mips.abandon(rt, pass, hold);
            Err(error)
        }
    }
}

// Reads a region of a level, and lets the level go.
fn read_level<R: Wait>(
    rt: &R,
    alloc: Global,
    mips: &MipCache,
    pass: &mut MipPass,
    hold: ReadHold<'_>,
    region: Region,
) -> Result<Plane, AllocError>
    requires lock { IsIdle mips.now pass.old }
    requires holds { hold_of pass.old.own ≡ Some (Reads hold.level) }
    requires cache { hold.source ≡ mips.now.name.source }
    requires inside { IsIn region (level_side mips.now.name.source.w hold.level) (level_side mips.now.name.source.h hold.level) }
    ensures turn { Grew pass.old pass.new (Leave pass.old.number hold.entry.level ∷ []) }
    ensures bare { hold_of pass.new.own ≡ None }
    ensures region { IfOk result (λ p. p.area ≡ region) }
    ensures plane { IfOk result (λ p. IsCutOf (levelled hold.entry.level (picture_of mips.now.name.source)) p) }
    ensures lock { IsIdle mips.now pass.new }
{
    let cut = mips.read(alloc, &hold, region);
    mips.leave(rt, pass, hold);
    cut
}

// The stage of a level's region that was read.
fn staged_from(
    alloc: Global,
    source: &Arc<Source>,
    l: u8,
    plane: Plane,
) -> Result<Staged, AllocError>
    requires level { IsLevel l }
    requires cut { IsCutOf (levelled l (picture_of (arc_value source.now))) plane }
    ensures { IfOk result (IsInputOf (arc_value source.now) l plane.area) }
{
    let prefix = Prefix::start(alloc, l)?;
    Staged::of(alloc, prefix, plane, Arc::try_clone(source)?)
}

// The region of what was reached; where it can't be held, the run makes the level for itself.
fn use_level<'a, R: Wait + Threads + Sync, G: Gate>(
    rt: &R,
    alloc: Global,
    mips: &'a MipCache,
    gate: &G,
    pass: &mut MipPass,
    job: &Job,
    l: u8,
    reached: SharedReached<'a>,
    region: Region,
) -> Result<Staged, AllocError>
    requires lock { IsIdle mips.now pass.old }
    requires source { job.now.subject.source ≡ mips.now.name.source }
    requires level { IsLevel l }
    requires inside { IsIn region (level_side job.now.subject.source.w l) (level_side job.now.subject.source.h l) }
    requires held { hold_of pass.old.own ≡ reach_hold l (answer_of reached) }
    requires hold { IsHoldOf mips.now.name.source l reached }
    ensures ok { OnOk result (Grew pass.old pass.new (rest_events pass.old.number l (answer_of reached.entry))) }
    ensures err { OnErr result ((gain : List MipEvent) × Grew pass.old pass.new gain) }
    ensures bare { hold_of pass.new.own ≡ None }
    ensures staged { IfOk result (IsInputOf job.now.subject.source l region) }
    ensures lock { IsIdle mips.now pass.new }
{
    let source = job.subject().source();
    match reached {
        SharedReached::Read(hold) => {
            let cut = read_level(rt, alloc, mips, pass, hold, region)?;
            staged_from(alloc, source, l, cut)
        }
        SharedReached::Write(hold) => {
            gate.pass(Point::Level {
                job: job.name(),
                moment: job.moment(),
                level: l,
            });
            let reader = fill_level(rt, alloc, mips, pass, source, hold)?;
            let cut = read_level(rt, alloc, mips, pass, reader, region)?;
            staged_from(alloc, source, l, cut)
        }
        SharedReached::Pending { writer: _writer } => load(rt, alloc, source, l, None, region),
        SharedReached::Full => load(rt, alloc, source, l, None, region),
    }
}

// The region of the job's level with which its run begins.
pub(crate) fn input<R: Wait + Threads + Sync, G: Gate>(
    rt: &R,
    alloc: Global,
    mips: &MipCache,
    gate: &G,
    pass: &mut MipPass,
    job: &Job,
    region: Region,
) -> Result<Staged, AllocError>
    requires lock { IsIdle mips.now pass.old }
    requires source { job.now.subject.source ≡ mips.now.name.source }
    requires inside { IsIn region (sides_at job.now.subject.source (show_for job.now).level).0 (sides_at job.now.subject.source (show_for job.now).level).1 }
    requires bare { hold_of pass.old.own ≡ None }
    ensures ok { OnOk result ((gain : List MipEvent) × Grew pass.old pass.new gain × IsInput pass.old.number (show_for job.now).level gain) }
    ensures err { OnErr result ((gain : List MipEvent) × Grew pass.old pass.new gain) }
    ensures bare { hold_of pass.new.own ≡ None }
    ensures staged { IfOk result (IsInputOf job.now.subject.source (show_for job.now).level region) }
    ensures lock { IsIdle mips.now pass.new }
{
    let l = job.show().level;
    if l == 0 {
        return load(rt, alloc, job.subject().source(), l, None, region);
    }
    let reached = reach_level(rt, mips, pass, l)?;
    use_level(rt, alloc, mips, gate, pass, job, l, reached, region)
}
