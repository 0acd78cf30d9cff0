ghost use Rattle.std.specs.Prelude.{◌≡◌, Some, None};
ghost use Rattle.mip_cache.specs.Slots.{IsLevel};
ghost use Rattle.level_store.specs.declared.hold.Hold.TheVariants.{Writes, Reads};
ghost use Rattle.turn_lock.specs.Known.{IsIdle};
ghost use Rattle.shared_mips.specs.Cells.{spot};
ghost use Rattle.shared_mips.specs.Story.{hold_of};

use crate::pictures::ramp;
use level_store::ReachAnswer;
use modules_raw::{Source, level, level_sides};
use px::{Plane, Region};
use shared_mips::{MipCache, MipPass, ReadHold, SharedReached, WriteHold};
use std::alloc::Global;
use std::process::Abort;
use std::sync::{Arc, Wait};
use std::test::Fail;
use std::thread::Threads;

// Reaches for a level that this pass is to write.
fn write_hold<'a, R: Abort + Wait>(
    rt: &R,
    cache: &'a MipCache,
    pass: &mut MipPass,
    level: u8,
) -> WriteHold<'a>
    requires lock { IsIdle cache.now pass.old }
    requires level { IsLevel level }
    requires bare { hold_of pass.old.own ≡ None }
    ensures lock { IsIdle cache.now pass.new }
    ensures held { hold_of pass.new.own ≡ Some (Writes level) }
    ensures hold { result ≡ spot cache.now.name.source level }
{
    match cache.reach(rt, pass, level) {
        Ok(SharedReached::Write(hold)) => hold,
        _ => panic!(rt; "the level isn't for this pass to write"),
    }
}

// Reaches for a level that this pass is to read.
fn read_hold<'a, R: Abort + Wait>(
    rt: &R,
    cache: &'a MipCache,
    pass: &mut MipPass,
    level: u8,
) -> ReadHold<'a>
    requires lock { IsIdle cache.now pass.old }
    requires level { IsLevel level }
    requires bare { hold_of pass.old.own ≡ None }
    ensures lock { IsIdle cache.now pass.new }
    ensures held { hold_of pass.new.own ≡ Some (Reads level) }
    ensures hold { result ≡ spot cache.now.name.source level }
{
    match cache.reach(rt, pass, level) {
        Ok(SharedReached::Read(hold)) => hold,
        _ => panic!(rt; "the level isn't for this pass to read"),
    }
}

// Reaches for a level that this pass gets no hold of.
fn refusal<R: Abort + Wait>(rt: &R, cache: &MipCache, pass: &mut MipPass, level: u8) -> ReachAnswer
    requires lock { IsIdle cache.now pass.old }
    requires level { IsLevel level }
    requires bare { hold_of pass.old.own ≡ None }
    ensures lock { IsIdle cache.now pass.new }
    ensures held { hold_of pass.new.own ≡ None }
{
    match cache.reach(rt, pass, level) {
        Ok(SharedReached::Pending { writer }) => ReachAnswer::Pending { writer },
        Ok(SharedReached::Full) => ReachAnswer::Full,
        _ => panic!(rt; "the pass has a hold"),
    }
}

// The pass writes the level, with its plane.
fn made<'a, R: Abort + Wait + Threads + Sync>(
    rt: &R,
    alloc: Global,
    cache: &'a MipCache,
    source: &Source,
    pass: &mut MipPass,
    hold: WriteHold<'a>,
) -> ReadHold<'a>
    requires lock { IsIdle cache.now pass.old }
    requires source { source.now ≡ cache.now.name.source }
    requires hold { hold.source ≡ cache.now.name.source }
    requires held { hold_of pass.old.own ≡ Some (Writes hold.level) }
    ensures lock { IsIdle cache.now pass.new }
    ensures held { hold_of pass.new.own ≡ Some (Reads hold.entry.level) }
    ensures hold { result ≡ hold.entry }
{
    match level(rt, alloc, source, hold.level()) {
        Ok(plane) => cache.demote(rt, pass, hold, plane),
        Err(_) => panic!(rt; "no plane"),
    }
}

// The whole of the level.
fn whole_of(alloc: Global, cache: &MipCache, source: &Source, hold: &ReadHold<'_>) -> Option<Plane>
    requires source { source.now ≡ cache.now.name.source }
    requires hold { hold.now.source ≡ cache.now.name.source }
{
    let (w, h) = source.plane().sides();
    let (level_w, level_h) = level_sides(w, h, hold.level());
    let region = Region::new(0, 0, level_w, level_h)?;
    cache.read(alloc, hold, region).ok()
}

// The first pass writes level 2. Meanwhile the second is refused it, as well as another, and no slot is given up.
fn write_alone<'a, R: Abort + Wait + Threads + Sync>(
    rt: &R,
    alloc: Global,
    cache: &'a MipCache,
    source: &Source,
    first: &mut MipPass,
    second: &mut MipPass,
) -> ReadHold<'a>
    requires source { source.now ≡ cache.now.name.source }
    requires first { IsIdle cache.now first.old }
    requires first_bare { hold_of first.old.own ≡ None }
    requires second { IsIdle cache.now second.old }
    requires second_bare { hold_of second.old.own ≡ None }
    ensures first { IsIdle cache.now first.new }
    ensures held { hold_of first.new.own ≡ Some (Reads 2) }
    ensures hold { result ≡ spot cache.now.name.source 2 }
    ensures second { IsIdle cache.now second.new }
    ensures second_bare { hold_of second.new.own ≡ None }
{
    let hold = write_hold(rt, cache, first, 2);
    let pending = refusal(rt, cache, second, 2);
    assert!(rt; pending == ReachAnswer::Pending { writer: 1 });
    let full = refusal(rt, cache, second, 3);
    assert!(rt; full == ReachAnswer::Full);
    assert!(rt; cache.evict_one(rt, second).ok() == Some(None));
    made(rt, alloc, cache, source, first, hold)
}

// The second pass reads level 2 beside the first, and then both leave it. It has two pixels: the first block
// has 4 columns, and the last column takes in the one before it.
fn read_together<'a, R: Abort + Wait>(
    rt: &R,
    alloc: Global,
    cache: &'a MipCache,
    source: &Source,
    first: &mut MipPass,
    mine: ReadHold<'a>,
    second: &mut MipPass,
)
    requires source { source.now ≡ cache.now.name.source }
    requires first { IsIdle cache.now first.old }
    requires held { hold_of first.old.own ≡ Some (Reads 2) }
    requires hold { mine ≡ spot cache.now.name.source 2 }
    requires second { IsIdle cache.now second.old }
    requires second_bare { hold_of second.old.own ≡ None }
    ensures first { IsIdle cache.now first.new }
    ensures first_bare { hold_of first.new.own ≡ None }
    ensures second { IsIdle cache.now second.new }
    ensures second_bare { hold_of second.new.own ≡ None }
{
    let theirs = read_hold(rt, cache, second, 2);
    let plane = whole_of(alloc, cache, source, &theirs).expect(rt, "a plane");
    assert!(rt; plane.values() == [11, 11, 12, 14, 13, 13].as_slice());
    cache.leave(rt, first, mine);
    cache.leave(rt, second, theirs);
}

// The pass is to write the level, and gives it up.
fn give_up<R: Abort + Wait>(rt: &R, cache: &MipCache, pass: &mut MipPass, level: u8)
    requires lock { IsIdle cache.now pass.old }
    requires level { IsLevel level }
    requires bare { hold_of pass.old.own ≡ None }
    ensures lock { IsIdle cache.now pass.new }
    ensures bare { hold_of pass.new.own ≡ None }
{
    let hold = write_hold(rt, cache, pass, level);
    cache.abandon(rt, pass, hold);
}

#[test]
fn one_slot_has_one_writer_or_readers_among_passes(rt: HostRuntime) -> Result<(), Fail> {
    let source = ramp(rt.alloc())?;
    let (cache, mut passes) = MipCache::new(rt.alloc(), Arc::try_clone(&source)?, 1, 3)?;
    let mut second = passes.pop().ok_or("three passes")?;
    let mut first = passes.pop().ok_or("three passes")?;
    let mine = write_alone(&rt, rt.alloc(), &cache, &source, &mut first, &mut second);
    read_together(
        &rt,
        rt.alloc(),
        &cache,
        &source,
        &mut first,
        mine,
        &mut second,
    );
    assert!(rt; cache.evict_one(&rt, &mut second)? == Some(2));
    give_up(&rt, &cache, &mut second, 3);
    give_up(&rt, &cache, &mut first, 2);
    Ok(())
}
