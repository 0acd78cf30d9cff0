ghost use Rattle.std.specs.Prelude.{◌≡◌};
ghost use Rattle.mip_cache.specs.declared.passes.Reached.TheVariants.{Read, Pending, Write, Full};
ghost use Rattle.mip_cache.specs.Passes.{read_pass, write_pass};

use mip_cache::{Entry, Held, MipState, Reached, ReadPass, WritePass};
use std::test::Fail;

// What `reach` gave, where its contract says which variant that is.
fn written(reached: Reached, worker: u32, level: u8) -> WritePass
    requires { reached ≡ Write (write_pass worker level) }
    ensures { result ≡ write_pass worker level }
{
    match reached {
        Reached::Write(pass) => pass,
        _ => unreachable!(),
    }
}

fn read(reached: Reached, level: u8) -> ReadPass
    requires { reached ≡ Read (read_pass level) }
    ensures { result ≡ read_pass level }
{
    match reached {
        Reached::Read(pass) => pass,
        _ => unreachable!(),
    }
}

fn pending(reached: Reached, worker: u32) -> u32
    requires { reached ≡ Pending worker }
    ensures { result ≡ worker }
{
    match reached {
        Reached::Pending { writer } => writer,
        _ => unreachable!(),
    }
}

fn is_full(reached: Reached) -> bool
    requires { reached ≡ Full }
{
    match reached {
        Reached::Full => true,
        _ => unreachable!(),
    }
}

#[test]
fn one_slot_has_one_writer_or_readers(rt: HostRuntime) -> Result<(), Fail> {
    let mut state = MipState::new(rt.alloc(), 1)?;
    let pass = written(state.reach(1, 2), 1, 2);
    assert_eq!(rt; pending(state.reach(2, 2), 1), 1);
    assert!(rt; is_full(state.reach(2, 3)));
    assert_eq!(rt; state.evict_one(), None);
    let first = state.demote(pass);
    let second = read(state.reach(2, 2), 2);
    state.leave(second);
    assert_eq!(rt; state.evict_one(), None);
    state.leave(first);
    assert_eq!(rt; state.evict_one(), Some(2));
    let pass = written(state.reach(2, 3), 2, 3);
    state.abandon(pass);
    assert!(rt; state.entries().is_empty());
    Ok(())
}

// Levels 3, 2 and 1 stand in this order. Level 2 is read again, which brings it to the front, and 3 is
// read still: so 1 goes, then 2.
#[test]
fn the_last_level_that_nobody_reads_goes_first(rt: HostRuntime) -> Result<(), Fail> {
    let mut state = MipState::new(rt.alloc(), 3)?;
    let pass = written(state.reach(1, 1), 1, 1);
    let first = state.demote(pass);
    let pass = written(state.reach(1, 2), 1, 2);
    let second = state.demote(pass);
    let pass = written(state.reach(1, 3), 1, 3);
    let third = state.demote(pass);
    state.leave(first);
    state.leave(second);
    let second = read(state.reach(2, 2), 2);
    state.leave(second);
    assert_eq!(rt; state.evict_one(), Some(1));
    assert_eq!(rt; state.evict_one(), Some(2));
    assert_eq!(rt; state.evict_one(), None);
    let held = Held::Ready { readers: 1 };
    assert_eq!(rt; state.entries(), [Entry { level: 3, held }].as_slice());
    state.leave(third);
    Ok(())
}
