//! A desk of two seats, from its start to its close.
ghost use Rattle.std.specs.Prelude.{◌≡◌, []};
ghost use Rattle.turn_lock.specs.Known.{IsIdle};
ghost use Rattle.desk.specs.Passes.{HasNoJob};

use crate::subjects::settling_subject;
use desk::{DeskPass, Edited, NextJob, SharedDesk};
use dev_core::DeskState;
use journal::Entry;
use outside::{JobName, Pipe};
use std::alloc::{AllocError, Global};
use std::sync::Wait;
use std::test::Fail;

// Takes what is due, and gives it back.
fn take_and_give_back<R: Wait>(
    rt: &R,
    alloc: Global,
    desk: &SharedDesk,
    pass: &mut DeskPass,
) -> Result<Option<(JobName, u32)>, AllocError>
    requires lock { IsIdle desk.now pass.old }
    requires free { HasNoJob desk.now pass.old }
    ensures lock { IsIdle desk.now pass.new }
    ensures number { pass.new.number ≡ pass.old.number }
{
    let Some(job) = desk.try_job(rt, alloc, pass)? else {
        return Ok(None);
    };
    let taken = (job.name(), job.moment());
    desk.give_back(rt, pass, job);
    Ok(Some(taken))
}

// Whether a worker without a job is told that the desk was stopped.
fn is_stopped<R: Wait>(
    rt: &R,
    alloc: Global,
    desk: &SharedDesk,
    pass: &mut DeskPass,
) -> Result<bool, AllocError>
    requires lock { IsIdle desk.now pass.old }
    requires free { HasNoJob desk.now pass.old }
    ensures lock { IsIdle desk.now pass.new }
    ensures number { pass.new.number ≡ pass.old.number }
{
    match desk.next_job(rt, alloc, pass)? {
        NextJob::Stopped => Ok(true),
        NextJob::Closed => Ok(false),
        NextJob::Job(job) => {
            desk.give_back(rt, pass, job);
            Ok(false)
        }
    }
}

// Puts both passes together again, and closes.
fn close_both(
    desk: SharedDesk,
    first: DeskPass,
    second: DeskPass,
    mut passes: Vec<DeskPass>,
) -> Result<DeskState, AllocError>
    requires first { IsIdle desk first × (first.number ≡ 0) }
    requires second { IsIdle desk second × (second.number ≡ 1) }
    requires all { (passes.items ≡ []) × (desk.id.seats ≡ 2) }
{
    passes.push(first)?;
    passes.push(second)?;
    Ok(desk.close(passes))
}

#[test]
fn a_desk_that_is_stopped_gives_out_no_job(rt: HostRuntime) -> Result<(), Fail> {
    let alloc = rt.alloc();
    let (desk, mut passes) = SharedDesk::new(alloc, settling_subject(alloc)?, 2)?;
    let mut second = passes.pop().ok_or("two passes")?;
    let mut first = passes.pop().ok_or("two passes")?;
    assert_eq!(rt; desk.edit(&rt, alloc, &mut first)?, Edited::Unsettled);
    let taken = take_and_give_back(&rt, alloc, &desk, &mut first)?;
    assert_eq!(rt; taken, Some((JobName::Pipe(Pipe::Full), 0)));
    desk.stop(&rt, &mut second);
    assert!(rt; is_stopped(&rt, alloc, &desk, &mut second)?);
    let state = close_both(desk, first, second, passes)?;
    let journal = [
        Entry::Took {
            pipe: Pipe::Full,
            worker: 0,
            moment: 0,
        },
        Entry::GaveBack {
            pipe: Pipe::Full,
            worker: 0,
        },
        Entry::Stopped { worker: 1 },
    ];
    assert_eq!(rt; state.journal(), journal.as_slice());
    Ok(())
}
