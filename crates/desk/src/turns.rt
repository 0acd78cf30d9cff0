// What is done at the desk within one turn.
ghost use Rattle.std.specs.Prelude.{◌≡◌, false, Some, IfOk, IfSome, slice_get};
ghost use Rattle.journal.specs.Desk.{IsIdle, due};
ghost use Rattle.dev_core.specs.DeskState.{now};
ghost use Rattle.desk.specs.Turns.{Entered};
ghost use Rattle.desk.specs.Edits.{edited, edit_adds};
ghost use Rattle.desk.specs.Given.{tried_job, found_job, name_in, taken, IsGivenAt, IsPolled};
ghost use Rattle.desk.specs.Stops.{stop_adds};

use crate::edited::Edited;
use crate::next_job::NextJob;
use dev_core::{DeskState, Job};
use edit_steps::Step;
use journal::is_ask;
use outside::JobName;
use std::alloc::{AllocError, Global};

// Makes the script's next step, which is this one.
fn make_step(state: &mut DeskState, alloc: Global, step: Step) -> Result<Edited, AllocError>
    requires open { (now state.old).closed ≡ false }
    requires step { slice_get state.old.subject.script.steps (now state.old).steps ≡ Some step }
    ensures entered { Entered state.old state.new (edit_adds (now state.new).moment result) }
    ensures answer { IfOk result (λ e. e ≡ edited state.old.subject.script (now state.old)) }
{
    if step.is_change() {
        state.change(alloc)?;
        return Ok(Edited::Changed(state.moment()));
    }
    if is_ask(&step) {
        let ticket = state.ask()?;
        return Ok(Edited::Asked(ticket));
    }
    if !state.is_settled() {
        return Ok(Edited::Unsettled);
    }
    state.settle()?;
    Ok(Edited::Settled)
}

// What the editor does: the next step, or the close.
pub(crate) fn edit_desk(state: &mut DeskState, alloc: Global) -> Result<Edited, AllocError>
    ensures entered { Entered state.old state.new (edit_adds (now state.new).moment result) }
    ensures answer { IfOk result (λ e. e ≡ edited state.old.subject.script (now state.old)) }
{
    if state.is_closed() {
        return Ok(Edited::AllDone);
    }
    if let Some(step) = state.step() {
        return make_step(state, alloc, step);
    }
    state.close();
    Ok(Edited::Closed)
}

// Gives a worker that has no job what is due.
pub(crate) fn take_due(
    state: &mut DeskState,
    alloc: Global,
    worker: u32,
) -> Result<Option<Job>, AllocError>
    requires { IsIdle (now state.old) worker }
    ensures entered { Entered state.old state.new (taken (tried_job result)) }
    ensures answer { IfOk result (λ o. due state.old.subject.script (now state.old) ≡ name_in o) }
    ensures given { IfSome (tried_job result) (IsGivenAt state.old.subject worker (now state.old).moment) }
{
    match state.due() {
        Some(JobName::Pipe(pipe)) => Ok(Some(state.take_pipe(alloc, pipe, worker)?)),
        Some(JobName::Ticket(ticket)) => Ok(Some(state.take_ticket(alloc, ticket, worker)?)),
        None => Ok(None),
    }
}

// Gives a worker that has no job what is due, and tells it where no more will be; `None` where it has to wait.
pub(crate) fn next_due(
    state: &mut DeskState,
    alloc: Global,
    worker: u32,
) -> Result<Option<NextJob>, AllocError>
    requires { IsIdle (now state.old) worker }
    ensures entered { Entered state.old state.new (taken (found_job result)) }
    ensures answer { IfOk result (λ o. IsPolled state.old.subject.script o (now state.old)) }
    ensures given { IfSome (found_job result) (IsGivenAt state.old.subject worker (now state.old).moment) }
{
    if state.is_stopped() {
        return Ok(Some(NextJob::Stopped));
    }
    match take_due(state, alloc, worker)? {
        Some(job) => Ok(Some(NextJob::Job(job))),
        None if state.is_closed() => Ok(Some(NextJob::Closed)),
        None => Ok(None),
    }
}

// Stops the desk, unless it was stopped before.
pub(crate) fn stop_desk(state: &mut DeskState, worker: u32)
    ensures { Entered state.old state.new (stop_adds worker (now state.old).stopped) }
{
    if state.is_stopped() {
        return;
    }
    state.stop(worker);
}
