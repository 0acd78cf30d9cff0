//! What the editor does, and how the workers' jobs begin and end.
ghost use Rattle.std.specs.Prelude.{◌≡◌, false, slice_get, Some, IfOk, OnOk, OnErr, Ok};
ghost use Rattle.journal.specs.Desk.{May};
ghost use Rattle.dev_core.specs.DeskState.{now, with_entry};
ghost use Rattle.dev_core.specs.Jobs.{took_entry, job_seen};
ghost use Rattle.events.specs.declared.event.Event.TheVariants as event;
ghost use Rattle.stepped.specs.Machine.{Makes, moment_for, take_event, deliver_event};
ghost use Rattle.stepped.specs.Step.{desk_at, is_pipe, is_behind};

use crate::answer::Answer;
use crate::machine::Machine;
use crate::open_run::OpenRun;
use crate::seats::{put_run, run_at, take_run};
use dev_core::{DeskState, Job};
use edit_steps::Step;
use journal::is_ask;
use outside::JobName;
use std::alloc::{AllocError, Global};

// Gives a job that is due to a worker that has none.
fn take_job(
    desk: &mut DeskState,
    alloc: Global,
    name: JobName,
    worker: u32,
) -> Result<Job, AllocError>
    requires { May desk.old.subject.script (now desk.old) (took_entry name worker (now desk.old).moment) }
    ensures ok { OnOk result (desk.new ≡ with_entry desk.old (took_entry name worker (now desk.old).moment)) }
    ensures job { IfOk result (λ j. j ≡ job_seen desk.old.subject name worker (moment_for desk.old name)) }
    ensures err { OnErr result (desk.new ≡ desk.old) }
{
    match name {
        JobName::Pipe(pipe) => desk.take_pipe(alloc, pipe, worker),
        JobName::Ticket(ticket) => desk.take_ticket(alloc, ticket, worker),
    }
}

// Whether one of the changes after a job's moment concerns its pipe.
fn is_behind(desk: &DeskState, job: &Job) -> bool
    ensures { result ≡ is_behind desk.now.subject.script (now desk.now) job.now.name job.now.moment }
{
    match job.name() {
        JobName::Pipe(pipe) => desk.is_later(pipe, job.moment()),
        JobName::Ticket(_) => false,
    }
}

fn is_pipe(name: JobName) -> bool
    ensures { result ≡ is_pipe name }
{
    matches!(name, JobName::Pipe(_))
}

impl Machine {
    // Makes the script's next step, which is this one.
    fn make_step(&mut self, alloc: Global, step: Step) -> Result<Option<Answer>, AllocError>
        requires open { (desk_at self.old).closed ≡ false }
        requires step { slice_get self.old.subject.script.steps (desk_at self.old).steps ≡ Some step }
        ensures { Makes self.old event.Editor self.new result }
    {
        if step.is_change() {
            self.desk.change(alloc)?;
            return Ok(Some(Answer::Moment(self.desk.moment())));
        }
        if is_ask(&step) {
            let ticket = self.desk.ask()?;
            return Ok(Some(Answer::Ticket(ticket)));
        }
        if !self.desk.is_settled() {
            return Ok(None);
        }
        self.desk.settle()?;
        Ok(Some(Answer::Done))
    }

    pub(crate) fn edit(&mut self, alloc: Global) -> Result<Option<Answer>, AllocError>
        ensures { Makes self.old event.Editor self.new result }
    {
        if self.desk.is_closed() {
            return Ok(None);
        }
        if let Some(step) = self.desk.step() {
            return self.make_step(alloc, step);
        }
        self.desk.close();
        Ok(Some(Answer::Done))
    }

    pub(crate) fn take(
        &mut self,
        alloc: Global,
        worker: u32,
        name: JobName,
    ) -> Result<Option<Answer>, AllocError>
        ensures { Makes self.old (take_event name worker) self.new result }
    {
        if worker as usize >= self.runs.len() {
            return Ok(None);
        }
        if run_at(&self.runs, worker).is_some() {
            return Ok(None);
        }
        if !self.desk.is_due(name) {
            return Ok(None);
        }
        let job = take_job(&mut self.desk, alloc, name, worker)?;
        put_run(&mut self.runs, worker, OpenRun::begin(job));
        Ok(Some(Answer::Done))
    }

    pub(crate) fn look(&self, worker: u32) -> Option<Answer>
        ensures { Makes self.now (event.Look worker) self.now (Ok result) }
    {
        let run = run_at(&self.runs, worker)?;
        if !is_pipe(run.job().name()) {
            return None;
        }
        if is_behind(&self.desk, run.job()) {
            return Some(Answer::Superseded(self.desk.moment()));
        }
        Some(Answer::Go)
    }

    pub(crate) fn restart(
        &mut self,
        alloc: Global,
        worker: u32,
    ) -> Result<Option<Answer>, AllocError>
        ensures { Makes self.old (event.Restart worker) self.new result }
    {
        let Some(run) = run_at(&self.runs, worker) else {
            return Ok(None);
        };
        if !is_behind(&self.desk, run.job()) {
            return Ok(None);
        }
        if self.levels.hold(worker).is_some() {
            return Ok(None);
        }
        let mut run = take_run(&mut self.runs, worker);
        let done = run.restart(alloc, &mut self.desk);
        put_run(&mut self.runs, worker, run);
        done?;
        Ok(Some(Answer::Done))
    }

    // Gives the frame of a run to the desk, where it is made, of a pipe's job or of a ticket's.
    pub(crate) fn deliver(&mut self, worker: u32, of_pipe: bool) -> Option<Answer>
        ensures { Makes self.old (deliver_event of_pipe worker) self.new (Ok result) }
    {
        let run = run_at(&self.runs, worker)?;
        if is_pipe(run.job().name()) != of_pipe {
            return None;
        }
        if !run.is_framed() {
            return None;
        }
        if self.levels.hold(worker).is_some() {
            return None;
        }
        let (job, frame) = take_run(&mut self.runs, worker).end();
        let Some(frame) = frame else { unreachable!() };
        match job.name() {
            JobName::Pipe(_) => self.desk.publish(job, frame),
            JobName::Ticket(_) => self.desk.finish_ticket(job, frame),
        }
        Some(Answer::Done)
    }

    pub(crate) fn give_back(&mut self, worker: u32) -> Option<Answer>
        ensures { Makes self.old (event.GiveBack worker) self.new (Ok result) }
    {
        run_at(&self.runs, worker)?;
        if self.levels.hold(worker).is_some() {
            return None;
        }
        let (job, _frame) = take_run(&mut self.runs, worker).end();
        self.desk.give_back(job);
        Some(Answer::Done)
    }
}
