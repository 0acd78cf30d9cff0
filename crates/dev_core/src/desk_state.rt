ghost use Rattle.std.specs.Prelude.{◌≡◌, ◌≤◌, ◌+◌, [], length, false, IfOk, IfSome, OnOk, OnErr, slice_get};
ghost use Rattle.std.specs.Arc.{arc_value};
ghost use Rattle.edit_steps.specs.Changes.{change_kind};
ghost use Rattle.edit_steps.specs.Script.{changes, behind, concerns_between};
ghost use Rattle.journal.specs.declared.entry.Entry.TheVariants as entry;
ghost use Rattle.journal.specs.Desk.{May, Legal, IsIdle, IsSuperseded, is_due_job, is_settled, is_complete, due, next_step};
ghost use Rattle.journal.specs.Tickets.{asked_moment};
ghost use Rattle.outside.specs.declared.job_name.JobName.TheVariants.{Pipe as pipe_job, Ticket as ticket_job};
ghost use Rattle.dev_core.specs.DeskState.{now, with_entry, Gives};
ghost use Rattle.dev_core.specs.Jobs.{frame_of, job_seen, OfPipe, IsTicketJob, done_entry, back_entry};
ghost use Rattle.dev_core.specs.Lines.{frames_of};

use crate::frame::Frame;
use crate::job::Job;
use crate::next::Next;
use crate::room::Roomy;
use crate::subject::Subject;
use edit_steps::Step;
use history::{History, Kind};
use journal::{Desk, Entry, NextStep, ask_of};
use outside::{JobName, Pipe};
use std::alloc::{AllocError, Global};
use std::marker::Model;
use std::sync::Arc;
use undo_stack::Undo;

/// The room that is made beside that for each ticket: for the entry itself, for the last entry of each
/// pipe's job, for one more ticket, for the close and for the stop.
const ROOM: usize = 8;

/// A desk, seen as its subject and its journal. The journal is legal at all times: each entry stands
/// where it may after those before it. Each job that was done has its frame, in the journal's order.
///
/// Each call adds exactly one entry, or none where it wants memory. The room for the entry that ends a
/// job, and for its frame, is taken when the job is taken, and that for the close and the stop at the
/// start. The desk keeps the history of the present moment, so that no call makes it anew.
#[derive(Drop)]
pub struct DeskState {
    subject: Arc<Subject>,
    step_count: u32,
    journal: Roomy<Entry>,
    frames: Roomy<Frame>,
    desk: Desk,
    histories: Undo<History>,
}

impl Model for DeskState {
    ghost use Rattle.std.specs.Arc.{arc_value};
    ghost use Rattle.dev_core.specs.DeskState.{DeskSeen, Keeps};

    ghost Value = { DeskSeen };

    ghost view = { λ s. record { subject = arc_value s.subject; journal = s.journal.items } };

    ghost invariant = { λ s. Keeps (arc_value s.subject) s.step_count s.journal s.frames s.desk s.histories };
}

impl DeskState {
    /// A desk at which nothing was done yet.
    pub fn start(alloc: Global, subject: Arc<Subject>) -> Result<DeskState, AllocError>
        ensures { IfOk result (λ s. s ≡ record { subject = arc_value subject; journal = [] }) }
    {
        let step_count = subject.script().step_count();
        let histories = subject.script().begin(alloc)?;
        let mut journal = Roomy::new(alloc);
        journal.make_room(2)?;
        Ok(DeskState {
            subject,
            step_count,
            journal,
            frames: Roomy::new(alloc),
            desk: Desk::start(alloc),
            histories,
        })
    }

    pub fn subject(&self) -> &Arc<Subject>
        ensures { arc_value result.now ≡ self.now.subject }
    {
        &self.subject
    }

    /// The number of changes so far.
    pub fn moment(&self) -> u32
        ensures moment { result ≡ (now self.now).moment }
        ensures within { result ≤ changes self.now.subject.script }
    {
        self.desk.moment()
    }

    /// All that was done, first to last.
    pub fn journal(&self) -> &[Entry]
        ensures journal { result.now ≡ self.now.journal }
        ensures legal { Legal self.now.subject.script self.now.journal }
    {
        self.journal.as_slice()
    }

    /// The frame of each job that was done, in the journal's order.
    pub fn frames(&self) -> &[Frame]
        ensures { result.now ≡ frames_of self.now.subject self.now.journal }
    {
        self.frames.as_slice()
    }

    /// What the editor does next.
    pub fn next_step(&self) -> NextStep
        ensures { result ≡ next_step self.now.subject.script (now self.now) }
    {
        self.desk.next_step(self.subject.script())
    }

    /// The script's next step, where one is left.
    pub fn step(&self) -> Option<Step>
        ensures step { result ≡ slice_get self.now.subject.script.steps (now self.now).steps }
        ensures within { (now self.now).steps ≤ length self.now.subject.script.steps }
    {
        let steps = self.subject.script().steps();
        steps.get(self.desk.steps() as usize).copied()
    }

    /// Whether the editor has closed the desk.
    pub fn is_closed(&self) -> bool
        ensures { result ≡ (now self.now).closed }
    {
        self.desk.is_closed()
    }

    /// Whether a worker has stopped the desk.
    pub fn is_stopped(&self) -> bool
        ensures { result ≡ (now self.now).stopped }
    {
        self.desk.is_stopped()
    }

    /// What a worker takes next: the full pipe, the preview or the second pipe, where it is due, or else
    /// the least ticket that waits; `None` exactly where nothing is due.
    pub fn due(&self) -> Option<JobName>
        ensures { result ≡ due self.now.subject.script (now self.now) }
    {
        self.desk.due(self.subject.script())
    }

    /// Whether the job may be taken: its pipe is free and not up to date, or its ticket waits.
    pub fn is_due(&self, name: JobName) -> bool
        ensures { result ≡ is_due_job self.now.subject.script (now self.now) name }
    {
        self.desk.is_due_job(self.subject.script(), name)
    }

    /// Whether each pipe is up to date and free, and each ticket that was asked is done.
    pub fn is_settled(&self) -> bool
        ensures { result ≡ is_settled self.now.subject.script (now self.now) }
    {
        self.desk.is_settled(self.subject.script())
    }

    /// Whether every step is done, and the desk is closed and settled.
    pub fn complete(&self) -> bool
        ensures { result ≡ is_complete self.now.subject.script (now self.now) }
    {
        self.desk.is_complete(self.subject.script())
    }

    /// Whether one of the changes after that moment so far concerns the pipe.
    pub fn is_later(&self, pipe: Pipe, moment: u32) -> bool
        ensures { result ≡ concerns_between self.now.subject.script pipe moment (now self.now).moment }
    {
        self.desk.is_later(self.subject.script(), pipe, moment)
    }
}

// The entry that a finished job leaves.
fn done_entry(name: JobName, worker: u32, moment: u32) -> Entry
    ensures { result ≡ done_entry name worker moment }
{
    match name {
        JobName::Pipe(pipe) => Entry::Published {
            pipe,
            worker,
            moment,
        },
        JobName::Ticket(ticket) => Entry::TicketDone { ticket, worker },
    }
}

// The entry that a job leaves which is given back.
fn back_entry(name: JobName, worker: u32) -> Entry
    ensures { result ≡ back_entry name worker }
{
    match name {
        JobName::Pipe(pipe) => Entry::GaveBack { pipe, worker },
        JobName::Ticket(ticket) => Entry::TicketBack { ticket, worker },
    }
}

/// What the editor does.
impl DeskState {
    /// Makes the next step, a change, and says its kind.
    pub fn change(&mut self, alloc: Global) -> Result<Kind, AllocError>
        requires { May self.old.subject.script (now self.old) (entry.Changed ((now self.old).moment + 1)) }
        ensures ok { OnOk result (self.new ≡ with_entry self.old (entry.Changed ((now self.old).moment + 1))) }
        ensures kind { IfOk result (λ kind. IfSome (slice_get self.old.subject.script.steps (now self.old).steps) (λ step. kind ≡ change_kind (behind self.old.subject.script (now self.old).steps) step)) }
        ensures err { OnErr result (self.new ≡ self.old) }
    {
        self.journal.make_room(self.desk.ticket_count() + ROOM)?;
        let script = self.subject.script();
        let kind = script.follow(alloc, &mut self.histories, self.desk.steps())?;
        let entry = Entry::Changed {
            moment: self.desk.moment() + 1,
        };
        self.journal.add(entry);
        self.desk.note(entry);
        Ok(kind)
    }

    /// Makes the next step, which asks for a picture, and says its ticket.
    pub fn ask(&mut self) -> Result<u32, AllocError>
        requires { May self.old.subject.script (now self.old) (entry.Asked (length (now self.old).tickets + 1) (now self.old).moment) }
        ensures ok { OnOk result (self.new ≡ with_entry self.old (entry.Asked (length (now self.old).tickets + 1) (now self.old).moment)) }
        ensures ticket { IfOk result (λ ticket. ticket ≡ length (now self.old).tickets + 1) }
        ensures err { OnErr result (self.new ≡ self.old) }
    {
        self.journal.make_room(self.desk.ticket_count() + ROOM)?;
        let ticket = self.desk.ticket_count() as u32 + 1;
        let moment = self.desk.moment();
        self.desk.ask(ticket, moment)?;
        self.journal.add(Entry::Asked { ticket, moment });
        Ok(ticket)
    }

    /// Makes the next step, a settle.
    pub fn settle(&mut self) -> Result<(), AllocError>
        requires { May self.old.subject.script (now self.old) entry.Settled }
        ensures ok { OnOk result (self.new ≡ with_entry self.old entry.Settled) }
        ensures err { OnErr result (self.new ≡ self.old) }
    {
        self.journal.make_room(self.desk.ticket_count() + ROOM)?;
        self.journal.add(Entry::Settled);
        self.desk.note(Entry::Settled);
        Ok(())
    }

    /// Closes the desk. Takes no memory.
    pub fn close(&mut self)
        requires { May self.old.subject.script (now self.old) entry.Closed }
        ensures { self.new ≡ with_entry self.old entry.Closed }
    {
        self.journal.add(Entry::Closed);
        self.desk.note(Entry::Closed);
    }
}

/// What the workers do.
impl DeskState {
    /// Gives the job of a pipe that is due to a worker that has none, at the present moment.
    pub fn take_pipe(&mut self, alloc: Global, pipe: Pipe, worker: u32) -> Result<Job, AllocError>
        requires { May self.old.subject.script (now self.old) (entry.Took pipe worker (now self.old).moment) }
        ensures ok { OnOk result (self.new ≡ with_entry self.old (entry.Took pipe worker (now self.old).moment)) }
        ensures job { IfOk result (λ j. j ≡ job_seen self.old.subject (pipe_job pipe) worker (now self.old).moment) }
        ensures err { OnErr result (self.new ≡ self.old) }
    {
        let moment = self.desk.moment();
        let history = self.histories.now().copy(alloc)?;
        let subject = Arc::try_clone(&self.subject)?;
        let room = self.desk.ticket_count() + ROOM;
        self.journal.make_room(room)?;
        self.frames.make_room(room)?;
        let entry = Entry::Took {
            pipe,
            worker,
            moment,
        };
        self.journal.add(entry);
        self.desk.note(entry);
        Ok(Job::of(subject, JobName::Pipe(pipe), worker, moment, history))
    }

    /// Gives the job of a ticket that waits to a worker that has none, at the moment at which it was asked.
    pub fn take_ticket(
        &mut self,
        alloc: Global,
        ticket: u32,
        worker: u32,
    ) -> Result<Job, AllocError>
        requires { May self.old.subject.script (now self.old) (entry.TicketTook ticket worker) }
        ensures ok { OnOk result (self.new ≡ with_entry self.old (entry.TicketTook ticket worker)) }
        ensures job { IfOk result (λ j. j ≡ job_seen self.old.subject (ticket_job ticket) worker (asked_moment self.old.subject.script ticket)) }
        ensures err { OnErr result (self.new ≡ self.old) }
    {
        let Some(ask) = ask_of(self.subject.script(), ticket) else {
            unreachable!()
        };
        let history = self.subject.script().history_at(alloc, ask.moment)?;
        let subject = Arc::try_clone(&self.subject)?;
        let room = self.desk.ticket_count() + ROOM;
        self.journal.make_room(room)?;
        self.frames.make_room(room)?;
        let entry = Entry::TicketTook { ticket, worker };
        self.journal.add(entry);
        self.desk.note(entry);
        Ok(Job::of(
            subject,
            JobName::Ticket(ticket),
            worker,
            ask.moment,
            history,
        ))
    }

    /// Gives a worker that has no job what is due. `Stopped` exactly where the desk was stopped; else
    /// `Closed` or `Nothing` exactly where nothing is due, by whether the editor has closed.
    pub fn next(&mut self, alloc: Global, worker: u32) -> Result<Next, AllocError>
        requires { IsIdle (now self.old) worker }
        ensures { Gives self.old worker self.new result }
    {
        if self.desk.is_stopped() {
            return Ok(Next::Stopped);
        }
        match self.due() {
            Some(JobName::Pipe(pipe)) => Ok(Next::Job(self.take_pipe(alloc, pipe, worker)?)),
            Some(JobName::Ticket(ticket)) => {
                Ok(Next::Job(self.take_ticket(alloc, ticket, worker)?))
            }
            None if self.desk.is_closed() => Ok(Next::Closed),
            None => Ok(Next::Nothing),
        }
    }

    /// Lets a worker begin its job anew at the present moment, where a change after the job's moment
    /// concerns its pipe. The job is a pipe's, and of this desk's subject.
    pub fn restart(&mut self, alloc: Global, job: &mut Job) -> Result<(), AllocError>
        requires subject { job.old.subject ≡ self.old.subject }
        requires row { OfPipe job.old.name (λ p. IsSuperseded self.old.subject.script (now self.old) p job.old.worker job.old.moment) }
        ensures ok { OnOk result (OfPipe job.old.name (λ p. self.new ≡ with_entry self.old (entry.Restarted p job.old.worker (now self.old).moment))) }
        ensures job { OnOk result (job.new ≡ record job.old { moment = (now self.old).moment }) }
        ensures err { OnErr result ((self.new ≡ self.old) × (job.new ≡ job.old)) }
    {
        let JobName::Pipe(pipe) = job.name() else {
            unreachable!()
        };
        let history = self.histories.now().copy(alloc)?;
        self.journal.make_room(self.desk.ticket_count() + ROOM)?;
        let moment = self.desk.moment();
        let entry = Entry::Restarted {
            pipe,
            worker: job.worker(),
            moment,
        };
        self.journal.add(entry);
        self.desk.note(entry);
        job.begin_anew(moment, history);
        Ok(())
    }

    // Takes the frame of a job, and ends the job.
    fn finish(&mut self, job: Job, frame: Frame)
        requires subject { job.subject ≡ self.old.subject }
        requires row { May self.old.subject.script (now self.old) (done_entry job.name job.worker job.moment) }
        requires frame { frame ≡ frame_of job }
        ensures { self.new ≡ with_entry self.old (done_entry job.name job.worker job.moment) }
    {
        let entry = done_entry(job.name(), job.worker(), job.moment());
        job.end();
        self.journal.add(entry);
        self.frames.add(frame);
        self.desk.note(entry);
    }

    /// Takes the frame of a pipe's job, and ends the job. Takes no memory. The job is of this desk's
    /// subject.
    pub fn publish(&mut self, job: Job, frame: Frame)
        requires pipe { OfPipe job.name (λ p. Unit {0}) }
        requires subject { job.subject ≡ self.old.subject }
        requires row { May self.old.subject.script (now self.old) (done_entry job.name job.worker job.moment) }
        requires frame { frame ≡ frame_of job }
        ensures { self.new ≡ with_entry self.old (done_entry job.name job.worker job.moment) }
    {
        self.finish(job, frame);
    }

    /// Takes the frame of a ticket, and ends the job. Takes no memory. The job is of this desk's subject.
    pub fn finish_ticket(&mut self, job: Job, frame: Frame)
        requires ticket { IsTicketJob job.name }
        requires subject { job.subject ≡ self.old.subject }
        requires row { May self.old.subject.script (now self.old) (done_entry job.name job.worker job.moment) }
        requires frame { frame ≡ frame_of job }
        ensures { self.new ≡ with_entry self.old (done_entry job.name job.worker job.moment) }
    {
        self.finish(job, frame);
    }

    /// Takes a job back with no frame. Takes no memory.
    pub fn give_back(&mut self, job: Job)
        requires subject { job.subject ≡ self.old.subject }
        requires row { May self.old.subject.script (now self.old) (back_entry job.name job.worker) }
        ensures { self.new ≡ with_entry self.old (back_entry job.name job.worker) }
    {
        let entry = back_entry(job.name(), job.worker());
        job.end();
        self.journal.add(entry);
        self.desk.note(entry);
    }

    /// A worker stops the desk: no more jobs are to be given out. Takes no memory.
    pub fn stop(&mut self, worker: u32)
        requires { May self.old.subject.script (now self.old) (entry.Stopped worker) }
        ensures { self.new ≡ with_entry self.old (entry.Stopped worker) }
    {
        let entry = Entry::Stopped { worker };
        self.journal.add(entry);
        self.desk.note(entry);
    }
}
