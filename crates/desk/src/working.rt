ghost use Rattle.std.specs.Prelude.{◌≡◌, ◌<◌, [], ◌∷◌, IfOk, IfSome, OnOk, OnErr};
ghost use Rattle.turn_lock.specs.Known.{IsIdle};
ghost use Rattle.journal.specs.Desk.{Later, due};
ghost use Rattle.dev_core.specs.Jobs.{OfPipe, IsTicketJob, frame_of, done_entry, back_entry};
ghost use Rattle.desk.specs.Passes.{HasJob, HasNoJob, HasJust};
ghost use Rattle.desk.specs.Turns.{OneTurn, LastTurn, Found, KeepsLooks, desk_after};
ghost use Rattle.desk.specs.Given.{tried_job, next_job, found_job, name_in, taken, IsGivenAt, IsNext, IsPolled, restart_adds};

use crate::next_job::NextJob;
use crate::shared::{DeskPass, SharedDesk};
use crate::turns::{next_due, take_due};
use dev_core::{Frame, Job};
use std::alloc::{AllocError, Global};
use std::sync::Wait;

/// How a worker comes by its job.
impl SharedDesk {
    /// Gives the worker what is due, also where the desk was stopped; `None` exactly where nothing is due. It waits for
    /// its turn.
    pub fn try_job<R: Wait>(
        &self,
        rt: &R,
        alloc: Global,
        pass: &mut DeskPass,
    ) -> Result<Option<Job>, AllocError>
        requires lock { IsIdle self.now pass.old }
        requires free { HasNoJob self.now pass.old }
        ensures turn { OneTurn pass.old pass.new (taken (tried_job result)) }
        ensures answer { IfOk result (λ o. Found pass.new.seen (taken (tried_job result)) (λ d. due self.now.name.script d ≡ name_in o)) }
        ensures given { IfSome (tried_job result) (IsGivenAt self.now.name pass.new.number pass.new.mark) }
        ensures holds { HasJust self.now pass.new (tried_job result) }
        ensures mark { pass.new.mark ≡ (desk_after pass.new.seen).moment }
        ensures looks { KeepsLooks pass.old pass.new }
        ensures lock { IsIdle self.now pass.new }
        ensures number { pass.new.number ≡ pass.old.number }
    {
        let worker = pass.number();
        let mut turn = self.begin(rt, pass);
        let answer = take_due(turn.value(), alloc, worker);
        self.end(turn, pass);
        answer
    }

    // One turn of `next_job`; `None` where the worker has to wait.
    fn poll_job<R: Wait>(
        &self,
        rt: &R,
        alloc: Global,
        pass: &mut DeskPass,
    ) -> Result<Option<NextJob>, AllocError>
        requires lock { IsIdle self.now pass.old }
        requires free { HasNoJob self.now pass.old }
        ensures turn { OneTurn pass.old pass.new (taken (found_job result)) }
        ensures answer { IfOk result (λ o. Found pass.new.seen (taken (found_job result)) (IsPolled self.now.name.script o)) }
        ensures given { IfSome (found_job result) (IsGivenAt self.now.name pass.new.number pass.new.mark) }
        ensures holds { HasJust self.now pass.new (found_job result) }
        ensures mark { pass.new.mark ≡ (desk_after pass.new.seen).moment }
        ensures looks { KeepsLooks pass.old pass.new }
        ensures lock { IsIdle self.now pass.new }
        ensures number { pass.new.number ≡ pass.old.number }
    {
        let worker = pass.number();
        let mut turn = self.begin(rt, pass);
        let answer = next_due(turn.value(), alloc, worker);
        self.end(turn, pass);
        answer
    }

    /// Gives the worker what is due, and sleeps while nothing is. `Stopped` exactly where the desk was stopped; else
    /// `Closed` exactly where it is closed and nothing is due.
    pub fn next_job<R: Wait>(
        &self,
        rt: &R,
        alloc: Global,
        pass: &mut DeskPass,
    ) -> Result<NextJob, AllocError>
        requires lock { IsIdle self.now pass.old }
        requires free { HasNoJob self.now pass.old }
        ensures turns { LastTurn pass.old pass.new (taken (next_job result)) }
        ensures answer { IfOk result (λ n. Found pass.new.seen (taken (next_job result)) (IsNext self.now.name.script n)) }
        ensures given { IfSome (next_job result) (IsGivenAt self.now.name pass.new.number pass.new.mark) }
        ensures holds { HasJust self.now pass.new (next_job result) }
        ensures mark { pass.new.mark ≡ (desk_after pass.new.seen).moment }
        ensures looks { KeepsLooks pass.old pass.new }
        ensures lock { IsIdle self.now pass.new }
        ensures number { pass.new.number ≡ pass.old.number }
    {
        for _ in rt.forever() {
            let rings = self.rings();
            match self.poll_job(rt, alloc, pass) {
                Ok(Some(next)) => return Ok(next),
                Ok(None) => self.listen(rt, rings),
                Err(error) => return Err(error),
            }
        }
        unreachable!()
    }
}

/// How a worker begins its job anew, and ends it.
impl SharedDesk {
    /// Begins the job anew at the present moment. The job is a pipe's, and a change after its moment, up to the greatest
    /// mark that the pass has seen, concerns the pipe. It waits for its turn.
    pub fn restart<R: Wait>(
        &self,
        rt: &R,
        alloc: Global,
        pass: &mut DeskPass,
        job: &mut Job,
    ) -> Result<(), AllocError>
        requires lock { IsIdle self.now pass.old }
        requires holds { HasJob self.now pass.old job.old }
        requires later { OfPipe job.old.name (λ p. Later self.now.name.script p job.old.moment pass.old.mark) }
        ensures turn { OneTurn pass.old pass.new (restart_adds job.new result) }
        ensures job { job.new ≡ record job.old { moment = job.new.moment } }
        ensures moment { OnOk result (job.new.moment ≡ pass.new.mark) }
        ensures rises { OnOk result (job.old.moment < job.new.moment) }
        ensures same { OnErr result (job.new ≡ job.old) }
        ensures holds { HasJob self.now pass.new job.new }
        ensures mark { pass.new.mark ≡ (desk_after pass.new.seen).moment }
        ensures looks { KeepsLooks pass.old pass.new }
        ensures lock { IsIdle self.now pass.new }
        ensures number { pass.new.number ≡ pass.old.number }
    {
        let mut turn = self.begin(rt, pass);
        let answer = turn.value().restart(alloc, job);
        self.end(turn, pass);
        answer
    }

    /// Takes the frame of a pipe's job, and ends the job. It waits for its turn, and takes no memory.
    pub fn publish<R: Wait>(&self, rt: &R, pass: &mut DeskPass, job: Job, frame: Frame)
        requires lock { IsIdle self.now pass.old }
        requires pipe { OfPipe job.name (λ p. Unit {0}) }
        requires holds { HasJob self.now pass.old job }
        requires frame { frame ≡ frame_of job }
        ensures turn { OneTurn pass.old pass.new (done_entry job.name job.worker job.moment ∷ []) }
        ensures holds { HasNoJob self.now pass.new }
        ensures mark { pass.new.mark ≡ (desk_after pass.new.seen).moment }
        ensures looks { KeepsLooks pass.old pass.new }
        ensures lock { IsIdle self.now pass.new }
        ensures number { pass.new.number ≡ pass.old.number }
    {
        let mut turn = self.begin(rt, pass);
        turn.value().publish(job, frame);
        self.end(turn, pass);
        self.ring();
    }

    /// Takes the frame of a ticket, and ends the job. It waits for its turn, and takes no memory.
    pub fn finish_ticket<R: Wait>(&self, rt: &R, pass: &mut DeskPass, job: Job, frame: Frame)
        requires lock { IsIdle self.now pass.old }
        requires ticket { IsTicketJob job.name }
        requires holds { HasJob self.now pass.old job }
        requires frame { frame ≡ frame_of job }
        ensures turn { OneTurn pass.old pass.new (done_entry job.name job.worker job.moment ∷ []) }
        ensures holds { HasNoJob self.now pass.new }
        ensures mark { pass.new.mark ≡ (desk_after pass.new.seen).moment }
        ensures looks { KeepsLooks pass.old pass.new }
        ensures lock { IsIdle self.now pass.new }
        ensures number { pass.new.number ≡ pass.old.number }
    {
        let mut turn = self.begin(rt, pass);
        turn.value().finish_ticket(job, frame);
        self.end(turn, pass);
        self.ring();
    }

    /// Takes a job back with no frame. It waits for its turn, and takes no memory.
    pub fn give_back<R: Wait>(&self, rt: &R, pass: &mut DeskPass, job: Job)
        requires lock { IsIdle self.now pass.old }
        requires holds { HasJob self.now pass.old job }
        ensures turn { OneTurn pass.old pass.new (back_entry job.name job.worker ∷ []) }
        ensures holds { HasNoJob self.now pass.new }
        ensures mark { pass.new.mark ≡ (desk_after pass.new.seen).moment }
        ensures looks { KeepsLooks pass.old pass.new }
        ensures lock { IsIdle self.now pass.new }
        ensures number { pass.new.number ≡ pass.old.number }
    {
        let mut turn = self.begin(rt, pass);
        turn.value().give_back(job);
        self.end(turn, pass);
        self.ring();
    }
}
