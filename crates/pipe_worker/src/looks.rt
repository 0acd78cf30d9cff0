//! Whether a change has overtaken a job.
ghost use Rattle.std.specs.Prelude.{◌≡◌, ◌≤◌, true};
ghost use Rattle.edit_steps.specs.Script.{changes};
ghost use Rattle.turn_lock.specs.Known.{IsIdle};
ghost use Rattle.pipe_worker.specs.Job.{is_pipe_job, looked_at};
ghost use Rattle.pipe_worker.specs.Grew.{Saw, Shows};

use desk::{DeskPass, SharedDesk};
use dev_core::Job;
use outside::JobName;

/// What a look tells of a job.
#[derive(Clone, Copy, Debug, PartialEq, Eq)]
pub enum Looked {
    /// No change after the job's moment concerns its pipe.
    Go,
    /// One does: this is the moment that was found.
    Superseded { latest: u64 },
}

/// Whether a change concerns the job's pipe that came after its moment, up to the latest one. The job is a pipe's. Takes no
/// memory.
pub fn look(job: &Job, latest: u64) -> Looked
    requires pipe { is_pipe_job job.now.name ≡ true }
    requires within { latest ≤ changes job.now.subject.script }
    ensures { result ≡ looked_at job.now.subject.script job.now.name job.now.moment latest }
{
    let JobName::Pipe(pipe) = job.name() else {
        unreachable!()
    };
    let script = job.subject().script();
    let moment = job.moment();
    prove!(script.changes() <= 256);
    if latest > moment as u64 && script.concerns(pipe, moment, latest as u32) {
        return Looked::Superseded { latest };
    }
    Looked::Go
}

// One look for the job of a pipe, and none for that of a ticket.
pub(crate) fn look_once(desk: &SharedDesk, job: &Job, pass: &mut DeskPass) -> Looked
    requires lock { IsIdle desk.now pass.old }
    requires subject { job.now.subject ≡ desk.now.name }
    ensures saw { Saw job.now pass.old pass.new 1 }
    ensures shows { Shows job.now pass.new result }
    ensures lock { IsIdle desk.now pass.new }
{
    match job.name() {
        JobName::Pipe(_) => {
            let latest = desk.latest(pass);
            look(job, latest)
        }
        JobName::Ticket(_) => Looked::Go,
    }
}
