//! A job from the take to its last entry.
ghost use Rattle.std.specs.Prelude.{◌≡◌, ◌≤◌, None, true};
ghost use Rattle.turn_lock.specs.Known.{IsIdle};
ghost use Rattle.outside.specs.declared.job_name.JobName.TheVariants.{Pipe as pipe_job, Ticket as ticket_job};
ghost use Rattle.shared_mips.specs.Story.{hold_of};
ghost use Rattle.desk.specs.Passes.{HasJob, HasNoJob};
ghost use Rattle.pipe_worker.specs.Job.{IsUpTo, is_pipe_job};
ghost use Rattle.pipe_worker.specs.Jobs.{IsSet, AreUpTo, last_at, nodes_of, RanPipe, RanTicket, RanJob};

use crate::attempts::attempt;
use crate::ends::{Attempt, JobEnd};
use crate::node_set::NodeSet;
use crate::passes::Passes;
use desk::SharedDesk;
use dev_core::Job;
use outside::{Gate, JobName, Pipe};
use pipe_nodes::Steps;
use shared_mips::MipCache;
use shared_stage::SharedStage;
use std::alloc::Global;
use std::sync::Wait;
use std::sync::ledger::Ledger;
use std::thread::Threads;

// A pipe's job: attempts, each overtaken one followed by a restart.
fn run_pipe<R: Wait + Threads + Sync, G: Gate, L: Ledger>(
    rt: &R,
    alloc: Global,
    desk: &SharedDesk,
    stage: &SharedStage,
    mips: &MipCache,
    gate: &G,
    pipe: Pipe,
    job: Job,
    nodes: &mut NodeSet,
    passes: &mut Passes,
    steps: &mut Steps<L>,
) -> JobEnd
    requires desk { IsIdle desk.now passes.old.desk }
    requires stage { IsIdle stage.now passes.old.stage }
    requires mips { IsIdle mips.now passes.old.mips }
    requires holds { HasJob desk.now passes.old.desk job }
    requires name { job.name ≡ pipe_job pipe }
    requires stage_source { job.subject.source ≡ stage.now.name.source }
    requires mip_source { job.subject.source ≡ mips.now.name.source }
    requires bare { hold_of passes.old.mips.own ≡ None }
    requires nodes { IsSet job.subject nodes.old }
    requires upto { IsUpTo (last_at job.name nodes.old) job.moment }
    requires marks { AreUpTo nodes.old passes.old.desk.mark }
    requires moment { job.moment ≤ passes.old.desk.mark }
    ensures ran { RanPipe job pipe (nodes_of job.name nodes.old) steps.old steps.new passes.old passes.new result }
    ensures desk { IsIdle desk.now passes.new.desk }
    ensures stage { IsIdle stage.now passes.new.stage }
    ensures mips { IsIdle mips.now passes.new.mips }
    ensures bare { hold_of passes.new.mips.own ≡ None }
    ensures nodes { IsSet job.subject nodes.new }
    ensures marks { AreUpTo nodes.new passes.new.desk.mark }
    ensures free { HasNoJob desk.now passes.new.desk }
{
    let mut job = job;
    for _ in rt.forever() {
        match attempt(
            rt, alloc, desk, stage, mips, gate, &job, nodes, passes, steps,
        ) {
            Attempt::Made(frame) => {
                let moment = job.moment();
                desk.publish(rt, &mut passes.desk, job, frame);
                return JobEnd::Published { moment };
            }
            Attempt::Superseded { .. } => {
                match desk.restart(rt, alloc, &mut passes.desk, &mut job) {
                    Ok(()) => {}
                    Err(_) => {
                        desk.give_back(rt, &mut passes.desk, job);
                        return JobEnd::Memory;
                    }
                }
            }
            Attempt::Memory => {
                desk.give_back(rt, &mut passes.desk, job);
                return JobEnd::Memory;
            }
        }
    }
    unreachable!()
}

// A ticket's job: one attempt, which no change overtakes.
fn run_ticket<R: Wait + Threads + Sync, G: Gate, L: Ledger>(
    rt: &R,
    alloc: Global,
    desk: &SharedDesk,
    stage: &SharedStage,
    mips: &MipCache,
    gate: &G,
    ticket: u32,
    job: Job,
    nodes: &mut NodeSet,
    passes: &mut Passes,
    steps: &mut Steps<L>,
) -> JobEnd
    requires desk { IsIdle desk.now passes.old.desk }
    requires stage { IsIdle stage.now passes.old.stage }
    requires mips { IsIdle mips.now passes.old.mips }
    requires holds { HasJob desk.now passes.old.desk job }
    requires name { job.name ≡ ticket_job ticket }
    requires stage_source { job.subject.source ≡ stage.now.name.source }
    requires mip_source { job.subject.source ≡ mips.now.name.source }
    requires bare { hold_of passes.old.mips.own ≡ None }
    requires nodes { IsSet job.subject nodes.old }
    requires marks { AreUpTo nodes.old passes.old.desk.mark }
    ensures ran { RanTicket job ticket steps.old steps.new passes.old passes.new result }
    ensures desk { IsIdle desk.now passes.new.desk }
    ensures stage { IsIdle stage.now passes.new.stage }
    ensures mips { IsIdle mips.now passes.new.mips }
    ensures bare { hold_of passes.new.mips.own ≡ None }
    ensures nodes { IsSet job.subject nodes.new }
    ensures marks { AreUpTo nodes.new passes.new.desk.mark }
    ensures free { HasNoJob desk.now passes.new.desk }
{
    match attempt(
        rt, alloc, desk, stage, mips, gate, &job, nodes, passes, steps,
    ) {
        Attempt::Made(frame) => {
            desk.finish_ticket(rt, &mut passes.desk, job, frame);
            JobEnd::Done { ticket }
        }
        Attempt::Superseded { .. } => {
            desk.give_back(rt, &mut passes.desk, job);
            JobEnd::Memory
        }
        Attempt::Memory => {
            desk.give_back(rt, &mut passes.desk, job);
            JobEnd::Memory
        }
    }
}

/// Runs a job to its end: it makes attempts, restarts the job after each one that a change has overtaken, and publishes the
/// frame or finishes the ticket. Where memory runs out it gives the job back.
///
/// The desk's pass has the job, the mipmaps' pass holds no level, desk and caches are of the job's subject, each pipe's nodes
/// are those of its last moment, which is at most the desk pass's mark, and that of the job's own pipe isn't above the job's
/// moment.
pub fn run_job<R: Wait + Threads + Sync, G: Gate, L: Ledger>(
    rt: &R,
    alloc: Global,
    desk: &SharedDesk,
    stage: &SharedStage,
    mips: &MipCache,
    gate: &G,
    job: Job,
    nodes: &mut NodeSet,
    passes: &mut Passes,
    steps: &mut Steps<L>,
) -> JobEnd
    requires desk { IsIdle desk.now passes.old.desk }
    requires stage { IsIdle stage.now passes.old.stage }
    requires mips { IsIdle mips.now passes.old.mips }
    requires holds { HasJob desk.now passes.old.desk job }
    requires stage_source { job.subject.source ≡ stage.now.name.source }
    requires mip_source { job.subject.source ≡ mips.now.name.source }
    requires bare { hold_of passes.old.mips.own ≡ None }
    requires nodes { IsSet job.subject nodes.old }
    requires upto { IsUpTo (last_at job.name nodes.old) job.moment }
    requires marks { AreUpTo nodes.old passes.old.desk.mark }
    requires moment { is_pipe_job job.name ≡ true → job.moment ≤ passes.old.desk.mark }
    ensures ran { RanJob job job.name (nodes_of job.name nodes.old) steps.old steps.new passes.old passes.new result }
    ensures desk { IsIdle desk.now passes.new.desk }
    ensures stage { IsIdle stage.now passes.new.stage }
    ensures mips { IsIdle mips.now passes.new.mips }
    ensures bare { hold_of passes.new.mips.own ≡ None }
    ensures nodes { IsSet job.subject nodes.new }
    ensures marks { AreUpTo nodes.new passes.new.desk.mark }
    ensures free { HasNoJob desk.now passes.new.desk }
{
    match job.name() {
        JobName::Pipe(pipe) => run_pipe(
            rt, alloc, desk, stage, mips, gate, pipe, job, nodes, passes, steps,
        ),
        JobName::Ticket(ticket) => run_ticket(
            rt, alloc, desk, stage, mips, gate, ticket, job, nodes, passes, steps,
        ),
    }
}
