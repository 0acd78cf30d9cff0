//! A worker, and its next job.
ghost use Rattle.std.specs.Prelude.{◌≡◌};
ghost use Rattle.session.specs.declared.worker.Turned.TheVariants as turned;
ghost use Rattle.session.specs.Workers.{Ready, MayRun, IsTried, IsNext, number_of};
ghost use Rattle.session.specs.Finished.{IsFinished};

use crate::shared::Shared;
use desk::NextJob;
use dev_core::Job;
use outside::Gate;
use pipe_nodes::Steps;
use pipe_worker::{JobEnd, NodeSet, Passes, run_job};
use std::alloc::{AllocError, Global};
use std::sync::Wait;
use std::sync::ledger::Ledger;
use std::thread::Threads;

/// A thread's passes, and the nodes of its runs. The editor is worker 0.
#[derive(Drop)]
pub(crate) struct Worker {
    pub(crate) passes: Passes,
    pub(crate) nodes: NodeSet,
}

/// What became of a worker's next job.
#[derive(Clone, Copy)]
pub(crate) enum Turned {
    /// It was run to its end.
    Ran,
    /// There is none: the desk is closed, and nothing is due.
    Over,
    /// The desk was stopped, or memory ran out.
    Failed,
}

// Runs a job that the worker has just taken. False: memory ran out.
fn run<R: Wait + Threads + Sync, G: Gate, L: Ledger>(
    rt: &R,
    alloc: Global,
    shared: &Shared,
    gate: &G,
    job: Job,
    worker: &mut Worker,
    steps: &mut Steps<L>,
) -> bool
    requires { MayRun shared.now worker.old job }
    ensures ready { Ready shared.now worker.new }
    ensures number { number_of worker.new ≡ number_of worker.old }
{
    let end = run_job(
        rt,
        alloc,
        &shared.desk,
        &shared.stage,
        &shared.mips,
        gate,
        job,
        &mut worker.nodes,
        &mut worker.passes,
        steps,
    );
    end != JobEnd::Memory
}

// Takes what is due, where something is.
fn try_one<R: Wait>(
    rt: &R,
    alloc: Global,
    shared: &Shared,
    worker: &mut Worker,
) -> Result<Option<Job>, AllocError>
    requires { Ready shared.now worker.old }
    ensures tried { IsTried shared.now worker.new result }
    ensures number { number_of worker.new ≡ number_of worker.old }
{
    shared.desk.try_job(rt, alloc, &mut worker.passes.desk)
}

// Takes the next job, or waits for it.
fn next_one<R: Wait>(
    rt: &R,
    alloc: Global,
    shared: &Shared,
    worker: &mut Worker,
) -> Result<NextJob, AllocError>
    requires { Ready shared.now worker.old }
    ensures next { IsNext shared.now worker.new result }
    ensures number { number_of worker.new ≡ number_of worker.old }
{
    shared.desk.next_job(rt, alloc, &mut worker.passes.desk)
}

/// Takes what is due and runs it. Where nothing is due, it sleeps until the bell has rung again after so many rings.
/// False: memory ran out.
pub(crate) fn run_or_listen<R: Wait + Threads + Sync, G: Gate, L: Ledger>(
    rt: &R,
    alloc: Global,
    shared: &Shared,
    gate: &G,
    rings: u64,
    worker: &mut Worker,
    steps: &mut Steps<L>,
) -> bool
    requires { Ready shared.now worker.old }
    ensures ready { Ready shared.now worker.new }
    ensures number { number_of worker.new ≡ number_of worker.old }
{
    match try_one(rt, alloc, shared, worker) {
        Ok(Some(job)) => run(rt, alloc, shared, gate, job, worker, steps),
        Ok(None) => {
            shared.desk.listen(rt, rings);
            true
        }
        Err(_) => false,
    }
}

/// Takes the next job, or waits for it, and runs it.
pub(crate) fn run_next<R: Wait + Threads + Sync, G: Gate, L: Ledger>(
    rt: &R,
    alloc: Global,
    shared: &Shared,
    gate: &G,
    worker: &mut Worker,
    steps: &mut Steps<L>,
) -> Turned
    requires { Ready shared.now worker.old }
    ensures ready { Ready shared.now worker.new }
    ensures number { number_of worker.new ≡ number_of worker.old }
    ensures over { result ≡ turned.Over → IsFinished shared.now.desk worker.new.passes.desk }
{
    match next_one(rt, alloc, shared, worker) {
        Ok(NextJob::Job(job)) => {
            if run(rt, alloc, shared, gate, job, worker, steps) {
                Turned::Ran
            } else {
                Turned::Failed
            }
        }
        Ok(NextJob::Closed) => Turned::Over,
        Ok(NextJob::Stopped) => Turned::Failed,
        Err(_) => Turned::Failed,
    }
}
