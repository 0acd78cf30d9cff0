//! One attempt at a job: its nodes are brought in step with its moment, and it is run.
ghost use Rattle.std.specs.Prelude.{◌≡◌, ℕ, ◌+◌, ◌≤◌, Some, None, true, false, OnOk, OnErr};
ghost use Rattle.px.specs.declared.kind.PlaneKind.{PlaneKind};
ghost use Rattle.pipe_nodes.specs.Kinds.{IsRun};
ghost use Rattle.pipe_sync.specs.Changed.{changed_places, LeaveNodes};
ghost use Rattle.turn_lock.specs.Known.{IsIdle};
ghost use Rattle.shared_mips.specs.Story.{hold_of};
ghost use Rattle.pipe_worker.specs.Job.{actives_for, is_pipe_job, nodes_at, IsUpTo};
ghost use Rattle.pipe_worker.specs.Jobs.{IsSet, AreUpTo, last_at, nodes_of};
ghost use Rattle.pipe_worker.specs.Attempts.{Tried, Moved};

use crate::ends::Attempt;
use crate::looks::{Looked, look_once};
use crate::node_set::NodeSet;
use crate::passes::Passes;
use crate::synced::run_synced;
use desk::SharedDesk;
use dev_core::Job;
use history::Kinds;
use outside::{Gate, JobName, Pipe};
use pipe_nodes::Steps;
use pipe_sync::Nodes;
use shared_mips::MipCache;
use shared_stage::SharedStage;
use std::alloc::{AllocError, Global};
use std::sync::Wait;
use std::sync::ledger::Ledger;
use std::thread::Threads;

// The kinds of the changes from the nodes' last moment to the job's; all kinds where the nodes have none.
fn kinds_since(job: &Job, at: Option<u32>) -> Kinds
    requires upto { IsUpTo at job.now.moment }
    ensures { LeaveNodes result → nodes_at job.now.subject at ≡ actives_for job.now }
{
    match at {
        Some(moment) => job.subject().script().kinds(moment, job.moment()),
        None => Kinds {
            top: true,
            synch: true,
            remove: true,
            zoomed: true,
        },
    }
}

// Brings the nodes in step with the job's moment, and notes that.
fn sync_at<L: Ledger>(
    alloc: Global,
    job: &Job,
    nodes: &mut Nodes,
    at: &mut Option<u32>,
    steps: &mut Steps<L>,
) -> Result<(), AllocError>
    requires nodes { nodes.old ≡ nodes_at job.now.subject at.old }
    requires upto { IsUpTo at.old job.now.moment }
    ensures ok { OnOk result (at.new ≡ Some job.now.moment) }
    ensures run { OnOk result ((k : PlaneKind) → IsRun k nodes.new) }
    ensures err { OnErr result (at.new ≡ None) }
    ensures nodes { nodes.new ≡ nodes_at job.now.subject at.new }
    ensures least { steps.old ≤ steps.new }
    ensures most { steps.new ≤ steps.old + changed_places nodes.old (actives_for job.now) }
{
    let kinds = kinds_since(job, *at);
    *at = None;
    nodes.sync(alloc, job.history(), kinds, steps)?;
    *at = Some(job.moment());
    Ok(())
}

// One attempt on the nodes of the job's pipe.
fn attempt_on<R: Wait + Threads + Sync, G: Gate, L: Ledger>(
    rt: &R,
    alloc: Global,
    desk: &SharedDesk,
    stage: &SharedStage,
    mips: &MipCache,
    gate: &G,
    job: &Job,
    nodes: &mut Nodes,
    at: &mut Option<u32>,
    passes: &mut Passes,
    steps: &mut Steps<L>,
) -> Attempt
    requires desk { IsIdle desk.now passes.old.desk }
    requires stage { IsIdle stage.now passes.old.stage }
    requires mips { IsIdle mips.now passes.old.mips }
    requires subject { job.now.subject ≡ desk.now.name }
    requires stage_source { job.now.subject.source ≡ stage.now.name.source }
    requires mip_source { job.now.subject.source ≡ mips.now.name.source }
    requires bare { hold_of passes.old.mips.own ≡ None }
    requires nodes { nodes.old ≡ nodes_at job.now.subject at.old }
    requires upto { IsUpTo at.old job.now.moment }
    ensures tried { Tried job.now 2 (changed_places nodes.old (actives_for job.now)) steps.old steps.new passes.old passes.new result }
    ensures desk { IsIdle desk.now passes.new.desk }
    ensures stage { IsIdle stage.now passes.new.stage }
    ensures mips { IsIdle mips.now passes.new.mips }
    ensures bare { hold_of passes.new.mips.own ≡ None }
    ensures nodes { nodes.new ≡ nodes_at job.now.subject at.new }
    ensures upto { IsUpTo at.new job.now.moment }
    ensures moved { Moved job.now at.old at.new steps.old steps.new result }
{
    if let Looked::Superseded { latest } = look_once(desk, job, &mut passes.desk) {
        return Attempt::Superseded { latest };
    }
    match sync_at(alloc, job, nodes, at, steps) {
        Err(_) => Attempt::Memory,
        Ok(()) => run_synced(
            rt,
            alloc,
            desk,
            stage,
            mips,
            gate,
            job,
            nodes.pieces(),
            passes,
            steps,
        ),
    }
}

/// One attempt at the job's moment, without a restart and without the job's last entry. For a pipe's job it looks before the
/// nodes are brought in step, before each node, and before the frame; a look that finds the job overtaken ends it. It finds
/// the longest prefix that the stage cache has, and keeps each stage that it makes.
///
/// The desk's pass has the job, the mipmaps' pass holds no level, desk and caches are of the job's subject, each pipe's nodes
/// are those of its last moment, and that of the job's own pipe isn't above the job's moment.
pub fn attempt<R: Wait + Threads + Sync, G: Gate, L: Ledger>(
    rt: &R,
    alloc: Global,
    desk: &SharedDesk,
    stage: &SharedStage,
    mips: &MipCache,
    gate: &G,
    job: &Job,
    nodes: &mut NodeSet,
    passes: &mut Passes,
    steps: &mut Steps<L>,
) -> Attempt
    requires desk { IsIdle desk.now passes.old.desk }
    requires stage { IsIdle stage.now passes.old.stage }
    requires mips { IsIdle mips.now passes.old.mips }
    requires subject { job.now.subject ≡ desk.now.name }
    requires stage_source { job.now.subject.source ≡ stage.now.name.source }
    requires mip_source { job.now.subject.source ≡ mips.now.name.source }
    requires bare { hold_of passes.old.mips.own ≡ None }
    requires nodes { IsSet job.now.subject nodes.old }
    requires upto { IsUpTo (last_at job.now.name nodes.old) job.now.moment }
    ensures tried { Tried job.now 2 (changed_places (nodes_of job.now.name nodes.old) (actives_for job.now)) steps.old steps.new passes.old passes.new result }
    ensures desk { IsIdle desk.now passes.new.desk }
    ensures stage { IsIdle stage.now passes.new.stage }
    ensures mips { IsIdle mips.now passes.new.mips }
    ensures bare { hold_of passes.new.mips.own ≡ None }
    ensures nodes { IsSet job.now.subject nodes.new }
    ensures upto { IsUpTo (last_at job.now.name nodes.new) job.now.moment }
    ensures marks { (m : ℕ) → AreUpTo nodes.old m → job.now.moment ≤ m → AreUpTo nodes.new m }
    ensures kept { is_pipe_job job.now.name ≡ false → nodes.new ≡ nodes.old }
    ensures moved { is_pipe_job job.now.name ≡ true → Moved job.now (last_at job.now.name nodes.old) (last_at job.now.name nodes.new) steps.old steps.new result }
{
    match job.name() {
        JobName::Pipe(Pipe::Full) => {
            let at = &mut nodes.full_at;
            attempt_on(
                rt,
                alloc,
                desk,
                stage,
                mips,
                gate,
                job,
                &mut nodes.full,
                at,
                passes,
                steps,
            )
        }
        JobName::Pipe(Pipe::Preview) => {
            let at = &mut nodes.preview_at;
            attempt_on(
                rt,
                alloc,
                desk,
                stage,
                mips,
                gate,
                job,
                &mut nodes.preview,
                at,
                passes,
                steps,
            )
        }
        JobName::Pipe(Pipe::Second) => {
            let at = &mut nodes.second_at;
            attempt_on(
                rt,
                alloc,
                desk,
                stage,
                mips,
                gate,
                job,
                &mut nodes.second,
                at,
                passes,
                steps,
            )
        }
        JobName::Ticket(_) => {
            let mut fresh = Nodes::empty(alloc);
            let mut at = None;
            attempt_on(
                rt, alloc, desk, stage, mips, gate, job, &mut fresh, &mut at, passes, steps,
            )
        }
    }
}
