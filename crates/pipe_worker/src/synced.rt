//! An attempt once its nodes are in step with the job's moment.
ghost use Rattle.std.specs.Prelude.{◌≡◌, ◌+◌, ◌≤◌, IfOk};
ghost use Rattle.dev_core.specs.Jobs.{frame_of};
ghost use Rattle.px.specs.declared.kind.PlaneKind.{PlaneKind};
ghost use Rattle.pipe_nodes.specs.Kinds.{IsRun};
ghost use Rattle.turn_lock.specs.Known.{IsIdle};
ghost use Rattle.shared_mips.specs.Story.{hold_of};
ghost use Rattle.pipe_worker.specs.Job.{actives_for, count_for};
ghost use Rattle.pipe_worker.specs.Grew.{Saw};
ghost use Rattle.pipe_worker.specs.Runs.{IsAt, IsPlanned};
ghost use Rattle.pipe_worker.specs.Attempts.{Tried, Shown};

use crate::begin::begin;
use crate::ends::{Attempt, Begun, Noded};
use crate::looks::{Looked, look_once};
use crate::nodes::{know_right, run_nodes};
use crate::passes::Passes;
use desk::{DeskPass, SharedDesk};
use dev_core::{Frame, Job};
use outside::Gate;
use pipe_nodes::{Piece, Staged, Steps};
use pipe_run::finish;
use shared_mips::MipCache;
use shared_stage::SharedStage;
use std::alloc::{AllocError, Global};
use std::sync::Wait;
use std::sync::ledger::Ledger;
use std::thread::Threads;

// The frame of a job from the stage behind all its instances.
fn frame_from<R: Threads + Sync>(
    rt: &R,
    alloc: Global,
    job: &Job,
    staged: &Staged,
) -> Result<Frame, AllocError>
    requires planned { IsPlanned job.now }
    requires at { IsAt job.now (count_for job.now) staged.now }
    ensures { IfOk result (λ f. f ≡ frame_of job.now) }
{
    know_right(staged);
    let show = job.show();
    let plane = finish(rt, alloc, staged, show)?;
    Frame::of(job, pnm::write(alloc, &plane, show.depth)?)
}

// The last look, and the frame.
fn show<R: Wait + Threads + Sync>(
    rt: &R,
    alloc: Global,
    desk: &SharedDesk,
    job: &Job,
    staged: &Staged,
    pass: &mut DeskPass,
) -> Attempt
    requires lock { IsIdle desk.now pass.old }
    requires subject { job.now.subject ≡ desk.now.name }
    requires planned { IsPlanned job.now }
    requires at { IsAt job.now (count_for job.now) staged.now }
    ensures saw { Saw job.now pass.old pass.new 1 }
    ensures shown { Shown job.now pass.new result }
    ensures lock { IsIdle desk.now pass.new }
{
    if let Looked::Superseded { latest } = look_once(desk, job, pass) {
        return Attempt::Superseded { latest };
    }
    match frame_from(rt, alloc, job, staged) {
        Ok(frame) => Attempt::Made(frame),
        Err(_) => Attempt::Memory,
    }
}

// An attempt with these pieces, after its first look.
pub(crate) fn run_synced<R: Wait + Threads + Sync, G: Gate, L: Ledger>(
    rt: &R,
    alloc: Global,
    desk: &SharedDesk,
    stage: &SharedStage,
    mips: &MipCache,
    gate: &G,
    job: &Job,
    pieces: &[Piece],
    passes: &mut Passes,
    steps: &mut Steps<L>,
) -> Attempt
    requires desk { IsIdle desk.now passes.old.desk }
    requires stage { IsIdle stage.now passes.old.stage }
    requires mips { IsIdle mips.now passes.old.mips }
    requires subject { job.now.subject ≡ desk.now.name }
    requires stage_source { job.now.subject.source ≡ stage.now.name.source }
    requires mip_source { job.now.subject.source ≡ mips.now.name.source }
    requires bare { hold_of passes.old.mips.own ≡ None }
    requires pieces { pieces.now ≡ actives_for job.now }
    requires run { (k : PlaneKind) → IsRun k pieces.now }
    ensures tried { Tried job.now 1 0 steps.old steps.new passes.old passes.new result }
    ensures desk { IsIdle desk.now passes.new.desk }
    ensures stage { IsIdle stage.now passes.new.stage }
    ensures mips { IsIdle mips.now passes.new.mips }
    ensures bare { hold_of passes.new.mips.own ≡ None }
{
    match begin(
        rt,
        alloc,
        stage,
        mips,
        gate,
        job,
        pieces,
        &mut passes.stage,
        &mut passes.mips,
    ) {
        Err(_) => Attempt::Memory,
        Ok(begun) => {
            let Begun {
                regions,
                first,
                staged,
            } = begun;
            match run_nodes(
                rt,
                alloc,
                desk,
                stage,
                gate,
                job,
                pieces,
                &regions,
                first,
                staged,
                &mut passes.desk,
                &mut passes.stage,
                steps,
            ) {
                Noded::Done(staged) => show(rt, alloc, desk, job, &staged, &mut passes.desk),
                Noded::Superseded { latest } => Attempt::Superseded { latest },
                Noded::Memory => Attempt::Memory,
            }
        }
    }
}
