//! The nodes of an attempt, each after a look, and each kept.
ghost use Rattle.std.specs.Prelude.{◌≡◌, ℕ, ◌+◌, ◌<◌, ◌≤◌, [], ◌∷◌, IfOk, OnOk, OnErr, slice_get, Some};
ghost use Rattle.turn_lock.specs.Known.{IsIdle};
ghost use Rattle.pipe_nodes.specs.Staged.{IsRight};
ghost use Rattle.pipe_worker.specs.Job.{count_for, stages_for};
ghost use Rattle.pipe_worker.specs.Grew.{Grew};
ghost use Rattle.pipe_worker.specs.Runs.{IsWork, IsAt, IsKept, Went, spare_of, Ends};

use crate::ends::Noded;
use crate::looks::{Looked, look_once};
use desk::{DeskPass, SharedDesk};
use dev_core::Job;
use outside::{Gate, Point};
use pipe_nodes::{Piece, Staged, Steps};
use pipe_run::process;
use px::Region;
use shared_stage::{SharedStage, StagePass};
use std::alloc::{AllocError, Global};
use std::sync::Wait;
use std::sync::ledger::Ledger;
use std::thread::Threads;

// Does nothing: a stage holds a region of what its prefix makes of its source.
pub(crate) fn know_right(staged: &Staged)
    ensures { IsRight staged.now }
{
    staged.prefix();
}

// The node behind a stage of length k, and its keep.
fn one_node<R: Wait + Threads + Sync, G: Gate, L: Ledger>(
    rt: &R,
    alloc: Global,
    stage: &SharedStage,
    gate: &G,
    pass: &mut StagePass,
    job: &Job,
    pieces: &[Piece],
    regions: &[Region],
    k: usize,
    staged: &Staged,
    steps: &mut Steps<L>,
) -> Result<Staged, AllocError>
    requires lock { IsIdle stage.now pass.old }
    requires source { job.now.subject.source ≡ stage.now.name.source }
    requires work { IsWork job.now pieces.now regions.now }
    requires within { k < count_for job.now }
    requires at { IsAt job.now k staged.now }
    ensures kept { OnOk result (IsKept job.now k pass.old pass.new) }
    ensures at { IfOk result (IsAt job.now (k + 1)) }
    ensures one { OnOk result (steps.new ≡ steps.old + 1) }
    ensures none { OnErr result (Grew pass.old pass.new []) }
    ensures few { (steps.old ≤ steps.new) × (steps.new ≤ steps.old + 1) }
    ensures lock { IsIdle stage.now pass.new }
{
    prove!(job.active_count() <= 64);
    know_right(staged);
    gate.pass(Point::AtNode {
        job: job.name(),
        moment: job.moment(),
        node: k as u32 + 1,
    });
    let next = process(rt, alloc, &pieces[k], staged, regions[k + 1], steps)?;
    stage.keep(rt, pass, next.share()?)?;
    Ok(next)
}

// The nodes that are left, each after a look.
pub(crate) fn run_nodes<R: Wait + Threads + Sync, G: Gate, L: Ledger>(
    rt: &R,
    alloc: Global,
    desk: &SharedDesk,
    stage: &SharedStage,
    gate: &G,
    job: &Job,
    pieces: &[Piece],
    regions: &[Region],
    first: usize,
    staged: Staged,
    desk_pass: &mut DeskPass,
    stage_pass: &mut StagePass,
    steps: &mut Steps<L>,
) -> Noded
    requires desk { IsIdle desk.now desk_pass.old }
    requires stage { IsIdle stage.now stage_pass.old }
    requires subject { job.now.subject ≡ desk.now.name }
    requires source { job.now.subject.source ≡ stage.now.name.source }
    requires work { IsWork job.now pieces.now regions.now }
    requires within { first ≤ count_for job.now }
    requires at { IsAt job.now first staged }
    ensures went { (m : ℕ) × Went job.now first m (spare_of result) steps.old steps.new desk_pass.old desk_pass.new stage_pass.old stage_pass.new × Ends job.now m desk_pass.new result }
    ensures desk { IsIdle desk.now desk_pass.new }
    ensures stage { IsIdle stage.now stage_pass.new }
{
    let mut staged = staged;
    for k in first..pieces.len() {
        if let Looked::Superseded { latest } = look_once(desk, job, desk_pass) {
            return Noded::Superseded { latest };
        }
        match one_node(
            rt, alloc, stage, gate, stage_pass, job, pieces, regions, k, &staged, steps,
        ) {
            Ok(next) => staged = next,
            Err(_) => return Noded::Memory,
        }
    }
    Noded::Done(staged)
}
