//! The beginning of an attempt: its planned regions, and the stage that is found or loaded.
ghost use Rattle.std.specs.Prelude.{◌≡◌, ◌≤◌, [], List, IfOk, OnErr};
ghost use Rattle.turn_lock.specs.Known.{IsIdle};
ghost use Rattle.px.specs.declared.kind.PlaneKind.{PlaneKind};
ghost use Rattle.pipe_nodes.specs.Kinds.{IsRun};
ghost use Rattle.shared_stage.specs.declared.event.StageEvent.{StageEvent};
ghost use Rattle.shared_mips.specs.declared.event.MipEvent.{MipEvent};
ghost use Rattle.shared_mips.specs.Story.{hold_of};
ghost use Rattle.pipe_worker.specs.Grew.{Grew};
ghost use Rattle.pipe_worker.specs.Job.{actives_for, count_for, stages_for};
ghost use Rattle.pipe_worker.specs.Runs.{IsWork, IsAt, keeps};
ghost use Rattle.pipe_worker.specs.Attempts.{Began};

use crate::ends::Begun;
use crate::input::input;
use dev_core::Job;
use outside::Gate;
use pipe_nodes::{Piece, Prefix};
use pipe_run::plan;
use px::Region;
use shared_mips::{MipCache, MipPass};
use shared_stage::{SharedStage, StagePass};
use stage_run::stages_asked;
use std::alloc::{AllocError, Global};
use std::sync::Wait;
use std::thread::Threads;

// The planned regions of the job's pieces.
fn plan_for(alloc: Global, job: &Job, pieces: &[Piece]) -> Result<Vec<Region>, AllocError>
    requires pieces { pieces.now ≡ actives_for job.now }
    requires run { (k : PlaneKind) → IsRun k pieces.now }
    ensures { IfOk result (λ list. IsWork job.now pieces.now list.items) }
{
    let regions = plan(alloc, pieces, job.subject().source(), job.show())?;
    Ok(regions)
}

// The prefixes of the job's pieces, each with its planned region.
fn stages_of(
    alloc: Global,
    job: &Job,
    pieces: &[Piece],
    regions: &[Region],
) -> Result<Vec<(Prefix, Region)>, AllocError>
    requires { IsWork job.now pieces.now regions.now }
    ensures { IfOk result (λ list. list.items ≡ stages_for job.now) }
{
    let stages = stages_asked(alloc, job.show().level, pieces, regions)?;
    Ok(stages)
}

// Plans the regions, and finds the stage to begin with, or makes the input.
pub(crate) fn begin<R: Wait + Threads + Sync, G: Gate>(
    rt: &R,
    alloc: Global,
    stage: &SharedStage,
    mips: &MipCache,
    gate: &G,
    job: &Job,
    pieces: &[Piece],
    stage_pass: &mut StagePass,
    mip_pass: &mut MipPass,
) -> Result<Begun, AllocError>
    requires pieces { pieces.now ≡ actives_for job.now }
    requires run { (k : PlaneKind) → IsRun k pieces.now }
    requires stage { IsIdle stage.now stage_pass.old }
    requires mips { IsIdle mips.now mip_pass.old }
    requires stage_source { job.now.subject.source ≡ stage.now.name.source }
    requires mip_source { job.now.subject.source ≡ mips.now.name.source }
    requires bare { hold_of mip_pass.old.own ≡ None }
    ensures work { IfOk result (λ b. IsWork job.now pieces.now b.regions.items) }
    ensures began { IfOk result (λ b. Began job.now b.first stage_pass.old stage_pass.new mip_pass.old mip_pass.new) }
    ensures at { IfOk result (λ b. (b.first ≤ count_for job.now) × IsAt job.now b.first b.staged) }
    ensures stage_gain { OnErr result ((gain : List StageEvent) × Grew stage_pass.old stage_pass.new gain × (keeps gain ≡ 0)) }
    ensures mip_gain { OnErr result ((gain : List MipEvent) × Grew mip_pass.old mip_pass.new gain) }
    ensures stage { IsIdle stage.now stage_pass.new }
    ensures mips { IsIdle mips.now mip_pass.new }
    ensures bare { hold_of mip_pass.new.own ≡ None }
{
    prove!(job.active_count() <= 64);
    let regions = plan_for(alloc, job, pieces)?;
    let asked = stages_of(alloc, job, pieces, &regions)?;
    match stage.find(rt, alloc, stage_pass, &asked)? {
        Some((index, staged)) => Ok(Begun {
            regions,
            first: index + 1,
            staged,
        }),
        None => {
            let region = regions[0];
            let staged = input(rt, alloc, mips, gate, mip_pass, job, region)?;
            Ok(Begun {
                regions,
                first: 0,
                staged,
            })
        }
    }
}
