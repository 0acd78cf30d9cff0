//! What a session begins with.
ghost use Rattle.std.specs.Prelude.{◌≡◌, ◌+◌, ◌≤◌, ◌<◌, length, map, ◌++◌, ◌∷◌, [], IfOk};
ghost use Rattle.std.specs.List.{range_with_len};
ghost use Rattle.std.specs.Arc.{arc_value};
ghost use Rattle.turn_lock.specs.Known.{fresh};
ghost use Rattle.session.specs.Workers.{IsOf, AreFresh, HasBegun, fresh_worker};
ghost use Rattle.session.specs.Finished.{down_from};

use crate::shared::Shared;
use crate::worker::Worker;
use desk::{DeskPass, SharedDesk};
use dev_core::Subject;
use pipe_worker::{NodeSet, Passes};
use shared_mips::{MipCache, MipPass};
use shared_stage::{SharedStage, StagePass};
use stage_cache::StageCache;
use std::alloc::{AllocError, Global};
use std::sync::Arc;

// The last of some.
fn last<X: Drop>(list: &mut Vec<X>) -> X
    requires { 0 < length list.old.items }
    ensures { list.old.items ≡ list.new.items ++ result ∷ [] }
{
    let Some(x) = list.pop() else { unreachable!() };
    x
}

/// The passes of all workers, each list in the order of their numbers.
#[derive(Drop)]
struct AllPasses {
    desk: Vec<DeskPass>,
    stage: Vec<StagePass>,
    mips: Vec<MipPass>,
}

// The worker of this number, which is the last one that has passes in the lists.
fn last_worker(alloc: Global, shared: &Shared, passes: &mut AllPasses, number: u32) -> Worker
    requires { AreFresh shared.now (number + 1) passes.old }
    ensures worker { result ≡ fresh_worker shared.now number }
    ensures rest { AreFresh shared.now number passes.new }
{
    Worker {
        passes: Passes {
            desk: last(&mut passes.desk),
            stage: last(&mut passes.stage),
            mips: last(&mut passes.mips),
        },
        nodes: NodeSet::empty(alloc),
    }
}

// The workers beside the editor, last number first, and the editor.
fn all_workers(
    alloc: Global,
    shared: &Shared,
    passes: AllPasses,
    count: u32,
) -> Result<(Vec<Worker>, Worker), AllocError>
    requires { AreFresh shared.now (count + 1) passes }
    ensures workers { IfOk result (λ r. r.0.items ≡ map (fresh_worker shared.now) (down_from count)) }
    ensures editor { IfOk result (λ r. r.1 ≡ fresh_worker shared.now 0) }
{
    let mut passes = passes;
    let mut workers = Vec::new(alloc);
    let mut left = count;
    while left > 0 {
        workers.push(last_worker(alloc, shared, &mut passes, left))?;
        left -= 1;
    }
    let editor = last_worker(alloc, shared, &mut passes, 0);
    Ok((workers, editor))
}

// What the threads share, with the passes of all seats.
fn share(
    alloc: Global,
    subject: &Arc<Subject>,
    seats: u32,
) -> Result<(Shared, AllPasses), AllocError>
    requires { (1 ≤ seats) × (seats ≤ 16) }
    ensures of { IfOk result (λ r. IsOf (arc_value subject.now) seats r.0) }
    ensures passes { IfOk result (λ r. AreFresh r.0 seats r.1) }
{
    let settings = *subject.script().settings();
    let close = subject.script().step_count() + 1;
    let (desk, desk_passes) = SharedDesk::new(alloc, Arc::try_clone(subject)?, seats)?;
    let source = Arc::try_clone(subject.source())?;
    let cache = StageCache::new(
        alloc,
        source,
        settings.stage_entries,
        u64::from(settings.stage_pixels),
    )?;
    let (stage, stage_passes) = SharedStage::new(alloc, cache, seats)?;
    let source = Arc::try_clone(subject.source())?;
    let (mips, mip_passes) = MipCache::new(alloc, source, settings.mip_slots, seats)?;
    let shared = Shared {
        desk,
        stage,
        mips,
        close,
    };
    let passes = AllPasses {
        desk: desk_passes,
        stage: stage_passes,
        mips: mip_passes,
    };
    Ok((shared, passes))
}

/// What the threads share, the workers beside the editor, and the editor. There are so many workers as the subject's
/// settings say.
pub(crate) fn begin(
    alloc: Global,
    subject: &Arc<Subject>,
) -> Result<(Shared, Vec<Worker>, Worker), AllocError>
    ensures { IfOk result (λ r. HasBegun (arc_value subject.now) r.0 r.1.items r.2) }
{
    let workers = subject.script().settings().workers;
    let (shared, passes) = share(alloc, subject, workers + 1)?;
    let (others, editor) = all_workers(alloc, &shared, passes, workers)?;
    Ok((shared, others, editor))
}
