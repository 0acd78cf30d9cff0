//! The desk, the workers' runs and both caches, and what each event does to them.
ghost use Rattle.std.specs.Prelude.{◌≡◌, IfOk};
ghost use Rattle.std.specs.Arc.{arc_value};
ghost use Rattle.stepped.specs.Machine.{Makes, AreHeld};
ghost use Rattle.stepped.specs.Step.{core_of};

use crate::answer::Answer;
use crate::open_run::OpenRun;
use crate::seats::no_runs;
use dev_core::{DeskState, Subject};
use events::Event;
use level_store::LevelStore;
use outside::JobName;
use stage_cache::StageCache;
use std::alloc::{AllocError, Global};
use std::marker::Model;
use std::sync::Arc;
use std::thread::Threads;

/// The desk, the run of each worker, the stages that are kept, and the mipmap levels. Each job that is out
/// at the desk is held by a run.
pub(crate) struct Machine {
    pub(crate) desk: DeskState,
    pub(crate) runs: Vec<Option<OpenRun>>,
    pub(crate) cache: StageCache,
    pub(crate) levels: LevelStore,
}

impl Model for Machine {
    ghost use Rattle.stepped.specs.Machine.{core_seen, IsMachine};
    ghost use Rattle.stepped.specs.Step.{Core};

    ghost Value = { Core };

    ghost view = { λ m. core_seen m.desk m.runs.items m.cache m.levels };

    ghost invariant = { λ m. IsMachine m.desk m.runs.items m.cache m.levels };
}

impl Machine {
    pub(crate) fn start(alloc: Global, subject: Arc<Subject>) -> Result<Machine, AllocError>
        ensures { IfOk result (λ m. m ≡ core_of (arc_value subject)) }
    {
        let settings = *subject.script().settings();
        let pixels = u64::from(settings.stage_pixels);
        let source = Arc::try_clone(subject.source())?;
        let cache = StageCache::new(alloc, source, settings.stage_entries, pixels)?;
        let source = Arc::try_clone(subject.source())?;
        let levels = LevelStore::new(alloc, source, settings.mip_slots, settings.workers)?;
        let desk = DeskState::start(alloc, subject)?;
        let runs = no_runs(alloc, settings.workers)?;
        Ok(Machine {
            desk,
            runs,
            cache,
            levels,
        })
    }

    pub(crate) fn desk(&self) -> &DeskState
        ensures subject { result.now.subject ≡ self.now.subject }
        ensures journal { result.now.journal ≡ self.now.journal }
    {
        &self.desk
    }

    /// Makes an event, where it may happen, and says its answer. Where it may not, and where memory runs
    /// out, all is as before.
    pub(crate) fn apply<R: Threads + Sync>(
        &mut self,
        rt: &R,
        alloc: Global,
        event: Event,
    ) -> Result<Option<Answer>, AllocError>
        ensures { Makes self.old event self.new result }
    {
        match event {
            Event::Editor => self.edit(alloc),
            Event::Take { worker, pipe } => self.take(alloc, worker, JobName::Pipe(pipe)),
            Event::TakeTicket { worker, ticket } => {
                self.take(alloc, worker, JobName::Ticket(ticket))
            }
            Event::Look { worker } => Ok(self.look(worker)),
            Event::Restart { worker } => self.restart(alloc, worker),
            Event::Find { worker } => self.find(alloc, worker),
            Event::Reach { worker } => Ok(self.reach(worker)),
            Event::Evict { worker } => Ok(self.evict(worker)),
            Event::Demote { worker } => self.demote(rt, alloc, worker),
            Event::Abandon { worker } => Ok(self.abandon(worker)),
            Event::Load { worker } => self.load(rt, alloc, worker),
            Event::Leave { worker } => Ok(self.leave(worker)),
            Event::Node { worker } => self.process(rt, alloc, worker),
            Event::Keep { worker } => self.keep(worker),
            Event::Finish { worker } => self.finish(rt, alloc, worker),
            Event::Publish { worker } => Ok(self.deliver(worker, true)),
            Event::FinishTicket { worker } => Ok(self.deliver(worker, false)),
            Event::GiveBack { worker } => Ok(self.give_back(worker)),
        }
    }
}

impl Drop for Machine {
    // Gives the jobs that are out back to the desk.
    fn drop(self) {
        let Machine {
            mut desk,
            runs,
            cache: _,
            levels: _,
        } = self;
        give_back_all(&mut desk, runs);
    }
}

fn give_back_all(desk: &mut DeskState, mut runs: Vec<Option<OpenRun>>)
    requires { AreHeld desk.old runs.items }
{
    while let Some(seat) = runs.pop() {
        if let Some(run) = seat {
            let (job, _frame) = run.end();
            desk.give_back(job);
        }
    }
    runs.destroy_empty();
}
