//! The run that a worker has open.
ghost use Rattle.std.specs.Prelude.{◌≡◌, ◌<◌, length, false, true, None, option_map, IfOk, IfSome, IsSomeAnd, OnOk, OnErr, is_some};
ghost use Rattle.dev_core.specs.DeskState.{with_entry, now};
ghost use Rattle.dev_core.specs.Jobs.{frame_of, OfPipe};
ghost use Rattle.journal.specs.Desk.{IsSuperseded};
ghost use Rattle.journal.specs.declared.entry.Entry.TheVariants.{Restarted as restarted};
ghost use Rattle.stage_cache.specs.Stages.{found_index, stages_after_find};
ghost use Rattle.stage_run.specs.StageRun.{stage_at, found_stage, on_stage, kept_at, asked, IsKept};
ghost use Rattle.level_store.specs.Planes.{IsOfLevel};
ghost use Rattle.dev_core.specs.Subject.{show_of};
ghost use Rattle.stepped.specs.Machine.{OpenSeen, active_count_of, course, IsCourseOf, IsFrameOf, stage_in};

use dev_core::{DeskState, Frame, Job};
use pipe_nodes::Steps;
use px::Plane;
use stage_cache::{Kept, StageCache};
use stage_run::{At, StageRun};
use std::alloc::{AllocError, Global};
use std::marker::{Brand, Model};
use std::sync::ledger::{Blank, Ledger};
use std::thread::Threads;

/// A worker's run: its job, its stages, once they are planned, and its frame, once that is made. It is seen
/// as the job, how far it is, and whether its frame is made. The run must be ended.
pub(crate) struct OpenRun {
    job: Job,
    stages: Option<StageRun>,
    frame: Option<Frame>,
}

impl Model for OpenRun {
    ghost use Rattle.std.specs.Prelude.{is_some};
    ghost use Rattle.stepped.specs.Machine.{OpenSeen, IsOpenRun, stage_in};

    ghost Value = { OpenSeen };

    ghost view = { λ o. record { job = o.job; stage = stage_in o.stages; framed = is_some o.frame } };

    ghost invariant = { λ o. IsOpenRun o.job o.stages o.frame };
}

// Plans the stages of a job's run, in a ledger of its own.
fn planned<L: Ledger>(alloc: Global, job: &Job, blank: Blank) -> Result<StageRun, AllocError>
    requires name { blank.name ≡ L.name }
    requires parts { blank.parts ≡ L.parts }
    requires some { 0 < blank.parts }
    ensures { IfOk result (λ r. r ≡ course job.now None) }
{
    let mut steps = Steps::<L>::start(blank);
    StageRun::plan(
        alloc,
        job.subject().source(),
        job.history(),
        job.show(),
        &mut steps,
    )
}

// Plans the stages of a job's run, where they aren't planned yet.
fn plan(alloc: Global, job: &Job, stages: &mut Option<StageRun>) -> Result<(), AllocError>
    requires { IsCourseOf job.now stages.old }
    ensures ok { OnOk result (stages.new ≡ Some (course job.now (stage_in stages.old))) }
    ensures err { OnErr result (stages.new ≡ stages.old) }
{
    if stages.is_some() {
        return Ok(());
    }
    *stages = Some(planned::<Brand>(alloc, job, Blank::new(1))?);
    Ok(())
}

// The next instance of a run, in a ledger of its own.
fn process<L: Ledger, R: Threads + Sync>(
    rt: &R,
    alloc: Global,
    run: &mut StageRun,
    blank: Blank,
) -> Result<(), AllocError>
    requires left { IsSomeAnd run.old.stage (λ a. a.done < length run.old.actives) }
    requires name { blank.name ≡ L.name }
    requires parts { blank.parts ≡ L.parts }
    requires some { 0 < blank.parts }
    ensures ok { OnOk result (run.new ≡ record run.old { stage = on_stage run.old.stage }) }
    ensures err { OnErr result (run.new ≡ run.old) }
{
    let mut steps = Steps::<L>::start(blank);
    run.process(rt, alloc, &mut steps)
}

impl OpenRun {
    /// The run of a job that has only begun.
    pub(crate) fn begin(job: Job) -> OpenRun
        ensures { result ≡ record { job = job; stage = None; framed = false } }
    {
        OpenRun {
            job,
            stages: None,
            frame: None,
        }
    }

    pub(crate) fn job(&self) -> &Job
        ensures { result.now ≡ self.now.job }
    {
        &self.job
    }

    /// How far it is, once it has a stage.
    pub(crate) fn stage(&self) -> Option<At>
        ensures { result ≡ self.now.stage }
    {
        match &self.stages {
            None => None,
            Some(stages) => stages.stage(),
        }
    }

    pub(crate) fn is_framed(&self) -> bool
        ensures { result ≡ self.now.framed }
    {
        self.frame.is_some()
    }

    /// Goes on with a stage of the cache, where there is one: so many instances are applied to it.
    pub(crate) fn find(
        &mut self,
        alloc: Global,
        cache: &mut StageCache,
    ) -> Result<Option<u32>, AllocError>
        requires none { self.old.stage ≡ None }
        requires source { cache.old.source ≡ self.old.job.subject.source }
        ensures done { IfOk result (λ n. n ≡ option_map (λ a. a.done) (found_stage (found_index cache.old.stages (asked (course self.old.job None))))) }
        ensures run { OnOk result (self.new ≡ record self.old { stage = found_stage (found_index cache.old.stages (asked (course self.old.job None))) }) }
        ensures cache { OnOk result (cache.new ≡ record cache.old { stages = stages_after_find (asked (course self.old.job None)) cache.old.stages }) }
        ensures err { OnErr result (self.new ≡ self.old) }
        ensures cache_err { OnErr result (cache.new ≡ cache.old) }
    {
        plan(alloc, &self.job, &mut self.stages)?;
        let Some(stages) = &mut self.stages else {
            unreachable!()
        };
        let _index = stages.find(alloc, cache)?;
        let Some(at) = stages.stage() else {
            return Ok(None);
        };
        Ok(Some(at.done))
    }

    /// Begins with the input, from a plane of its level where one is at hand.
    pub(crate) fn load<R: Threads + Sync>(
        &mut self,
        rt: &R,
        alloc: Global,
        ready: Option<&Plane>,
    ) -> Result<(), AllocError>
        requires none { self.old.stage ≡ None }
        requires ready { IfSome ready (λ p. IsOfLevel self.old.job.subject.source (show_of self.old.job.subject self.old.job.name self.old.job.moment).level p.now) }
        ensures ok { OnOk result (self.new ≡ record self.old { stage = stage_at 0 false }) }
        ensures err { OnErr result (self.new ≡ self.old) }
    {
        plan(alloc, &self.job, &mut self.stages)?;
        let Some(stages) = &mut self.stages else {
            unreachable!()
        };
        let _begins = stages.first_region();
        stages.load(rt, alloc, ready)
    }

    /// Applies the next instance.
    pub(crate) fn process<R: Threads + Sync>(
        &mut self,
        rt: &R,
        alloc: Global,
    ) -> Result<(), AllocError>
        requires { IsSomeAnd self.old.stage (λ a. a.done < active_count_of self.old.job) }
        ensures ok { OnOk result (self.new ≡ record self.old { stage = on_stage self.old.stage }) }
        ensures err { OnErr result (self.new ≡ self.old) }
    {
        let Some(stages) = &mut self.stages else {
            unreachable!()
        };
        process::<Brand, R>(rt, alloc, stages, Blank::new(1))
    }

    /// Keeps its stage, which came from an instance.
    pub(crate) fn keep(&mut self, cache: &mut StageCache) -> Result<Kept, AllocError>
        requires unkept { IsSomeAnd self.old.stage (λ a. a.unkept ≡ true) }
        requires source { cache.old.source ≡ self.old.job.subject.source }
        ensures kept { IfOk result (λ kept. IsKept (course self.old.job self.old.stage) cache.old kept cache.new) }
        ensures ok { OnOk result (self.new ≡ record self.old { stage = kept_at self.old.stage }) }
        ensures err { OnErr result (self.new ≡ self.old) }
        ensures cache_err { OnErr result (cache.new ≡ cache.old) }
    {
        let Some(stages) = &mut self.stages else {
            unreachable!()
        };
        stages.keep(cache)
    }

    /// Makes the frame, where all instances are applied.
    pub(crate) fn finish<R: Threads + Sync>(
        &mut self,
        rt: &R,
        alloc: Global,
    ) -> Result<(), AllocError>
        requires { IsSomeAnd self.old.stage (λ a. a.done ≡ active_count_of self.old.job) }
        ensures ok { OnOk result (self.new ≡ record self.old { framed = true }) }
        ensures err { OnErr result (self.new ≡ self.old) }
    {
        let Some(stages) = &self.stages else {
            unreachable!()
        };
        let bytes = stages.finish(rt, alloc)?;
        self.frame = Some(Frame::of(&self.job, bytes)?);
        Ok(())
    }

    /// Begins anew, at the desk's present moment.
    pub(crate) fn restart(&mut self, alloc: Global, desk: &mut DeskState) -> Result<(), AllocError>
        requires subject { self.old.job.subject ≡ desk.old.subject }
        requires row { OfPipe self.old.job.name (λ p. IsSuperseded desk.old.subject.script (now desk.old) p self.old.job.worker self.old.job.moment) }
        ensures desk { OnOk result (OfPipe self.old.job.name (λ p. desk.new ≡ with_entry desk.old (restarted p self.old.job.worker (now desk.old).moment))) }
        ensures run { OnOk result (self.new ≡ record { job = record self.old.job { moment = (now desk.old).moment }; stage = None; framed = false }) }
        ensures err { OnErr result ((desk.new ≡ desk.old) × (self.new ≡ self.old)) }
    {
        desk.restart(alloc, &mut self.job)?;
        self.stages = None;
        self.frame = None;
        Ok(())
    }

    /// Ends the run: its job, and its frame, where that is made.
    pub(crate) fn end(self) -> (Job, Option<Frame>)
        ensures job { result.0 ≡ self.job }
        ensures framed { is_some result.1 ≡ self.framed }
        ensures frame { IsFrameOf self.job result.1 }
    {
        let OpenRun {
            job,
            stages: _,
            frame,
        } = self;
        (job, frame)
    }
}
