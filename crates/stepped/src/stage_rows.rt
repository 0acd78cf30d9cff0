//! What a run does with its stage.
ghost use Rattle.std.specs.Prelude.{◌≡◌, ◌==◌, ℕ, not, ◌&&◌, nat_lt, IfSome, Some, None};
ghost use Rattle.events.specs.declared.event.Event.TheVariants as event;
ghost use Rattle.level_store.specs.Planes.{IsOfLevel};
ghost use Rattle.stepped.specs.Machine.{Makes, active_count_of};
ghost use Rattle.stepped.specs.declared.answer.Answer.TheVariants as answer;
ghost use Rattle.stepped.specs.Step.{at_stage, kept_answer};

use crate::answer::Answer;
use crate::level_rows::is_writing;
use crate::machine::Machine;
use crate::open_run::OpenRun;
use crate::seats::{put_run, run_at, take_run};
use level_store::{Hold, LevelStore};
use px::Plane;
use stage_cache::Kept;
use std::alloc::{AllocError, Global};
use std::thread::Threads;

// The plane of that level that a worker reads.
fn ready(levels: &LevelStore, worker: u32, level: u8) -> Option<&Plane>
    ensures { IfSome result (λ p. IsOfLevel levels.now.source level p.now) }
{
    match levels.hold(worker) {
        Some(Hold::Reads { level: held }) if held == level => levels.plane(worker),
        _ => None,
    }
}

// Whether a run has a stage, and an instance left, and no frame.
fn may_process(run: &OpenRun) -> bool
    ensures { result ≡ (at_stage run.now.stage (λ a. nat_lt a.done (active_count_of run.now.job)) && not run.now.framed) }
{
    match run.stage() {
        None => false,
        Some(at) => at.done < run.job().active_count() && !run.is_framed(),
    }
}

// Whether a run has a stage behind all instances, and no frame.
fn may_finish(run: &OpenRun) -> bool
    ensures { result ≡ (at_stage run.now.stage (λ a. a.done == active_count_of run.now.job) && not run.now.framed) }
{
    match run.stage() {
        None => false,
        Some(at) => at.done == run.job().active_count() && !run.is_framed(),
    }
}

// Whether the stage of a run came from an instance and isn't kept yet.
fn is_unkept(run: &OpenRun) -> bool
    ensures { result ≡ at_stage run.now.stage (λ a. a.unkept) }
{
    match run.stage() {
        None => false,
        Some(at) => at.unkept,
    }
}

fn answer_of_found(found: Option<u32>) -> Answer
    ensures none { found ≡ None → result ≡ answer.NotFound }
    ensures some { (n : ℕ) → found ≡ Some n → result ≡ answer.Found n }
{
    match found {
        None => Answer::NotFound,
        Some(done) => Answer::Found(done),
    }
}

fn answer_of_kept(kept: Kept) -> Answer
    ensures { result ≡ kept_answer kept }
{
    match kept {
        Kept::Stored => Answer::Stored,
        Kept::TooLarge => Answer::TooLarge,
    }
}

impl Machine {
    pub(crate) fn find(&mut self, alloc: Global, worker: u32) -> Result<Option<Answer>, AllocError>
        ensures { Makes self.old (event.Find worker) self.new result }
    {
        let Some(run) = run_at(&self.runs, worker) else {
            return Ok(None);
        };
        if run.stage().is_some() {
            return Ok(None);
        }
        if self.levels.hold(worker).is_some() {
            return Ok(None);
        }
        let mut run = take_run(&mut self.runs, worker);
        let found = run.find(alloc, &mut self.cache);
        put_run(&mut self.runs, worker, run);
        Ok(Some(answer_of_found(found?)))
    }

    pub(crate) fn load<R: Threads + Sync>(
        &mut self,
        rt: &R,
        alloc: Global,
        worker: u32,
    ) -> Result<Option<Answer>, AllocError>
        ensures { Makes self.old (event.Load worker) self.new result }
    {
        let Some(run) = run_at(&self.runs, worker) else {
            return Ok(None);
        };
        if run.stage().is_some() {
            return Ok(None);
        }
        if is_writing(self.levels.hold(worker)) {
            return Ok(None);
        }
        let mut run = take_run(&mut self.runs, worker);
        let level = run.job().show().level;
        let done = run.load(rt, alloc, ready(&self.levels, worker, level));
        put_run(&mut self.runs, worker, run);
        done?;
        Ok(Some(Answer::Done))
    }

    pub(crate) fn process<R: Threads + Sync>(
        &mut self,
        rt: &R,
        alloc: Global,
        worker: u32,
    ) -> Result<Option<Answer>, AllocError>
        ensures { Makes self.old (event.Node worker) self.new result }
    {
        let Some(run) = run_at(&self.runs, worker) else {
            return Ok(None);
        };
        if !may_process(run) {
            return Ok(None);
        }
        let mut run = take_run(&mut self.runs, worker);
        let done = run.process(rt, alloc);
        put_run(&mut self.runs, worker, run);
        done?;
        Ok(Some(Answer::Done))
    }

    pub(crate) fn keep(&mut self, worker: u32) -> Result<Option<Answer>, AllocError>
        ensures { Makes self.old (event.Keep worker) self.new result }
    {
        let Some(run) = run_at(&self.runs, worker) else {
            return Ok(None);
        };
        if !is_unkept(run) {
            return Ok(None);
        }
        let mut run = take_run(&mut self.runs, worker);
        let kept = run.keep(&mut self.cache);
        put_run(&mut self.runs, worker, run);
        Ok(Some(answer_of_kept(kept?)))
    }

    pub(crate) fn finish<R: Threads + Sync>(
        &mut self,
        rt: &R,
        alloc: Global,
        worker: u32,
    ) -> Result<Option<Answer>, AllocError>
        ensures { Makes self.old (event.Finish worker) self.new result }
    {
        let Some(run) = run_at(&self.runs, worker) else {
            return Ok(None);
        };
        if !may_finish(run) {
            return Ok(None);
        }
        let mut run = take_run(&mut self.runs, worker);
        let done = run.finish(rt, alloc);
        put_run(&mut self.runs, worker, run);
        done?;
        Ok(Some(Answer::Done))
    }
}
