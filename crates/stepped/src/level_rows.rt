//! What a run does at its mipmap level.
ghost use Rattle.std.specs.Prelude.{◌≡◌, Ok};
ghost use Rattle.events.specs.declared.event.Event.TheVariants as event;
ghost use Rattle.level_store.specs.Levels.{is_writing, is_reading};
ghost use Rattle.stepped.specs.Machine.{Makes};
ghost use Rattle.stepped.specs.Step.{reach_answer};

use crate::answer::Answer;
use crate::machine::Machine;
use crate::seats::run_at;
use level_store::{Hold, ReachAnswer};
use std::alloc::{AllocError, Global};
use std::thread::Threads;

pub(crate) fn is_writing(hold: Option<Hold>) -> bool
    ensures { result ≡ is_writing hold }
{
    matches!(hold, Some(Hold::Writes { .. }))
}

fn is_reading(hold: Option<Hold>) -> bool
    ensures { result ≡ is_reading hold }
{
    matches!(hold, Some(Hold::Reads { .. }))
}

fn answer_of_reach(reached: ReachAnswer) -> Answer
    ensures { result ≡ reach_answer reached }
{
    match reached {
        ReachAnswer::Read => Answer::Read,
        ReachAnswer::Pending { writer } => Answer::Pending(writer),
        ReachAnswer::Write => Answer::Write,
        ReachAnswer::Full => Answer::Full,
    }
}

impl Machine {
    pub(crate) fn reach(&mut self, worker: u32) -> Option<Answer>
        ensures { Makes self.old (event.Reach worker) self.new (Ok result) }
    {
        let run = run_at(&self.runs, worker)?;
        let level = run.job().show().level;
        if run.stage().is_some() {
            return None;
        }
        if self.levels.hold(worker).is_some() {
            return None;
        }
        if level == 0 {
            return None;
        }
        Some(answer_of_reach(self.levels.reach(worker, level)))
    }

    pub(crate) fn evict(&mut self, worker: u32) -> Option<Answer>
        ensures { Makes self.old (event.Evict worker) self.new (Ok result) }
    {
        let _run = run_at(&self.runs, worker)?;
        match self.levels.evict() {
            None => Some(Answer::NoneEvicted),
            Some(level) => Some(Answer::Evicted(level)),
        }
    }

    pub(crate) fn demote<R: Threads + Sync>(
        &mut self,
        rt: &R,
        alloc: Global,
        worker: u32,
    ) -> Result<Option<Answer>, AllocError>
        ensures { Makes self.old (event.Demote worker) self.new result }
    {
        if run_at(&self.runs, worker).is_none() {
            return Ok(None);
        }
        if !is_writing(self.levels.hold(worker)) {
            return Ok(None);
        }
        self.levels.demote(rt, alloc, worker)?;
        Ok(Some(Answer::Done))
    }

    pub(crate) fn abandon(&mut self, worker: u32) -> Option<Answer>
        ensures { Makes self.old (event.Abandon worker) self.new (Ok result) }
    {
        let _run = run_at(&self.runs, worker)?;
        if !is_writing(self.levels.hold(worker)) {
            return None;
        }
        self.levels.abandon(worker);
        Some(Answer::Done)
    }

    pub(crate) fn leave(&mut self, worker: u32) -> Option<Answer>
        ensures { Makes self.old (event.Leave worker) self.new (Ok result) }
    {
        let _run = run_at(&self.runs, worker)?;
        if !is_reading(self.levels.hold(worker)) {
            return None;
        }
        self.levels.leave(worker);
        Some(Answer::Done)
    }
}
