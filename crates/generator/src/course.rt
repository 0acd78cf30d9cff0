//! What has happened so far.
ghost use Rattle.std.specs.Prelude.{◌≡◌, [], is_some, IfOk, OnOk};
ghost use Rattle.std.specs.Arc.{arc_value};
ghost use Rattle.stepped.specs.Outcome.{start_of};
ghost use Rattle.generator.specs.NextOf.{next_of};
ghost use Rattle.generator.specs.Rounds.{make, turn};
ghost use Rattle.generator.specs.Tried.{tried, wish_to_take, next_tried};

use crate::next_of::{note, run_on, take_of};
use dev_core::{DeskState, Subject};
use events::Event;
use std::alloc::{AllocError, Global};
use std::marker::Model;
use std::sync::Arc;
use std::thread::Threads;
use stepped::{Answer, Outcome, StepEnd, step_one};

/// The outcome, and the events that led to it.
#[derive(Drop)]
pub(crate) struct Course {
    outcome: Outcome,
    events: Vec<Event>,
}

impl Model for Course {
    ghost use Rattle.generator.specs.Rounds.{Course};

    ghost Value = { Course };

    ghost view = { λ c. record { outcome = c.outcome; events = c.events.items } };
}

impl Course {
    pub(crate) fn start(alloc: Global, subject: &Arc<Subject>) -> Result<Course, AllocError>
        ensures { IfOk result (λ c. c ≡ record { outcome = start_of (arc_value subject.now); events = [] }) }
    {
        Ok(Course {
            outcome: Outcome::start(alloc, subject)?,
            events: Vec::new(alloc),
        })
    }

    pub(crate) fn desk(&self) -> &DeskState
        ensures subject { result.now.subject ≡ self.now.outcome.core.subject }
        ensures journal { result.now.journal ≡ self.now.outcome.core.journal }
    {
        self.outcome.desk()
    }

    /// Makes an event, where it may happen, and says its answer; `None` exactly where it may not.
    pub(crate) fn make<R: Threads + Sync>(
        &mut self,
        rt: &R,
        alloc: Global,
        event: Event,
    ) -> Result<Option<Answer>, AllocError>
        ensures course { OnOk result (self.new ≡ (make self.old event).0) }
        ensures answer { IfOk result (λ a. a ≡ (make self.old event).1) }
    {
        self.events.reserve(1)?;
        match step_one(rt, alloc, &event, &mut self.outcome) {
            Ok(()) => {}
            Err(StepEnd::NotAllowed { place: _ }) => return Ok(None),
            Err(StepEnd::Memory) => return Err(AllocError),
        }
        self.events.push_reserved(event);
        Ok(self.outcome.answers().last().copied())
    }

    // Makes the first of the events that may happen.
    #[tactic(auto, using(crate::proofs::TriedLemmas::make_none, crate::proofs::TriedLemmas::tried_next, crate::proofs::TriedLemmas::tried_here))]
    fn make_first<R: Threads + Sync>(
        &mut self,
        rt: &R,
        alloc: Global,
        events: &[Event],
    ) -> Result<Option<(Event, Answer)>, AllocError>
        ensures course { OnOk result (self.new ≡ (tried self.old events.now).0) }
        ensures made { IfOk result (λ d. d ≡ (tried self.old events.now).1) }
    {
        for event in events {
            if let Some(answer) = self.make(rt, alloc, *event)? {
                return Ok(Some((*event, answer)));
            }
        }
        Ok(None)
    }

    // Takes what is due, where a worker may.
    #[tactic(auto, using(crate::proofs::TriedLemmas::make_none, crate::proofs::TriedLemmas::tried_next, crate::proofs::TriedLemmas::tried_here))]
    fn take<R: Threads + Sync>(
        &mut self,
        rt: &R,
        alloc: Global,
        worker: u32,
    ) -> Result<Option<(Event, Answer)>, AllocError>
        ensures course { OnOk result (self.new ≡ (tried self.old (wish_to_take self.old worker)).0) }
        ensures made { IfOk result (λ d. d ≡ (tried self.old (wish_to_take self.old worker)).1) }
    {
        let Some(name) = self.desk().due() else {
            return Ok(None);
        };
        let take = take_of(worker, name);
        match self.make(rt, alloc, take)? {
            None => Ok(None),
            Some(answer) => Ok(Some((take, answer))),
        }
    }

    // Makes a worker's next event, where it has one.
    #[tactic(auto, using(crate::proofs::TriedLemmas::tried_none, crate::proofs::TriedLemmas::tried_behind, crate::proofs::TriedLemmas::tried_before))]
    fn make_next<R: Threads + Sync>(
        &mut self,
        rt: &R,
        alloc: Global,
        worker: u32,
        done: &[(Event, Answer)],
    ) -> Result<Option<(Event, Answer)>, AllocError>
        ensures course { OnOk result (self.new ≡ (next_tried self.old worker done.now).0) }
        ensures made { IfOk result (λ d. d ≡ (next_tried self.old worker done.now).1) }
    {
        if let Some(took) = self.take(rt, alloc, worker)? {
            return Ok(Some(took));
        }
        let events = run_on(alloc, worker, done)?;
        self.make_first(rt, alloc, &events)
    }

    /// A worker's turn: it makes its next event, where it has one. Says whether it had.
    #[tactic(auto, using(crate::proofs::TriedLemmas::turn_course, crate::proofs::TriedLemmas::turn_done, crate::proofs::TriedLemmas::turn_moved))]
    pub(crate) fn turn<R: Threads + Sync>(
        &mut self,
        rt: &R,
        alloc: Global,
        worker: u32,
        done: &mut Vec<(Event, Answer)>,
    ) -> Result<bool, AllocError>
        ensures course { OnOk result (self.new ≡ (turn worker (self.old, done.old.items)).0) }
        ensures done { OnOk result (done.new.items ≡ (turn worker (self.old, done.old.items)).1) }
        ensures moved { IfOk result (λ moved. moved ≡ is_some (next_of self.old.outcome.core worker done.old.items)) }
    {
        match self.make_next(rt, alloc, worker, done)? {
            None => Ok(false),
            Some((event, answer)) => {
                note(done, event, answer)?;
                Ok(true)
            }
        }
    }
}
