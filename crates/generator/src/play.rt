//! The rounds of an editor and two workers.
ghost use Rattle.std.specs.Prelude.{◌≡◌, ◌||◌, not, IfOk, OnOk};
ghost use Rattle.std.specs.Arc.{arc_value};
ghost use Rattle.generator.specs.Rounds.{play_start, round, rounds, is_at_rest, rest, edit, step_by};

use crate::course::Course;
use dev_core::{DeskState, Subject};
use events::Event;
use std::alloc::{AllocError, Global};
use std::marker::Model;
use std::sync::Arc;
use std::thread::Threads;
use stepped::Answer;

/// At most how many rounds follow one another until no worker has a next event.
const MOST_ROUNDS: u32 = 65_536;

/// What has happened so far, and what each of two workers has done since its run began.
#[derive(Drop)]
pub(crate) struct Play {
    course: Course,
    first: Vec<(Event, Answer)>,
    second: Vec<(Event, Answer)>,
}

impl Model for Play {
    ghost use Rattle.generator.specs.Rounds.{Play};

    ghost Value = { Play };

    ghost view = { λ p. record { course = p.course; first = p.first.items; second = p.second.items } };
}

// Whether one of them holds.
fn either(one: bool, other: bool) -> bool
    ensures { result ≡ (one || other) }
{
    one || other
}

impl Play {
    pub(crate) fn start(alloc: Global, subject: &Arc<Subject>) -> Result<Play, AllocError>
        ensures { IfOk result (λ p. p ≡ play_start (arc_value subject.now)) }
    {
        Ok(Play {
            course: Course::start(alloc, subject)?,
            first: Vec::new(alloc),
            second: Vec::new(alloc),
        })
    }

    pub(crate) fn desk(&self) -> &DeskState
        ensures subject { result.now.subject ≡ self.now.course.outcome.core.subject }
        ensures journal { result.now.journal ≡ self.now.course.outcome.core.journal }
    {
        self.course.desk()
    }

    // The first worker's turn, then the second one's. Says whether one of them had a next event.
    #[tactic(auto, using(crate::proofs::RoundLemmas::round_told))]
    fn round<R: Threads + Sync>(&mut self, rt: &R, alloc: Global) -> Result<bool, AllocError>
        ensures play { OnOk result (self.new ≡ round self.old) }
        ensures moved { IfOk result (λ moved. moved ≡ not (is_at_rest self.old)) }
    {
        let first = self.course.turn(rt, alloc, 1, &mut self.first)?;
        let second = self.course.turn(rt, alloc, 2, &mut self.second)?;
        Ok(either(first, second))
    }

    // So many rounds.
    #[tactic(auto, using(crate::proofs::RoundLemmas::rounds_none, crate::proofs::RoundLemmas::rounds_more))]
    fn rounds<R: Threads + Sync>(
        &mut self,
        rt: &R,
        alloc: Global,
        count: u32,
    ) -> Result<(), AllocError>
        ensures { OnOk result (self.new ≡ rounds count self.old) }
    {
        for _i in 0..count {
            let _moved = self.round(rt, alloc)?;
        }
        Ok(())
    }

    /// Rounds until no worker has a next event.
    pub(crate) fn rest<R: Threads + Sync>(
        &mut self,
        rt: &R,
        alloc: Global,
    ) -> Result<(), AllocError>
        ensures { OnOk result (self.new ≡ rest self.old) }
    {
        let mut left = MOST_ROUNDS;
        while left > 0 {
            let moved = self.round(rt, alloc)?;
            if !moved {
                return Ok(());
            }
            left -= 1;
        }
        Ok(())
    }

    /// The editor's event: the next step, or the close.
    pub(crate) fn edit<R: Threads + Sync>(
        &mut self,
        rt: &R,
        alloc: Global,
    ) -> Result<(), AllocError>
        ensures { OnOk result (self.new ≡ edit self.old) }
    {
        let _answer = self.course.make(rt, alloc, Event::Editor)?;
        Ok(())
    }

    /// A step of the script. A settle comes once no worker has a next event; behind another step there
    /// are some rounds.
    pub(crate) fn step<R: Threads + Sync>(
        &mut self,
        rt: &R,
        alloc: Global,
        settles: bool,
        count: u32,
    ) -> Result<(), AllocError>
        ensures { OnOk result (self.new ≡ step_by settles count self.old) }
    {
        if settles {
            self.rest(rt, alloc)?;
            return self.edit(rt, alloc);
        }
        self.edit(rt, alloc)?;
        self.rounds(rt, alloc, count)
    }
}
