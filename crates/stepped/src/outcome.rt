ghost use Rattle.std.specs.Prelude.{◌≡◌, IfOk};
ghost use Rattle.std.specs.Arc.{arc_value};
ghost use Rattle.stepped.specs.Outcome.{start_of, IsStep, IsRun};

use crate::answer::{Answer, StepEnd};
use crate::machine::Machine;
use dev_core::{DeskState, Roomy, Subject};
use events::Event;
use std::alloc::{AllocError, Global};
use std::marker::Model;
use std::sync::Arc;
use std::thread::Threads;

/// What the events so far have left: the desk, the workers' runs and the events' answers. Its drop
/// gives the jobs that are out back.
#[derive(Drop)]
pub struct Outcome {
    machine: Machine,
    answers: Roomy<Answer>,
    processed: u64,
}

impl Model for Outcome {
    ghost use Rattle.std.specs.Prelude.{◌≤◌, length};
    ghost use Rattle.stepped.specs.Outcome.{OutcomeSeen};

    ghost Value = { OutcomeSeen };

    ghost view = { λ o. record { core = o.machine; answers = o.answers.items; processed = o.processed } };

    ghost invariant = { λ o. o.processed ≤ length o.answers.items };
}

impl Outcome {
    /// The outcome of no events.
    pub fn start(alloc: Global, subject: &Arc<Subject>) -> Result<Outcome, AllocError>
        ensures { IfOk result (λ o. o ≡ start_of (arc_value subject.now)) }
    {
        let machine = Machine::start(alloc, Arc::try_clone(subject)?)?;
        Ok(Outcome {
            machine,
            answers: Roomy::new(alloc),
            processed: 0,
        })
    }

    /// The desk, with its journal and its frames.
    pub fn desk(&self) -> &DeskState
        ensures subject { result.now.subject ≡ self.now.core.subject }
        ensures journal { result.now.journal ≡ self.now.core.journal }
    {
        self.machine.desk()
    }

    /// The answer to each event, first to last.
    pub fn answers(&self) -> &[Answer]
        ensures { result.now ≡ self.now.answers }
    {
        self.answers.as_slice()
    }

    /// The number of node events.
    pub fn processed(&self) -> u64
        ensures { result ≡ self.now.processed }
    {
        self.processed
    }

    // Keeps the answer to an event. There is room for it.
    fn step<R: Threads + Sync>(
        &mut self,
        rt: &R,
        alloc: Global,
        event: Event,
    ) -> Result<(), StepEnd>
        ensures { IsStep self.old event self.new result }
    {
        self.answers.make_room(1)?;
        let Some(answer) = self.machine.apply(rt, alloc, event)? else {
            return Err(StepEnd::NotAllowed { place: 1 });
        };
        self.answers.add(answer);
        let count = self.answers.len() as u64;
        if let Event::Node { worker: _ } = event {
            prove!(self.processed < count);
            self.processed += 1;
        }
        Ok(())
    }
}

/// Makes one event. `NotAllowed`, at place 1, comes exactly where the event may not happen. Then, and on
/// want of memory, the outcome is as before.
pub fn step_one<R: Threads + Sync>(
    rt: &R,
    alloc: Global,
    event: &Event,
    outcome: &mut Outcome,
) -> Result<(), StepEnd>
    ensures { IsStep outcome.old event.now outcome.new result }
{
    outcome.step(rt, alloc, *event)
}

/// Makes the events in turn, from the outcome of none. `NotAllowed` tells the first that may not happen.
/// Then, and on want of memory, the outcome is that of the events before it.
pub fn stepped<R: Threads + Sync>(
    rt: &R,
    alloc: Global,
    subject: &Arc<Subject>,
    events: &[Event],
    outcome: &mut Outcome,
) -> Result<(), StepEnd>
    requires { outcome.old ≡ start_of (arc_value subject.now) }
    ensures { IsRun outcome.old events.now outcome.new result }
{
    for (i, event) in events.iter().enumerate() {
        match step_one(rt, alloc, event, outcome) {
            Ok(()) => {}
            Err(StepEnd::Memory) => return Err(StepEnd::Memory),
            Err(StepEnd::NotAllowed { place: _ }) => {
                return Err(StepEnd::NotAllowed {
                    place: i as u64 + 1,
                });
            }
        }
    }
    Ok(())
}
