//! What a worker would do next. The table of events says which of it may happen.
ghost use Rattle.std.specs.Prelude.{◌≡◌, [], ◌∷◌, IfOk, OnOk};
ghost use Rattle.std.specs.List.{list_any};
ghost use Rattle.generator.specs.NextOf.{go_on, behind_look, behind_find, behind_reach, behind_evict, behind, is_evict, run_on, take_of, begins_run, done_with};

use events::Event;
use outside::JobName;
use std::alloc::{AllocError, Global};
use stepped::Answer;

// Behind a look: a run that was overtaken begins anew, and another one goes on.
fn behind_look(alloc: Global, worker: u32, answer: Answer) -> Result<Vec<Event>, AllocError>
    ensures { IfOk result (λ v. v.items ≡ behind_look worker answer) }
{
    match answer {
        Answer::Superseded(_) => Vec::from_slice(alloc, &[Event::Restart { worker }]),
        _ => Vec::from_slice(
            alloc,
            &[
                Event::Find { worker },
                Event::Node { worker },
                Event::Finish { worker },
            ],
        ),
    }
}

// A run with a stage: a pipe's looks, and a ticket's goes on at once.
fn go_on(alloc: Global, worker: u32) -> Result<Vec<Event>, AllocError>
    ensures { IfOk result (λ v. v.items ≡ go_on worker) }
{
    Vec::from_slice(
        alloc,
        &[
            Event::Look { worker },
            Event::Node { worker },
            Event::Finish { worker },
        ],
    )
}

// Behind a find: without a stage the level is reached for, and at the source's own level the input is
// loaded.
fn behind_find(alloc: Global, worker: u32, answer: Answer) -> Result<Vec<Event>, AllocError>
    ensures { IfOk result (λ v. v.items ≡ behind_find worker answer) }
{
    match answer {
        Answer::NotFound => Vec::from_slice(
            alloc,
            &[Event::Reach { worker }, Event::Load { worker }],
        ),
        _ => go_on(alloc, worker),
    }
}

// Behind a reach: where no slot was free, one is evicted, but only once.
fn behind_reach(worker: u32, has_evicted: bool, answer: Answer) -> Event
    ensures { result ∷ [] ≡ behind_reach worker has_evicted answer }
{
    match answer {
        Answer::Write => Event::Demote { worker },
        Answer::Full => if has_evicted {
            Event::Load { worker }
        } else {
            Event::Evict { worker }
        },
        _ => Event::Load { worker },
    }
}

// Behind an evict: where a slot came free, the level is reached for once more.
fn behind_evict(worker: u32, answer: Answer) -> Event
    ensures { result ∷ [] ≡ behind_evict worker answer }
{
    match answer {
        Answer::Evicted(_) => Event::Reach { worker },
        _ => Event::Load { worker },
    }
}

// What a run goes on with behind an event, by the answer to it.
fn behind(
    alloc: Global,
    worker: u32,
    has_evicted: bool,
    event: Event,
    answer: Answer,
) -> Result<Vec<Event>, AllocError>
    ensures { IfOk result (λ v. v.items ≡ behind worker has_evicted event answer) }
{
    match event {
        Event::Look { worker: _ } => behind_look(alloc, worker, answer),
        Event::Find { worker: _ } => behind_find(alloc, worker, answer),
        Event::Reach { worker: _ } => {
            Vec::from_slice(alloc, &[behind_reach(worker, has_evicted, answer)])
        }
        Event::Evict { worker: _ } => Vec::from_slice(alloc, &[behind_evict(worker, answer)]),
        Event::Demote { worker: _ } => Vec::from_slice(alloc, &[Event::Load { worker }]),
        Event::Load { worker: _ } => Vec::from_slice(
            alloc,
            &[
                Event::Leave { worker },
                Event::Look { worker },
                Event::Node { worker },
                Event::Finish { worker },
            ],
        ),
        Event::Leave { worker: _ } | Event::Keep { worker: _ } => go_on(alloc, worker),
        Event::Node { worker: _ } => Vec::from_slice(alloc, &[Event::Keep { worker }]),
        Event::Finish { worker: _ } => Vec::from_slice(
            alloc,
            &[Event::Publish { worker }, Event::FinishTicket { worker }],
        ),
        _ => Ok(Vec::new(alloc)),
    }
}

// Whether this evicted a level, or tried to.
fn is_evict(done: &(Event, Answer)) -> bool
    ensures { result ≡ is_evict done.now }
{
    matches!(done.0, Event::Evict { .. })
}

// Whether one of them did.
fn has_evicted(done: &[(Event, Answer)]) -> bool
    ensures { result ≡ list_any is_evict done.now }
{
    done.iter().any(|d| is_evict(d))
}

/// What a run goes on with that has done this since it began, what it would rather do first.
pub(crate) fn run_on(
    alloc: Global,
    worker: u32,
    done: &[(Event, Answer)],
) -> Result<Vec<Event>, AllocError>
    ensures { IfOk result (λ v. v.items ≡ run_on worker done.now) }
{
    match done.last() {
        None => Vec::from_slice(alloc, &[Event::Look { worker }, Event::Find { worker }]),
        Some((event, answer)) => behind(alloc, worker, has_evicted(done), *event, *answer),
    }
}

/// The event that takes a job.
pub(crate) fn take_of(worker: u32, name: JobName) -> Event
    ensures { result ≡ take_of worker name }
{
    match name {
        JobName::Pipe(pipe) => Event::Take { worker, pipe },
        JobName::Ticket(ticket) => Event::TakeTicket { worker, ticket },
    }
}

// Whether a run begins with the event.
fn begins_run(event: &Event) -> bool
    ensures { result ≡ begins_run event.now }
{
    matches!(
        event,
        Event::Take { .. } | Event::TakeTicket { .. } | Event::Restart { .. }
    )
}

/// Notes an event of a worker, with its answer. On want of memory all is as before.
pub(crate) fn note(
    done: &mut Vec<(Event, Answer)>,
    event: Event,
    answer: Answer,
) -> Result<(), AllocError>
    ensures { OnOk result (done.new.items ≡ done_with done.old.items event answer) }
{
    if begins_run(&event) {
        done.clear();
        return Ok(());
    }
    done.push((event, answer))?;
    Ok(())
}
