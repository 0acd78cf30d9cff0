//! `stepped`: the files of the journal that a list of events makes.
ghost use Rattle.std.specs.Prelude.{◌≡◌, ◌≤◌, length, IfOk, IfErr};
ghost use Rattle.std.specs.Arc.{arc_value};
ghost use Rattle.outside.specs.Faults.{Rose};
ghost use Rattle.journal.specs.Desk.{start, desk_of, is_complete};
ghost use Rattle.journal.specs.Lines.{lines};
ghost use Rattle.publish.specs.Files.{RoseAt};
ghost use Rattle.develop_session.specs.Failures.{RunFails, SaysLine};
ghost use Rattle.develop_session.specs.Names.{replay};
ghost use Rattle.develop_session.specs.Replay.{IsReplayed, Leave};
ghost use Rattle.develop_session.specs.Replies.{Declines, Replies};
ghost use Rattle.develop_session.specs.Texts.{replayed_text};
ghost use Rattle.develop_session.specs.Words.{Replay};

use crate::command::ReplayNames;
use crate::devices::{say_line, tell};
use crate::inputs::read_events;
use crate::status::Status;
use crate::subject::read_subject;
use crate::tally::{Tally, replayed_line};
use dev_core::Subject;
use events::{Event, EventReason};
use outside::{Said, Shelf};
use publish::write_all;
use std::alloc::Global;
use std::sync::Arc;
use std::thread::Threads;
use stepped::{Outcome, StepEnd, stepped};

// What all events leave, where each may happen.
fn run_all<R: Threads + Sync>(
    rt: &R,
    alloc: Global,
    subject: &Arc<Subject>,
    events: &[Event],
) -> Result<Outcome, Status>
    requires few { length events.now ≤ 65536 }
    ensures left { IfOk result (λ o. Leave (arc_value subject.now) events.now o) }
    ensures cause { IfErr result (RunFails (arc_value subject.now) events.now) }
{
    let mut outcome = Outcome::start(alloc, subject)?;
    match stepped(rt, alloc, subject, events, &mut outcome) {
        Ok(()) => Ok(outcome),
        Err(StepEnd::NotAllowed { place }) => Err(Status::EventsRefused {
            place: place as u32,
            reason: EventReason::NotAllowed,
        }),
        Err(StepEnd::Memory) => Err(Status::OutOfMemory),
    }
}

fn tally_of(events: &[Event], outcome: &Outcome) -> Tally
    ensures events { result.events ≡ length events.now }
    ensures lines { result.lines ≡ length (lines outcome.now.core.subject.script outcome.now.core.journal) }
    ensures complete { result.complete ≡ is_complete outcome.now.core.subject.script (desk_of start outcome.now.core.journal) }
{
    let desk = outcome.desk();
    Tally {
        events: events.len(),
        lines: desk.frames().len(),
        complete: desk.complete(),
    }
}

// Reads, runs and puts; what the line says.
fn run_files<R: Threads + Sync, S: Shelf>(
    rt: &R,
    alloc: Global,
    names: ReplayNames<'_>,
    shelf: &mut S,
) -> Result<Tally, Status>
    ensures ok { IfOk result (λ t. IsReplayed (replay names.entry) (S.files shelf.old) (S.files shelf.new) t) }
    ensures cause { IfErr result (Declines (replay names.entry) (S.files shelf.old) (S.files shelf.new) (RoseAt (S.read_faults shelf.old) (S.read_faults shelf.new)) (RoseAt (S.put_faults shelf.old) (S.put_faults shelf.new))) }
{
    let subject = read_subject(alloc, shelf, names.script, names.source)?;
    let events = read_events(alloc, shelf, names.events)?;
    let outcome = run_all(rt, alloc, &subject, events.as_slice())?;
    write_all(alloc, outcome.desk(), shelf)?;
    Ok(tally_of(events.as_slice(), &outcome))
}

// Says the line of a replay.
fn say_replayed<O: Said>(alloc: Global, said: &mut O, tally: Tally) -> Status
    ensures { SaysLine (replayed_text tally) (Rose (O.faults said.old) (O.faults said.new)) (O.said said.old) (O.said said.new) result }
{
    match replayed_line(alloc, tally) {
        Ok(line) => say_line(said, line.as_str()),
        Err(_) => Status::OutOfMemory,
    }
}

/// Replays the EVENTS on the picture SOURCE and the script SCRIPT, puts the files of the journal that
/// they make, and says how many events and lines there were and whether all was done.
pub fn run_stepped<R: Threads + Sync, S: Shelf, O: Said>(
    rt: &R,
    alloc: Global,
    script: &str,
    source: &str,
    events: &str,
    shelf: &mut S,
    said: &mut O,
) -> Status
    ensures { let c : Replay = record { script = script.now; source = source.now; events = events.now } in
        Replies c (S.files shelf.old) (S.files shelf.new) (RoseAt (S.read_faults shelf.old) (S.read_faults shelf.new)) (RoseAt (S.put_faults shelf.old) (S.put_faults shelf.new))
        (Rose (O.faults said.old) (O.faults said.new)) (O.said said.old) (O.said said.new) result }
{
    match run_files(
        rt,
        alloc,
        ReplayNames {
            script,
            source,
            events,
        },
        shelf,
    ) {
        Ok(tally) => say_replayed(alloc, said, tally),
        Err(status) => {
            tell(alloc, said, &status);
            status
        }
    }
}
