//! `session`: an editor and its workers in threads, and the files of the journal that they leave.
ghost use Rattle.std.specs.Prelude.{◌≡◌, length, IfOk, IfErr, string_bytes};
ghost use Rattle.outside.specs.Faults.{Rose};
ghost use Rattle.journal.specs.Lines.{lines};
ghost use Rattle.publish.specs.Files.{RoseAt};
ghost use Rattle.develop_session.specs.Ends.{Stops, Ends};
ghost use Rattle.develop_session.specs.Failures.{SaysLine};
ghost use Rattle.develop_session.specs.Names.{session};
ghost use Rattle.develop_session.specs.Session.{IsHeld};
ghost use Rattle.develop_session.specs.Texts.{session_text};
ghost use Rattle.develop_session.specs.Words.{Session};

use crate::command::SessionNames;
use crate::devices::{say_line, tell};
use crate::status::Status;
use crate::subject::read_subject;
use dev_core::DeskState;
use outside::{Gate, Said, Shelf};
use publish::write_all;
use session::run_desk;
use std::alloc::{AllocError, Global};
use std::sync::Wait;
use std::thread::Threads;

fn count_lines(desk: &DeskState) -> usize
    ensures { result ≡ length (lines desk.now.subject.script desk.now.journal) }
{
    desk.frames().len()
}

// Reads, runs and puts; how many lines there are.
fn hold<R: Wait + Threads + Sync, S: Shelf, G: Gate + Sync>(
    rt: &R,
    alloc: Global,
    names: SessionNames<'_>,
    shelf: &mut S,
    gate: &G,
) -> Result<usize, Status>
    ensures ok { IfOk result (λ count. IsHeld (session names.entry) (S.files shelf.old) (S.files shelf.new) count) }
    ensures cause { IfErr result (Stops (session names.entry) (S.files shelf.old) (S.files shelf.new) (RoseAt (S.read_faults shelf.old) (S.read_faults shelf.new)) (RoseAt (S.put_faults shelf.old) (S.put_faults shelf.new))) }
{
    let subject = read_subject(alloc, shelf, names.script, names.source)?;
    let desk = run_desk(rt, alloc, &subject, gate)?;
    write_all(alloc, &desk, shelf)?;
    Ok(count_lines(&desk))
}

// The line that is said of a session.
fn session_line(alloc: Global, count: usize) -> Result<String, AllocError>
    ensures { IfOk result (λ t. string_bytes t ≡ session_text count) }
{
    format!(in alloc; "lines {count}\n")
}

// Says the line of a session.
fn say_held<O: Said>(alloc: Global, said: &mut O, count: usize) -> Status
    ensures { SaysLine (session_text count) (Rose (O.faults said.old) (O.faults said.new)) (O.said said.old) (O.said said.new) result }
{
    match session_line(alloc, count) {
        Ok(line) => say_line(said, line.as_str()),
        Err(_) => Status::OutOfMemory,
    }
}

/// Lets an editor make the steps of SCRIPT over the picture SOURCE while workers show what it makes. Once
/// all is done it puts the files of the journal and says how many lines the manifest has. The threads pass
/// the gate.
pub fn run_session<R: Wait + Threads + Sync, S: Shelf, O: Said, G: Gate + Sync>(
    rt: &R,
    alloc: Global,
    script: &str,
    source: &str,
    shelf: &mut S,
    said: &mut O,
    gate: &G,
) -> Status
    ensures { let c : Session = record { script = script.now; source = source.now } in
        Ends c (S.files shelf.old) (S.files shelf.new) (RoseAt (S.read_faults shelf.old) (S.read_faults shelf.new)) (RoseAt (S.put_faults shelf.old) (S.put_faults shelf.new))
        (Rose (O.faults said.old) (O.faults said.new)) (O.said said.old) (O.said said.new) result }
{
    match hold(rt, alloc, SessionNames { script, source }, shelf, gate) {
        Ok(count) => say_held(alloc, said, count),
        Err(status) => {
            tell(alloc, said, &status);
            status
        }
    }
}
