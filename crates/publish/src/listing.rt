//! The manifest: a line for each file, and their count.
ghost use Rattle.std.specs.Prelude.{◌≡◌, ◌++◌, length, IfOk, OnOk, string_bytes, count_by};
ghost use Rattle.std.specs.List.{All};
ghost use Rattle.journal.specs.Lines.{line_of, lines};
ghost use Rattle.journal.specs.Tickets.{asked_moment};
ghost use Rattle.publish.specs.Count.{has_line};
ghost use Rattle.publish.specs.Names.{HasTicket, HasDone};
ghost use Rattle.publish.specs.Manifest.{pipe_text, ticket_text, lines_text, end_line, manifest_of};

use crate::names::{pipe_file, pipe_word, ticket_file, ticket_word};
use edit_steps::Script;
use journal::{Entry, ask_of};
use outside::Pipe;
use std::alloc::{AllocError, Global};

fn pipe_text(alloc: Global, pipe: Pipe, moment: u32) -> Result<String, AllocError>
    ensures { IfOk result (λ t. string_bytes t ≡ pipe_text pipe moment) }
{
    let word = pipe_word(pipe);
    let file = pipe_file(alloc, pipe, moment)?;
    format!(in alloc; "{word} {moment} {file}\n")
}

// The moment at which the ticket was asked.
fn asked_moment(script: &Script, ticket: u32) -> u32
    requires { HasTicket script.now ticket }
    ensures { result ≡ asked_moment script.now ticket }
{
    match ask_of(script, ticket) {
        Some(ask) => ask.moment,
        None => unreachable!(),
    }
}

fn ticket_text(alloc: Global, script: &Script, ticket: u32) -> Result<String, AllocError>
    requires { HasTicket script.now ticket }
    ensures { IfOk result (λ t. string_bytes t ≡ ticket_text script.now ticket (asked_moment script.now ticket)) }
{
    let word = ticket_word(script, ticket);
    let moment = asked_moment(script, ticket);
    let file = ticket_file(alloc, script, ticket)?;
    format!(in alloc; "{word} {ticket} {moment} {file}\n")
}

// Adds the entry's line, where it has one.
fn add_line(
    alloc: Global,
    text: &mut String,
    entry: &Entry,
    script: &Script,
) -> Result<(), AllocError>
    requires { HasDone script.now entry.now }
    ensures { OnOk result (string_bytes text.new ≡ string_bytes text.old ++ lines_text script.now (line_of script.now entry.now)) }
{
    match *entry {
        Entry::Published {
            pipe,
            worker: _,
            moment,
        } => {
            let line = pipe_text(alloc, pipe, moment)?;
            text.push_str(line.as_str())
        }
        Entry::TicketDone { ticket, worker: _ } => {
            let line = ticket_text(alloc, script, ticket)?;
            text.push_str(line.as_str())
        }
        _ => Ok(()),
    }
}

fn lines_text(alloc: Global, journal: &[Entry], script: &Script) -> Result<String, AllocError>
    requires { All (HasDone script.now) journal.now }
    ensures { IfOk result (λ t. string_bytes t ≡ lines_text script.now (lines script.now journal.now)) }
{
    let mut text = String::new(alloc);
    for entry in journal {
        add_line(alloc, &mut text, entry, script)?;
    }
    Ok(text)
}

fn has_line(entry: &Entry) -> bool
    ensures { result ≡ has_line entry.now }
{
    match *entry {
        Entry::Published { .. } | Entry::TicketDone { .. } => true,
        _ => false,
    }
}

fn count_lines(journal: &[Entry]) -> usize
    ensures { result ≡ count_by has_line journal.now }
{
    journal.iter().filter(|entry| has_line(entry)).count()
}

fn end_line(alloc: Global, journal: &[Entry]) -> Result<String, AllocError>
    ensures { IfOk result (λ t. string_bytes t ≡ end_line (count_by has_line journal.now)) }
{
    let count = count_lines(journal);
    format!(in alloc; "end {count}\n")
}

/// The bytes of the manifest: for each published pipe and each ticket that is done, in the journal's
/// order, what was made, its moment and its file, and last `end` with the number of lines.
#[tactic(auto, using(crate::proofs::LineLemmas::count_is_length))]
pub fn manifest(alloc: Global, journal: &[Entry], script: &Script) -> Result<Vec<u8>, AllocError>
    requires { All (HasDone script.now) journal.now }
    ensures { IfOk result (λ b. b.items ≡ manifest_of script.now (lines script.now journal.now)) }
{
    let mut text = lines_text(alloc, journal, script)?;
    let end = end_line(alloc, journal)?;
    text.push_str(end.as_str())?;
    Ok(text.into_bytes())
}
