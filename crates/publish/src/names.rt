//! The names of the files that a session puts.
ghost use Rattle.std.specs.Prelude.{◌≡◌, IfOk, option_map, string_bytes};
ghost use Rattle.journal.specs.Pipes.{word_of};
ghost use Rattle.publish.specs.Names.{pipe_file, ask_word, ticket_word, ticket_file, job_file, name_of, HasTicket, HasJob, HasDone};

use edit_steps::{Script, Step};
use journal::{Entry, ask_of};
use outside::{JobName, Pipe};
use std::alloc::{AllocError, Global};

/// The name of the manifest's file.
pub(crate) const MANIFEST: &str = "manifest.txt";

pub(crate) fn pipe_word(pipe: Pipe) -> &'static str
    ensures { result.now ≡ word_of pipe }
{
    match pipe {
        Pipe::Full => "full",
        Pipe::Preview => "preview",
        Pipe::Second => "second",
    }
}

pub(crate) fn pipe_file(alloc: Global, pipe: Pipe, moment: u32) -> Result<String, AllocError>
    ensures { IfOk result (λ t. string_bytes t ≡ pipe_file pipe moment) }
{
    let word = pipe_word(pipe);
    format!(in alloc; "{word}-{moment}.ppm")
}

// The word of a step that asks for a picture.
fn ask_word(step: &Step) -> &'static str
    ensures { result.now ≡ ask_word step.now }
{
    match *step {
        Step::Export { .. } => "export",
        Step::Thumbnail { .. } => "thumbnail",
        _ => "",
    }
}

pub(crate) fn ticket_word(script: &Script, ticket: u32) -> &'static str
    requires { HasTicket script.now ticket }
    ensures { result.now ≡ ticket_word script.now ticket }
{
    match ask_of(script, ticket) {
        Some(ask) => ask_word(&ask.step),
        None => unreachable!(),
    }
}

pub(crate) fn ticket_file(alloc: Global, script: &Script, ticket: u32) -> Result<String, AllocError>
    requires { HasTicket script.now ticket }
    ensures { IfOk result (λ t. string_bytes t ≡ ticket_file script.now ticket) }
{
    let word = ticket_word(script, ticket);
    format!(in alloc; "{word}-{ticket}.ppm")
}

pub(crate) fn job_file(
    alloc: Global,
    script: &Script,
    job: JobName,
    moment: u32,
) -> Result<String, AllocError>
    requires { HasJob script.now job }
    ensures { IfOk result (λ t. string_bytes t ≡ job_file script.now job moment) }
{
    match job {
        JobName::Pipe(pipe) => pipe_file(alloc, pipe, moment),
        JobName::Ticket(ticket) => ticket_file(alloc, script, ticket),
    }
}

/// The name of the entry's file: `None` exactly where the entry is neither a published pipe nor a ticket
/// that is done.
pub fn file_name(
    alloc: Global,
    entry: &Entry,
    script: &Script,
) -> Result<Option<String>, AllocError>
    requires { HasDone script.now entry.now }
    ensures { IfOk result (λ n. option_map string_bytes n ≡ name_of script.now entry.now) }
{
    match *entry {
        Entry::Published {
            pipe,
            worker: _,
            moment,
        } => Ok(Some(pipe_file(alloc, pipe, moment)?)),
        Entry::TicketDone { ticket, worker: _ } => Ok(Some(ticket_file(alloc, script, ticket)?)),
        _ => Ok(None),
    }
}
