use crate::failing::{Failing, failing_of};
use crate::fault::RowsEnd;
use crate::notation::write_bytes;
use crate::pieces::joined;
use crate::row::Row;
use crate::values::Values;
use develop_session::run_words;
use outside::{MemorySaid, MemoryShelf, OpenGate};
use std::alloc::{AllocError, Global};
use std::fmt::Write;
use std::sync::Wait;
use std::thread::Threads;

/// What a command left: its status, what was said, and the files.
#[derive(Drop)]
pub(crate) struct Played {
    code: u8,
    said: MemorySaid,
    shelf: MemoryShelf,
}

// The words of a command.
fn words_of(alloc: Global, column: &str) -> Result<Vec<String>, AllocError> {
    let mut words = Vec::new(alloc);
    for word in column.split_whitespace() {
        words.push(String::from_str(alloc, word)?)?;
    }
    Ok(words)
}

// Places the files of a row.
fn place_all(
    alloc: Global,
    values: &Values,
    column: &str,
    shelf: &mut MemoryShelf,
) -> Result<(), RowsEnd> {
    for file in column.split_whitespace() {
        let (name, pieces) = file.split_once('=').ok_or(RowsEnd::Form)?;
        shelf.place(name, joined(alloc, values, pieces)?.as_slice())?;
    }
    Ok(())
}

/// Runs the command of a row over its files.
pub(crate) fn play<R: Wait + Threads + Sync>(
    rt: &R,
    alloc: Global,
    values: &Values,
    row: &Row<'_>,
) -> Result<Played, RowsEnd> {
    let Failing {
        reads,
        puts,
        says,
        chunk,
    } = failing_of(alloc, row.failing)?;
    if chunk == 0 {
        return Err(RowsEnd::Form);
    }
    let mut shelf = MemoryShelf::new(alloc, chunk, reads, puts);
    place_all(alloc, values, row.files, &mut shelf)?;
    let words = words_of(alloc, row.words)?;
    let mut said = MemorySaid::new(alloc, says);
    let status = run_words(
        rt,
        alloc,
        words.as_slice(),
        &mut shelf,
        &mut said,
        &OpenGate,
    );
    let code = status.code();
    Ok(Played { code, said, shelf })
}

// Writes the name of a file and what stands there.
fn write_file(
    text: &mut String,
    alloc: Global,
    shelf: &MemoryShelf,
    name: &str,
) -> Result<(), AllocError> {
    match shelf.get(name) {
        Some(bytes) => {
            write!(text, "  {name} ")?;
            write_bytes(text, alloc, bytes)?;
            text.push('\n')
        }
        None => write!(text, "  {name} absent\n"),
    }
}

/// What is printed of a row.
pub(crate) fn shown(alloc: Global, row: &Row<'_>, played: &Played) -> Result<String, AllocError> {
    let title = row.title;
    let code = played.code;
    let mut text = format!(in alloc; "{title}\n  status {code}\n  said ")?;
    write_bytes(&mut text, alloc, played.said.bytes())?;
    text.push('\n')?;
    for name in row.shown.split_whitespace() {
        write_file(&mut text, alloc, &played.shelf, name)?;
    }
    Ok(text)
}
