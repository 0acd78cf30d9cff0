//! Runs each row of the table `rows.txt`: a command over files and an output in memory, some of whose
//! calls fail. It prints the status, what was said and the files that the row asks for, and the gate
//! compares that with the answers that were worked out by hand.
//!
//! A line of the table is a row, a value or a comment, which begins with `#`.
//! - `| TITLE | WORDS | FILES | FAILING | SHOWN |` is a row. A file is `NAME=PIECES`. What fails is
//!   `reads=2,3`, `puts=1` or `says=1`, each with the numbers of the calls, counted from 1; and `chunk=7`
//!   is how many bytes a read gives at most. `SHOWN` names the files that are printed.
//! - `NAME = 'TEXT'` is a value: the text as it stands, with `\n`, `\r`, `\t` and `\\`.
//! - `NAME = PIECES` is one too: pieces with `+` between them. A piece is `0x` and bytes in hexadecimal,
//!   or the name of a value above; with `257*` in front of it, it stands 257 times.
#![tactic(auto)]

mod failing;
mod fault;
mod notation;
mod pieces;
mod played;
mod row;
mod values;

use anyhow::{Context, Result};
use fault::RowsEnd;
use played::{play, shown};
use row::Row;
use std::fs;
use std::sync::Wait;
use std::thread::Threads;
use values::Values;

// What one line of the table prints, if it is a row. A value is kept for the lines that follow.
fn answer<R: Wait + Threads + Sync + AllocGlobal>(
    rt: &R,
    values: &mut Values,
    line: &str,
) -> Result<Option<String>, RowsEnd> {
    let alloc = rt.alloc();
    if line.is_empty() || line.starts_with('#') {
        return Ok(None);
    }
    if let Some(row) = Row::of(alloc, line)? {
        let played = play(rt, alloc, values, &row)?;
        return Ok(Some(shown(alloc, &row, &played)?));
    }
    let (name, value) = line.split_once(" = ").ok_or(RowsEnd::Form)?;
    values.add(alloc, name, value)?;
    Ok(None)
}

fn main(rt: HostRuntime) -> Result<()> {
    let table = fs::read_to_string(&rt, "rows.txt")?;
    let mut values = Values::new(rt.alloc());
    for line in table.lines() {
        let text = answer(&rt, &mut values, line).context(format_args!("the line {line:?}"))?;
        if let Some(text) = text {
            rt.print(text)?;
        }
    }
    Ok(())
}
