use crate::fault::RowsEnd;
use std::alloc::Global;

/// The numbers of the calls that fail, counted from 1, and how many bytes a read gives at most.
#[derive(Drop)]
pub(crate) struct Failing {
    pub(crate) reads: Vec<u64>,
    pub(crate) puts: Vec<u64>,
    pub(crate) says: Vec<u64>,
    pub(crate) chunk: usize,
}

// No call fails, and a read gives up to 65,536 bytes.
fn none(alloc: Global) -> Failing {
    Failing {
        reads: Vec::new(alloc),
        puts: Vec::new(alloc),
        says: Vec::new(alloc),
        chunk: 65_536,
    }
}

// The numbers of a list with `,` between them.
fn numbers(alloc: Global, list: &str) -> Result<Vec<u64>, RowsEnd> {
    let mut numbers = Vec::new(alloc);
    for digits in list.split(',') {
        match digits.parse::<u64>() {
            Ok(number) => numbers.push(number)?,
            Err(_) => return Err(RowsEnd::Form),
        }
    }
    Ok(numbers)
}

// How many bytes a read gives at most.
fn chunk_of(digits: &str) -> Result<usize, RowsEnd> {
    match digits.parse::<usize>() {
        Ok(chunk) => Ok(chunk),
        Err(_) => Err(RowsEnd::Form),
    }
}

/// What the column of a row says.
pub(crate) fn failing_of(alloc: Global, column: &str) -> Result<Failing, RowsEnd> {
    let mut failing = none(alloc);
    for word in column.split_whitespace() {
        match word.split_once('=') {
            Some(("reads", list)) => failing.reads = numbers(alloc, list)?,
            Some(("puts", list)) => failing.puts = numbers(alloc, list)?,
            Some(("says", list)) => failing.says = numbers(alloc, list)?,
            Some(("chunk", digits)) => failing.chunk = chunk_of(digits)?,
            _ => return Err(RowsEnd::Form),
        }
    }
    Ok(failing)
}
