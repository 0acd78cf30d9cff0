use crate::fault::RowsEnd;
use std::alloc::Global;

/// A row of the table: the text of each of its columns.
#[derive(Clone, Copy)]
pub(crate) struct Row<'a> {
    pub(crate) title: &'a str,
    pub(crate) words: &'a str,
    pub(crate) files: &'a str,
    pub(crate) failing: &'a str,
    pub(crate) shown: &'a str,
}

impl<'a> Row<'a> {
    /// The row of a line that begins with `|`. Another line is no row, and one with another number of columns a fault.
    pub(crate) fn of(alloc: Global, line: &'a str) -> Result<Option<Row<'a>>, RowsEnd> {
        let columns: Vec<&str> = line.split('|').map(|column| column.trim()).collect(alloc)?;
        match columns.as_slice() {
            ["", title, words, files, failing, shown, ""] => Ok(Some(Row {
                title,
                words,
                files,
                failing,
                shown,
            })),
            ["", ..] => Err(RowsEnd::Form),
            _ => Ok(None),
        }
    }
}
