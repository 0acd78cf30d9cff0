use crate::fault::RowsEnd;
use crate::pieces::{joined, quoted_bytes};
use std::alloc::Global;
use std::collections::BTreeMap;

/// The values that rows name, each with its bytes.
#[derive(Drop)]
pub(crate) struct Values {
    named: BTreeMap<String, Vec<u8>>,
}

impl Values {
    pub(crate) fn new(alloc: Global) -> Values {
        Values {
            named: BTreeMap::new(alloc),
        }
    }

    /// The bytes of the value with this name.
    pub(crate) fn find(&self, name: &str) -> Result<&[u8], RowsEnd> {
        match self.named.get(name) {
            Some(bytes) => Ok(bytes.as_slice()),
            None => Err(RowsEnd::Form),
        }
    }

    /// Names a value: a quoted text, or pieces of the values so far.
    pub(crate) fn add(&mut self, alloc: Global, name: &str, value: &str) -> Result<(), RowsEnd> {
        let bytes = match quoted(value) {
            Some(text) => quoted_bytes(alloc, text)?,
            None => joined(alloc, self, value)?,
        };
        let name = String::from_str(alloc, name.trim())?;
        self.named.insert(name, bytes)?;
        Ok(())
    }
}

// The text between quotes, where the value is quoted.
fn quoted(value: &str) -> Option<&str> {
    value.trim().strip_prefix('\'')?.strip_suffix('\'')
}
