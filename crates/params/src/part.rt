//! What the fields of a row hold.
ghost use Rattle.std.specs.Prelude.{◌≡◌, IfOk};
ghost use Rattle.params.specs.Seen.{seen, all_seen, stated, all_stated};

use std::alloc::{AllocError, Global};

pub(crate) type Three = (i64, i64, i64);

/// What a field holds: its numbers of any size, or its truth value.
#[derive(Clone, Copy)]
pub(crate) enum Numbers<'a> {
    One(i64),
    Three(Three),
    Nine((Three, Three, Three)),
    /// The nodes of a curve, of their type.
    Nodes(&'a [(u32, u32)]),
    /// The nodes of a curve, as they are stated.
    Pairs(&'a [(i64, i64)]),
    Flag(bool),
}

/// What a field was read to hold.
#[derive(Drop)]
pub(crate) enum Stated {
    Plain(Numbers<'static>),
    Pairs(Vec<(i64, i64)>),
}

impl Stated {
    fn numbers(&self) -> Numbers<'_>
        ensures { seen result ≡ stated self.now }
    {
        match self {
            Stated::Plain(numbers) => *numbers,
            Stated::Pairs(pairs) => Numbers::Pairs(pairs.as_slice()),
        }
    }
}

/// What fields were read to hold.
pub(crate) fn numbers_of(alloc: Global, all: &[Stated]) -> Result<Vec<Numbers<'_>>, AllocError>
    ensures { IfOk result (λ v. all_seen v.items ≡ all_stated all.now) }
{
    let mut parts = Vec::new(alloc);
    for each in all {
        parts.push(each.numbers())?;
    }
    Ok(parts)
}
