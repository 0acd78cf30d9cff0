//! The end of a session.
ghost use Rattle.std.specs.Prelude.{◌≡◌, true, map, IfOk};
ghost use Rattle.std.specs.List.{All};
ghost use Rattle.journal.specs.Desk.{Legal, IsComplete};
ghost use Rattle.session.specs.Finished.{Served, HaveServed};

use desk::{DeskPass, SharedDesk};
use dev_core::DeskState;
use std::alloc::{AllocError, Global};

// The passes that were given back, where each thread did all. A thread that didn't found too little memory, or that
// another thread had.
fn passes_of(alloc: Global, served: Vec<(DeskPass, bool)>) -> Result<Vec<DeskPass>, AllocError>
    ensures passes { IfOk result (λ v. v.items ≡ map (λ r. r.0) served.items) }
    ensures done { IfOk result (λ v. All (λ r. r.1 ≡ true) served.items) }
{
    let mut passes = Vec::new(alloc);
    for (pass, done) in served {
        if !done {
            return Err(AllocError);
        }
        passes.push(pass)?;
    }
    Ok(passes)
}

/// Closes the desk, where the editor and each worker did all: the desk is then complete.
pub(crate) fn close_desk(
    alloc: Global,
    desk: SharedDesk,
    served: Vec<(DeskPass, bool)>,
    edited: (DeskPass, bool),
) -> Result<DeskState, AllocError>
    requires workers { HaveServed desk served.items }
    requires editor { Served desk 0 edited }
    ensures subject { IfOk result (λ d. d.subject ≡ desk.name) }
    ensures legal { IfOk result (λ d. Legal d.subject.script d.journal) }
    ensures complete { IfOk result (λ d. IsComplete d.subject.script d.journal) }
{
    let mut served = served;
    served.push(edited)?;
    let passes = passes_of(alloc, served)?;
    Ok(desk.close(passes))
}
