//! A whole session, from its subject to its desk.
ghost use Rattle.std.specs.Prelude.{◌≡◌, IfOk};
ghost use Rattle.std.specs.Arc.{arc_value};
ghost use Rattle.journal.specs.Desk.{Legal, IsComplete};

use crate::beginning::begin;
use crate::ending::close_desk;
use crate::shared::Shared;
use crate::threads::run_threads;
use dev_core::{DeskState, Subject};
use outside::Gate;
use std::alloc::{AllocError, Global};
use std::sync::{Arc, Wait};
use std::thread::Threads;

/// A session of the subject in threads: an editor, which makes the script's steps, and so many workers as the settings
/// say. The desk that comes out is closed and complete. `Err`: memory ran out in some thread.
pub fn run_desk<R: Wait + Threads + Sync, G: Gate + Sync>(
    rt: &R,
    alloc: Global,
    subject: &Arc<Subject>,
    gate: &G,
) -> Result<DeskState, AllocError>
    ensures subject { IfOk result (λ d. d.subject ≡ arc_value subject.now) }
    ensures legal { IfOk result (λ d. Legal d.subject.script d.journal) }
    ensures complete { IfOk result (λ d. IsComplete d.subject.script d.journal) }
{
    let (shared, workers, editor) = begin(alloc, subject)?;
    let (served, edited) = run_threads(rt, alloc, &shared, gate, workers, editor);
    let Some(served) = served else {
        return Err(AllocError);
    };
    let Shared {
        desk,
        stage: _,
        mips: _,
        close: _,
    } = shared;
    close_desk(alloc, desk, served, edited)
}
