//! The input files of a command: each read, judged and answered in the words of a status.
ghost use Rattle.std.specs.Prelude.{◌≡◌, ℕ, ◌≤◌, List, length, IfOk, IfErr, IfSome};
ghost use Rattle.px.specs.Cut.{IsWhole, picture_of};
ghost use Rattle.outside.specs.Faults.{Rose, NoneFalls};
ghost use Rattle.publish.specs.Files.{RoseAt};
ghost use Rattle.develop_session.specs.Files.{HasScript, HasSource, HasEvents};
ghost use Rattle.develop_session.specs.Failures.{ScriptFails, SourceFails, InputFails, EventsFail};

use crate::devices::read_file;
use crate::status::Status;
use edit_steps::{Script, ScriptEnd};
use events::{Event, EventsEnd};
use json_form::LONGEST;
use outside::Shelf;
use pnm::PnmEnd;
use px::{Cfa, Plane};
use std::alloc::Global;

/// How many bytes of a script or a list of events are read: one more than its text has at most.
const TEXT_FRONT: usize = LONGEST + 1;

/// How many bytes of a source are looked at.
pub(crate) const SOURCE_FRONT: usize = 268_435_456;

/// The script under a name.
pub(crate) fn read_script<S: Shelf>(
    alloc: Global,
    shelf: &mut S,
    name: &str,
) -> Result<Script, Status>
    ensures script { IfOk result (λ s. IfSome (S.files shelf.old) (λ fs. HasScript name.now fs s)) }
    ensures cause { IfErr result (ScriptFails name.now (S.files shelf.old) (Rose (S.read_faults shelf.old name.now) (S.read_faults shelf.new name.now))) }
    ensures unchanged { S.files shelf.new ≡ S.files shelf.old }
    ensures reads { NoneFalls (S.read_faults shelf.old) (S.read_faults shelf.new) }
    ensures puts { NoneFalls (S.put_faults shelf.old) (S.put_faults shelf.new) }
{
    let bytes = read_file(alloc, shelf, name, TEXT_FRONT)?;
    match edit_script::read(alloc, bytes.as_slice()) {
        Ok(script) => Ok(script),
        Err(ScriptEnd::Fault(fault)) => Err(Status::ScriptRefused {
            step: fault.step,
            reason: fault.reason,
        }),
        Err(ScriptEnd::Memory) => Err(Status::OutOfMemory),
    }
}

/// The picture under a name, read by the colour filter array of the script.
pub(crate) fn read_source<S: Shelf>(
    alloc: Global,
    shelf: &mut S,
    name: &str,
    front: usize,
    cfa: Option<Cfa>,
) -> Result<Plane, Status>
    requires front { front ≡ 268435456 }
    ensures source { IfOk result (λ p. IfSome (S.files shelf.old) (λ fs. HasSource name.now cfa fs (picture_of p))) }
    ensures whole { IfOk result (λ p. IsWhole p) }
    ensures cause { IfErr result (SourceFails name.now cfa (S.files shelf.old) (Rose (S.read_faults shelf.old name.now) (S.read_faults shelf.new name.now))) }
    ensures unchanged { S.files shelf.new ≡ S.files shelf.old }
    ensures reads { NoneFalls (S.read_faults shelf.old) (S.read_faults shelf.new) }
    ensures puts { NoneFalls (S.put_faults shelf.old) (S.put_faults shelf.new) }
{
    let bytes = read_file(alloc, shelf, name, front)?;
    match pnm::read(alloc, bytes.as_slice(), cfa) {
        Ok(plane) => Ok(plane),
        Err(PnmEnd::Fault(fault)) => Err(Status::SourceRefused { fault }),
        Err(PnmEnd::Memory) => Err(Status::OutOfMemory),
    }
}

/// The script and the picture under two names.
pub(crate) fn read_inputs<S: Shelf>(
    alloc: Global,
    shelf: &mut S,
    script: &str,
    source: &str,
) -> Result<(Script, Plane), Status>
    ensures script { IfOk result (λ r. IfSome (S.files shelf.old) (λ fs. HasScript script.now fs r.0)) }
    ensures source { IfOk result (λ r. IfSome (S.files shelf.old) (λ fs. HasSource source.now r.0.settings.cfa fs (picture_of r.1))) }
    ensures whole { IfOk result (λ r. IsWhole r.1) }
    ensures cause { IfErr result (InputFails script.now source.now (S.files shelf.old) (RoseAt (S.read_faults shelf.old) (S.read_faults shelf.new))) }
    ensures unchanged { S.files shelf.new ≡ S.files shelf.old }
    ensures reads { NoneFalls (S.read_faults shelf.old) (S.read_faults shelf.new) }
    ensures puts { NoneFalls (S.put_faults shelf.old) (S.put_faults shelf.new) }
{
    let script = read_script(alloc, shelf, script)?;
    let cfa = script.settings().cfa;
    let plane = read_source(alloc, shelf, source, SOURCE_FRONT, cfa)?;
    Ok((script, plane))
}

/// The events under a name.
pub(crate) fn read_events<S: Shelf>(
    alloc: Global,
    shelf: &mut S,
    name: &str,
) -> Result<Vec<Event>, Status>
    ensures events { IfOk result (λ es. IfSome (S.files shelf.old) (λ fs. HasEvents name.now fs es.items)) }
    ensures few { IfOk result (λ es. length es.items ≤ 65536) }
    ensures cause { IfErr result (EventsFail name.now (S.files shelf.old) (Rose (S.read_faults shelf.old name.now) (S.read_faults shelf.new name.now))) }
    ensures unchanged { S.files shelf.new ≡ S.files shelf.old }
    ensures reads { NoneFalls (S.read_faults shelf.old) (S.read_faults shelf.new) }
    ensures puts { NoneFalls (S.put_faults shelf.old) (S.put_faults shelf.new) }
{
    let bytes = read_file(alloc, shelf, name, TEXT_FRONT)?;
    match events::read_events(alloc, bytes.as_slice()) {
        Ok(events) => Ok(events),
        Err(EventsEnd::Fault(fault)) => Err(Status::EventsRefused {
            place: fault.place,
            reason: fault.reason,
        }),
        Err(EventsEnd::Memory) => Err(Status::OutOfMemory),
    }
}
