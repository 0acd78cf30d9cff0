//! One call of the shelf or the output each, answered in the words of a status.
ghost use Rattle.std.specs.Prelude.{◌≡◌, ℕ, ◌<◌, ◌≤◌, List, take, IfOk, IfErr, IfSome, OnOk, IsErrOf, Some, vec_len, string_bytes};
ghost use Rattle.std.specs.Option.{option_map};
ghost use Rattle.outside.specs.Faults.{Rose, NoneFalls};
ghost use Rattle.outside.specs.Shelf.{held, Puts, PutsInPart};
ghost use Rattle.outside.specs.Said.{Says, SaysInPart};
ghost use Rattle.develop_session.specs.Failures.{FailsAt, failed_status, PutFailsAt, SaysLine, Tells};
ghost use Rattle.develop_session.specs.Texts.{refusal_text};

use crate::status::{Status, refusal_line};
use outside::{Failed, Name, Said, Shelf, read_front};
use publish::PutEnd;
use std::alloc::Global;

// What a failed call of the shelf at this name answers: a fault always tells the name.
fn failed_at(failed: Failed, name: Name) -> Status
    ensures { result ≡ failed_status name failed }
{
    match failed {
        Failed::Fault => Status::ShelfFault { name },
        Failed::Memory => Status::OutOfMemory,
    }
}

// The front of an input file. The name of a fault is made first, so that out of memory never hides a fault.
pub(crate) fn read_file<S: Shelf>(
    alloc: Global,
    shelf: &mut S,
    name: &str,
    limit: usize,
) -> Result<Vec<u8>, Status>
    requires { 0 < limit }
    ensures content { IfOk result (λ v. IfSome (S.files shelf.old) (λ fs. option_map (take limit) (held fs name.now) ≡ Some v.items)) }
    ensures cause { IfErr result (FailsAt name.now (Rose (S.read_faults shelf.old name.now) (S.read_faults shelf.new name.now))) }
    ensures memory { IsErrOf result Status.OutOfMemory → S.read_faults shelf.new name.now ≡ S.read_faults shelf.old name.now }
    ensures unchanged { S.files shelf.new ≡ S.files shelf.old }
    ensures reads { NoneFalls (S.read_faults shelf.old) (S.read_faults shelf.new) }
    ensures puts { NoneFalls (S.put_faults shelf.old) (S.put_faults shelf.new) }
{
    let Ok(at) = Name::of(alloc, name) else {
        return Err(Status::OutOfMemory);
    };
    match read_front(alloc, shelf, name, limit) {
        Ok(bytes) => Ok(bytes),
        Err(failed) => Err(failed_at(failed, at)),
    }
}

// Puts the bytes of a file.
pub(crate) fn put_file<S: Shelf>(
    alloc: Global,
    shelf: &mut S,
    name: &str,
    bytes: &[u8],
) -> Result<(), Status>
    ensures ok { OnOk result (Puts name.now bytes.now (S.files shelf.old) (S.files shelf.new)) }
    ensures cause { IfErr result (PutFailsAt name.now bytes.now (Rose (S.put_faults shelf.old name.now) (S.put_faults shelf.new name.now)) (S.files shelf.old) (S.files shelf.new)) }
    ensures reads { NoneFalls (S.read_faults shelf.old) (S.read_faults shelf.new) }
    ensures puts { NoneFalls (S.put_faults shelf.old) (S.put_faults shelf.new) }
{
    match publish::put_file(alloc, shelf, name, bytes) {
        Ok(()) => Ok(()),
        Err(PutEnd::Fault { name }) => Err(Status::ShelfFault { name }),
        Err(PutEnd::Memory) => Err(Status::OutOfMemory),
    }
}

// Says the line of a refusal, whatever comes of it.
pub(crate) fn tell<O: Said>(alloc: Global, said: &mut O, status: &Status)
    ensures told { Tells (refusal_text status.now) (Rose (O.faults said.old) (O.faults said.new)) (O.said said.old) (O.said said.new) }
    ensures never_falls { O.faults said.old ≤ O.faults said.new }
{
    if let Ok(line) = refusal_line(alloc, status) {
        let _ = said.say(line.as_bytes());
    }
}

// Says the line of a command that did its work.
pub(crate) fn say_line<O: Said>(said: &mut O, line: &str) -> Status
    ensures { SaysLine line.now (Rose (O.faults said.old) (O.faults said.new)) (O.said said.old) (O.said said.new) result }
{
    match said.say(line.as_bytes()) {
        Ok(()) => Status::Ok,
        Err(Failed::Fault) => Status::SaidFault,
        Err(Failed::Memory) => Status::OutOfMemory,
    }
}
