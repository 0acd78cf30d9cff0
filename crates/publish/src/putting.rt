//! The puts of a session: each file in the journal's order, and last the manifest.
ghost use Rattle.std.specs.Prelude.{◌≡◌, List, map, IfErr, OnOk, IfOk, string_bytes};
ghost use Rattle.std.specs.List.{All};
ghost use Rattle.outside.specs.Faults.{NoneFalls};
ghost use Rattle.outside.specs.Shelf.{Puts};
ghost use Rattle.dev_core.specs.Subject.{shown};
ghost use Rattle.journal.specs.Lines.{lines};
ghost use Rattle.dev_core.specs.Lines.{frames_of};
ghost use Rattle.publish.specs.Names.{job_file, manifest_file, HasJob, HasDone};
ghost use Rattle.publish.specs.Manifest.{manifest_of};
ghost use Rattle.publish.specs.Files.{ArePut, AreCutShort, PutFails, RoseAt, desk_files, frame_put, manifest_put};

use crate::listing::manifest;
use crate::names::{MANIFEST, job_file};
use crate::put_end::PutEnd;
use dev_core::{DeskState, Frame};
use edit_steps::Script;
use journal::Entry;
use outside::{Failed, Name, Shelf};
use std::alloc::Global;

/// Puts the bytes of one file. The name of a fault is made first, so that want of memory changes nothing.
pub fn put_file<S: Shelf>(
    alloc: Global,
    shelf: &mut S,
    name: &str,
    bytes: &[u8],
) -> Result<(), PutEnd>
    ensures ok { OnOk result (Puts name.now bytes.now (S.files shelf.old) (S.files shelf.new)) }
    ensures cause { IfErr result (PutFails (name.now, bytes.now) (RoseAt (S.put_faults shelf.old) (S.put_faults shelf.new)) (S.files shelf.old) (S.files shelf.new)) }
    ensures reads { NoneFalls (S.read_faults shelf.old) (S.read_faults shelf.new) }
    ensures puts { NoneFalls (S.put_faults shelf.old) (S.put_faults shelf.new) }
{
    let Ok(at) = Name::of(alloc, name) else {
        return Err(PutEnd::Memory);
    };
    match shelf.put(name, bytes) {
        Ok(()) => Ok(()),
        Err(Failed::Fault) => Err(PutEnd::Fault { name: at }),
        Err(Failed::Memory) => Err(PutEnd::Memory),
    }
}

// Puts the file of a frame.
fn put_frame<S: Shelf>(
    alloc: Global,
    shelf: &mut S,
    script: &Script,
    frame: &Frame,
) -> Result<(), PutEnd>
    requires { HasJob script.now frame.now.name }
    ensures ok { OnOk result (Puts (frame_put script.now frame.now).0 (frame_put script.now frame.now).1 (S.files shelf.old) (S.files shelf.new)) }
    ensures cause { IfErr result (PutFails (frame_put script.now frame.now) (RoseAt (S.put_faults shelf.old) (S.put_faults shelf.new)) (S.files shelf.old) (S.files shelf.new)) }
    ensures reads { NoneFalls (S.read_faults shelf.old) (S.read_faults shelf.new) }
    ensures puts { NoneFalls (S.put_faults shelf.old) (S.put_faults shelf.new) }
{
    let name = job_file(alloc, script, frame.name(), frame.moment())?;
    put_file(alloc, shelf, name.as_str(), frame.bytes())
}

// Puts the files of frames, one after the other.
fn put_frames<S: Shelf>(
    alloc: Global,
    shelf: &mut S,
    script: &Script,
    frames: &[Frame],
) -> Result<(), PutEnd>
    requires { All (λ f. HasJob script.now f.name) frames.now }
    ensures ok { OnOk result (ArePut (map (frame_put script.now) frames.now) (S.files shelf.old) (S.files shelf.new)) }
    ensures cause { IfErr result (AreCutShort (map (frame_put script.now) frames.now) (RoseAt (S.put_faults shelf.old) (S.put_faults shelf.new)) (S.files shelf.old) (S.files shelf.new)) }
    ensures reads { NoneFalls (S.read_faults shelf.old) (S.read_faults shelf.new) }
    ensures puts { NoneFalls (S.put_faults shelf.old) (S.put_faults shelf.new) }
{
    for frame in frames {
        put_frame(alloc, shelf, script, frame)?;
    }
    Ok(())
}

// Puts the manifest of a journal.
fn put_manifest<S: Shelf>(
    alloc: Global,
    shelf: &mut S,
    script: &Script,
    journal: &[Entry],
) -> Result<(), PutEnd>
    requires { All (HasDone script.now) journal.now }
    ensures ok { OnOk result (Puts (manifest_put script.now journal.now).0 (manifest_put script.now journal.now).1 (S.files shelf.old) (S.files shelf.new)) }
    ensures cause { IfErr result (PutFails (manifest_put script.now journal.now) (RoseAt (S.put_faults shelf.old) (S.put_faults shelf.new)) (S.files shelf.old) (S.files shelf.new)) }
    ensures reads { NoneFalls (S.read_faults shelf.old) (S.read_faults shelf.new) }
    ensures puts { NoneFalls (S.put_faults shelf.old) (S.put_faults shelf.new) }
{
    let bytes = manifest(alloc, journal, script)?;
    put_file(alloc, shelf, MANIFEST, bytes.as_slice())
}

/// Puts a file for each job that was done, in the journal's order, and last the manifest. The first
/// failure ends it: the files before that one stand, and of the one that failed its old state or a
/// prefix of the new bytes.
pub fn write_all<S: Shelf>(alloc: Global, desk: &DeskState, shelf: &mut S) -> Result<(), PutEnd>
    ensures ok { OnOk result (ArePut (desk_files desk.now) (S.files shelf.old) (S.files shelf.new)) }
    ensures cause { IfErr result (AreCutShort (desk_files desk.now) (RoseAt (S.put_faults shelf.old) (S.put_faults shelf.new)) (S.files shelf.old) (S.files shelf.new)) }
    ensures reads { NoneFalls (S.read_faults shelf.old) (S.read_faults shelf.new) }
    ensures puts { NoneFalls (S.put_faults shelf.old) (S.put_faults shelf.new) }
{
    let script = desk.subject().script();
    let journal = desk.journal();
    put_frames(alloc, shelf, script, desk.frames())?;
    put_manifest(alloc, shelf, script, journal)
}
