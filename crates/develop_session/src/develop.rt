//! `develop`: one picture of one history, from bytes to bytes.
ghost use Rattle.std.specs.Prelude.{◌≡◌, IfOk, IfErr, IfSome};
ghost use Rattle.px.specs.Cut.{picture_of};
ghost use Rattle.outside.specs.Faults.{Rose, NoneFalls};
ghost use Rattle.publish.specs.Files.{RoseAt};
ghost use Rattle.develop_session.specs.Develop.{developed, out_bytes, IsMade};
ghost use Rattle.develop_session.specs.Failures.{SaysLine, SourceFails};
ghost use Rattle.develop_session.specs.Answers.{Answers, Develops, Refuses};
ghost use Rattle.develop_session.specs.Names.{command};
ghost use Rattle.develop_session.specs.Texts.{developed_text};
ghost use Rattle.develop_session.specs.Words.{Command};

use crate::command::Names;
use crate::devices::{put_file, read_file, say_line, tell};
use crate::inputs::{SOURCE_FRONT, read_script};
use crate::status::Status;
use edit_steps::Script;
use outside::{Said, Shelf};
use pipe_nodes::developed_bytes;
use pnm::{Raster, raster_of};
use std::alloc::{AllocError, Global};
use std::thread::Threads;

// The sides and the written bytes of the picture as the whole script develops it.
fn develop_bytes<R: Threads + Sync>(
    rt: &R,
    alloc: Global,
    script: &Script,
    raster: &Raster<'_>,
) -> Result<(u32, u32, Vec<u8>), AllocError>
    ensures wide { IfOk result (λ made. made.0 ≡ (developed script.now (picture_of raster.now)).w) }
    ensures high { IfOk result (λ made. made.1 ≡ (developed script.now (picture_of raster.now)).h) }
    ensures bytes { IfOk result (λ made. made.2.items ≡ out_bytes script.now (picture_of raster.now)) }
{
    let history = script.history_at(alloc, script.changes())?;
    developed_bytes(rt, alloc, raster, &history, script.settings().depth)
}

// Reads the source and develops it by the script. Its values are decoded from the bytes that were read.
fn develop_source<R: Threads + Sync, S: Shelf>(
    rt: &R,
    alloc: Global,
    shelf: &mut S,
    script: &Script,
    name: &str,
    front: usize,
) -> Result<(u32, u32, Vec<u8>), Status>
    requires front { front ≡ 268435456 }
    ensures made { IfOk result (λ made. IfSome (S.files shelf.old) (IsMade script.now name.now made.0 made.1 made.2.items)) }
    ensures cause { IfErr result (SourceFails name.now script.now.settings.cfa (S.files shelf.old) (Rose (S.read_faults shelf.old name.now) (S.read_faults shelf.new name.now))) }
    ensures unchanged { S.files shelf.new ≡ S.files shelf.old }
    ensures reads { NoneFalls (S.read_faults shelf.old) (S.read_faults shelf.new) }
    ensures puts { NoneFalls (S.put_faults shelf.old) (S.put_faults shelf.new) }
{
    let bytes = read_file(alloc, shelf, name, front)?;
    match raster_of(bytes.as_slice(), script.settings().cfa) {
        Ok(raster) => Ok(develop_bytes(rt, alloc, script, &raster)?),
        Err(fault) => Err(Status::SourceRefused { fault }),
    }
}

// Reads, develops and puts; the sides of the picture.
fn develop<R: Threads + Sync, S: Shelf>(
    rt: &R,
    alloc: Global,
    names: Names<'_>,
    shelf: &mut S,
) -> Result<(u32, u32), Status>
    ensures ok { IfOk result (λ sides. Develops (command names.entry) (S.files shelf.old) (S.files shelf.new) sides.0 sides.1) }
    ensures cause { IfErr result (Refuses (command names.entry) (S.files shelf.old) (S.files shelf.new) (RoseAt (S.read_faults shelf.old) (S.read_faults shelf.new)) (RoseAt (S.put_faults shelf.old) (S.put_faults shelf.new))) }
{
    let script = read_script(alloc, shelf, names.script)?;
    let (w, h, bytes) = develop_source(rt, alloc, shelf, &script, names.source, SOURCE_FRONT)?;
    put_file(alloc, shelf, names.out, bytes.as_slice())?;
    Ok((w, h))
}

// Says the line of a developed picture.
fn say_developed<O: Said>(alloc: Global, said: &mut O, w: u32, h: u32) -> Status
    ensures { SaysLine (developed_text w h) (Rose (O.faults said.old) (O.faults said.new)) (O.said said.old) (O.said said.new) result }
{
    match format!(in alloc; "developed {w} {h}\n") {
        Ok(line) => say_line(said, line.as_str()),
        Err(_) => Status::OutOfMemory,
    }
}

/// Develops the picture SOURCE by the script SCRIPT, puts the written bytes at OUT and says the sides.
pub fn develop_once<R: Threads + Sync, S: Shelf, O: Said>(
    rt: &R,
    alloc: Global,
    script: &str,
    source: &str,
    out: &str,
    shelf: &mut S,
    said: &mut O,
) -> Status
    ensures { let c : Command = record { script = script.now; source = source.now; out = out.now } in
        Answers c (S.files shelf.old) (S.files shelf.new) (RoseAt (S.read_faults shelf.old) (S.read_faults shelf.new)) (RoseAt (S.put_faults shelf.old) (S.put_faults shelf.new))
        (Rose (O.faults said.old) (O.faults said.new)) (O.said said.old) (O.said said.new) result }
{
    match develop(
        rt,
        alloc,
        Names {
            script,
            source,
            out,
        },
        shelf,
    ) {
        Ok((w, h)) => say_developed(alloc, said, w, h),
        Err(status) => {
            tell(alloc, said, &status);
            status
        }
    }
}
