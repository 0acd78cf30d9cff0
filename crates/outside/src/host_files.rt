//! The files of the machine: one read, and one put that keeps the old file until all is written.
ghost use Rattle.std.specs.Prelude.{◌≤◌, length, IfOk, OnOk};
ghost use Rattle.outside.specs.Machine.{IsWritten, IsRead};

use crate::beside::create_beside;
use crate::write_whole::write_whole;
use std::fs::{File, OpenFile, OpenOptions, Permissions};
use std::io::{ErrorKind, Read, Seek, SeekFrom};
use std::rt::Files;
use std::{fs, io};

/// One read from the place `at` of a file.
pub(crate) fn read_file<R: Files>(rt: &R, name: &str, at: u64, buf: &mut [u8]) -> io::Result<usize>
    ensures fits { IfOk result (λ n. n ≤ length buf.new) }
    ensures read { IfOk result (λ n. IsRead R.File.stream_position R.File.remaining at n buf.new) }
{
    let mut file = File::open(rt, name)?;
    file.seek(SeekFrom::Start(at))?;
    file.read(buf)
}

/// Writes a file. A regular file and a new name get a file beside that is renamed, so a refusal
/// leaves what stood there; a link or a device is written in place.
pub(crate) fn write_file<R: Files>(rt: &R, name: &str, bytes: &[u8]) -> io::Result<()>
    ensures written { OnOk result (IsWritten R.File.contents bytes.now) }
{
    match fs::symlink_metadata(rt, name) {
        Ok(old) if old.is_file() => {
            let permissions = writable_permissions(rt, name)?;
            write_beside(rt, name, bytes, Some(permissions))
        }
        Ok(_) => write_in_place(rt, name, bytes),
        Err(e) if e.kind() == ErrorKind::NotFound => write_beside(rt, name, bytes, None),
        Err(e) => Err(e),
    }
}

/// The permissions of a file that may be written; else an error, as an open for writing gives.
fn writable_permissions<R: Files>(rt: &R, name: &str) -> io::Result<Permissions> {
    let file = OpenOptions::new().write(true).open(rt, name)?;
    Ok(file.metadata()?.permissions())
}

/// Writes over what stands there.
fn write_in_place<R: Files>(rt: &R, name: &str, bytes: &[u8]) -> io::Result<()>
    ensures written { OnOk result (IsWritten R.File.contents bytes.now) }
{
    let mut file = File::create(rt, name)?;
    write_whole(&mut file, bytes)
}

/// Writes a file beside `name` and renames it. On an error it is removed.
fn write_beside<R: Files>(
    rt: &R,
    name: &str,
    bytes: &[u8],
    old: Option<Permissions>,
) -> io::Result<()>
    ensures written { OnOk result (IsWritten R.File.contents bytes.now) }
{
    let (path, mut file) = create_beside(rt, name)?;
    let mut done = fill(&mut file, bytes, old);
    if done.is_ok() {
        done = fs::rename(rt, path.as_str(), name);
    }
    if done.is_err() {
        let _ = fs::remove_file(rt, path.as_str());
    }
    done
}

/// Writes the bytes to a new file. One that is to replace a file gets its permissions, and lies on
/// the disk before the old one goes.
fn fill<F: io::Write + OpenFile>(
    file: &mut F,
    bytes: &[u8],
    old: Option<Permissions>,
) -> io::Result<()>
    ensures written { OnOk result (IsWritten F.contents bytes.now) }
{
    write_whole(file, bytes)?;
    if let Some(permissions) = old {
        file.set_permissions(permissions)?;
        file.sync_all()?;
    }
    Ok(())
}
