//! A new file beside another one, to be filled and then renamed.
ghost use Rattle.std.specs.Prelude.{◌<◌};

use arrayvec::ArrayString;
use std::fmt::Write;
use std::fs::File;
use std::io::ErrorKind;
use std::rt::Files;
use std::{fmt, io};

/// How many bytes a path of the machine has at most.
const LONGEST: usize = 4096;

/// How many names are tried, where files of killed runs lie about.
const MOST: u8 = 100;

/// The path of a file beside another one. It takes no memory of the heap.
pub(crate) type BesidePath = ArrayString<LONGEST>;

/// Makes a new file in the folder of `name`, of a name that nothing there has.
pub(crate) fn create_beside<R: Files>(rt: &R, name: &str) -> io::Result<(BesidePath, R::File)> {
    for number in 0..MOST {
        let Ok(path) = beside_path(name, number) else {
            return Err(io::Error::from(ErrorKind::InvalidFilename));
        };
        match File::create_new(rt, path.as_str()) {
            Ok(file) => return Ok((path, file)),
            Err(e) if e.kind() == ErrorKind::AlreadyExists => {}
            Err(e) => return Err(e),
        }
    }
    Err(io::Error::from(ErrorKind::AlreadyExists))
}

/// The path in the folder of `name` with this number.
fn beside_path(name: &str, number: u8) -> Result<BesidePath, fmt::Error> {
    let mut path = ArrayString::new();
    match name.rsplit_once('/') {
        Some((folder, _)) => write!(path, "{folder}/.devcore-{number}.part")?,
        None => write!(path, ".devcore-{number}.part")?,
    }
    Ok(path)
}
