//! The program: the develop core from the command line, over real files and standard output.
#![tactic(auto)]

ghost use Rattle.std.specs.Prelude.{◌≡◌, Ok};
ghost use Rattle.std.specs.IoError.{error_kind};
ghost use Rattle.std.specs.Process.{exit_status};
ghost use Rattle.develop_session.specs.Texts.{code_of};

use develop_session::{Status, run_words};
use outside::{HostSaid, HostShelf, OpenGate, Said};
use std::alloc::Global;
use std::io::ErrorKind;
use std::process::ExitCode;
use std::rt::{Env, Files};
use std::sync::Wait;
use std::thread::Threads;
use std::{env, io};

// The largest block that the C library keeps for later ones once it was given back: above the planes of bands and of views.
const KEPT_BLOCK: usize = 8 * 1024 * 1024;

// Takes a block and gives it back at once, without touching it. From then on the C library keeps blocks of up to that size for
// the next ones, where it would hand each one back to the system and ask for fresh pages: planes come and go all the time.
fn keep_blocks(alloc: Global) {
    let _ = Vec::<u8>::with_capacity(alloc, KEPT_BLOCK);
}

// The words after the program's name.
fn words<R: Env + AllocGlobal>(rt: &R) -> io::Result<Vec<String>> {
    let mut words = Vec::new(rt.alloc());
    for word in env::args(rt)?.skip(1) {
        words.push(word)?;
    }
    Ok(words)
}

// What words that can't be read end with: out of memory is a status, all else the runtime's own message.
fn unread(error: io::Error) -> io::Result<Status>
    ensures memory { error_kind error ≡ ErrorKind.OutOfMemory → result ≡ Ok Status.OutOfMemory }
{
    if error.kind() == ErrorKind::OutOfMemory {
        Ok(Status::OutOfMemory)
    } else {
        Err(error)
    }
}

// Runs the command that the words are over real files.
fn run<R: Env + Files + AllocGlobal + Wait + Threads + Sync, O: Said>(
    rt: &R,
    said: &mut O,
) -> io::Result<Status> {
    match words(rt) {
        Ok(words) => {
            let mut shelf = HostShelf::new(rt);
            let status = run_words(
                rt,
                rt.alloc(),
                words.as_slice(),
                &mut shelf,
                said,
                &OpenGate,
            );
            Ok(status)
        }
        Err(error) => {
            let status = unread(error)?;
            let _ = said.say("out of memory\n".as_bytes());
            Ok(status)
        }
    }
}

// The number that the process exits with.
fn exit_code(status: &Status) -> ExitCode
    ensures { exit_status result ≡ code_of status.now }
{
    ExitCode::from(status.code())
}

fn main(rt: HostRuntime) -> io::Result<ExitCode> {
    keep_blocks(rt.alloc());
    let mut said = HostSaid::new(rt.stdout());
    let status = run(&rt, &mut said)?;
    Ok(exit_code(&status))
}
