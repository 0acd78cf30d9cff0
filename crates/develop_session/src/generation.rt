//! `generate`: the run that a number makes.
ghost use Rattle.std.specs.Prelude.{◌≡◌, IfOk, string_bytes};
ghost use Rattle.outside.specs.Faults.{Rose};
ghost use Rattle.develop_session.specs.Failures.{SaysLine};
ghost use Rattle.develop_session.specs.Generation.{generated_text, end_status, Produces};

use crate::devices::{say_line, tell};
use crate::status::Status;
use generator::{GenerateEnd, Generated};
use outside::Said;
use std::alloc::{AllocError, Global};
use std::thread::Threads;

// The line that is said of a run.
fn generated_line(alloc: Global, n: u32, made: Generated) -> Result<String, AllocError>
    ensures { IfOk result (λ t. string_bytes t ≡ generated_text n made) }
{
    let Generated {
        changes,
        lines,
        sum,
    } = made;
    format!(in alloc; "generated {n} 1024 768 steps 40 changes {changes} lines {lines} sum {sum}\n")
}

// Says the line of a run.
fn say_generated<O: Said>(alloc: Global, said: &mut O, n: u32, made: Generated) -> Status
    ensures { SaysLine (generated_text n made) (Rose (O.faults said.old) (O.faults said.new)) (O.said said.old) (O.said said.new) result }
{
    match generated_line(alloc, n, made) {
        Ok(line) => say_line(said, line.as_str()),
        Err(_) => Status::OutOfMemory,
    }
}

// The status of a run that wasn't made.
fn end_status(end: GenerateEnd) -> Status
    ensures { result ≡ end_status end }
{
    match end {
        GenerateEnd::Refused(fault) => Status::ScriptRefused {
            step: fault.step,
            reason: fault.reason,
        },
        GenerateEnd::Memory => Status::OutOfMemory,
    }
}

/// Makes the run of a number, and says how many changes and lines it has, and the sum of all bytes of the
/// lines' files. No file is touched.
pub fn generate<R: Threads + Sync, O: Said>(rt: &R, alloc: Global, n: u32, said: &mut O) -> Status
    ensures { Produces n (Rose (O.faults said.old) (O.faults said.new)) (O.said said.old) (O.said said.new) result }
{
    match generator::generate(rt, alloc, n) {
        Ok(made) => say_generated(alloc, said, n, made),
        Err(end) => {
            let status = end_status(end);
            tell(alloc, said, &status);
            status
        }
    }
}
