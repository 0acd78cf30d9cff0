//! The runs that workers have open, by the workers' numbers.
ghost use Rattle.std.specs.Prelude.{◌≡◌, ◌+◌, ◌<◌, ◌≤◌, replicate, slice_set, vec_len, IsSome, IfOk, Some, None};
ghost use Rattle.std.specs.Option.{option_copied};
ghost use Rattle.stepped.specs.Machine.{run_at};

use crate::open_run::OpenRun;
use std::alloc::{AllocError, Global};
use std::mem;

/// No runs, for the editor and so many workers.
pub(crate) fn no_runs(alloc: Global, workers: u32) -> Result<Vec<Option<OpenRun>>, AllocError>
    requires { workers ≤ 4 }
    ensures { IfOk result (λ v. v.items ≡ replicate (workers + 1) None) }
{
    let mut runs = Vec::with_capacity(alloc, workers as usize + 1)?;
    for _seat in 0..workers + 1 {
        runs.push_reserved(None);
    }
    Ok(runs)
}

/// A worker's run.
pub(crate) fn run_at(runs: &[Option<OpenRun>], worker: u32) -> Option<&OpenRun>
    ensures { option_copied result ≡ run_at runs.now worker }
{
    match runs.get(worker as usize) {
        None => None,
        Some(run) => run.as_ref(),
    }
}

/// Takes a worker's run out.
pub(crate) fn take_run(runs: &mut Vec<Option<OpenRun>>, worker: u32) -> OpenRun
    requires { IsSome (run_at runs.old.items worker) }
    ensures run { run_at runs.old.items worker ≡ Some result }
    ensures items { runs.new.items ≡ slice_set runs.old.items worker None }
{
    let Some(run) = mem::replace(&mut runs[worker as usize], None) else {
        unreachable!()
    };
    run
}

/// Puts a worker's run where it has none.
pub(crate) fn put_run(runs: &mut Vec<Option<OpenRun>>, worker: u32, run: OpenRun)
    requires there { worker < vec_len runs.old }
    requires free { run_at runs.old.items worker ≡ None }
    ensures { runs.new.items ≡ slice_set runs.old.items worker (Some run) }
{
    let before = mem::replace(&mut runs[worker as usize], Some(run));
    let None = before else { unreachable!() };
}
