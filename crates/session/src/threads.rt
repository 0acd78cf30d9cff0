//! The editor and the workers, each in a thread where one can be made.
ghost use Rattle.std.specs.Prelude.{map, IfSome};
ghost use Rattle.session.specs.Workers.{Ready, AreReady, number_of};
ghost use Rattle.session.specs.Finished.{Served, AreServed};

use crate::serving::serve;
use crate::shared::Shared;
use crate::worker::Worker;
use desk::DeskPass;
use outside::Gate;
use std::alloc::Global;
use std::sync::Wait;
use std::thread::{self, Threads};

// The workers beside the editor. `None`: memory ran out, and some may not have served.
fn serve_all<R: Wait + Threads + Sync, G: Gate + Sync>(
    rt: &R,
    alloc: Global,
    shared: &Shared,
    gate: &G,
    workers: Vec<Worker>,
) -> Option<Vec<(DeskPass, bool)>>
    requires { AreReady shared.now workers.items }
    ensures { IfSome result (λ v. AreServed shared.now.desk (map number_of workers.items) v.items) }
{
    let one = |worker: Worker| -> (DeskPass, bool)
        requires { Ready shared.now worker }
        ensures { Served shared.entry.now.desk (number_of worker) result }
    { serve(rt, alloc, shared, gate, worker) };
    match thread::map_vec(rt, workers, &one) {
        Ok(served) => Some(served),
        Err(_) => None,
    }
}

/// Lets the editor and the workers serve, each in a thread of its own where one can be made.
pub(crate) fn run_threads<R: Wait + Threads + Sync, G: Gate + Sync>(
    rt: &R,
    alloc: Global,
    shared: &Shared,
    gate: &G,
    workers: Vec<Worker>,
    editor: Worker,
) -> (Option<Vec<(DeskPass, bool)>>, (DeskPass, bool))
    requires workers { AreReady shared.now workers.items }
    requires editor { Ready shared.now editor }
    ensures workers { IfSome result.0 (λ v. AreServed shared.now.desk (map number_of workers.items) v.items) }
    ensures editor { Served shared.now.desk (number_of editor) result.1 }
{
    // The editor is the second: `join` runs the second in this thread, and the first after it where no thread can be
    // made. The workers would wait for ever for an editor that hasn't begun.
    thread::join(
        rt,
        move || -> Option<Vec<(DeskPass, bool)>>
            requires { AreReady shared.now workers.items }
            ensures { IfSome result (λ v. AreServed shared.entry.now.desk (map number_of workers.items) v.items) }
        { serve_all(rt, alloc, shared, gate, workers) },
        move || -> (DeskPass, bool)
            requires { Ready shared.now editor }
            ensures { Served shared.entry.now.desk (number_of editor) result }
        { serve(rt, alloc, shared, gate, editor) },
    )
}
