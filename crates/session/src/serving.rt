//! What one thread does from its beginning to its end.
ghost use Rattle.std.specs.Prelude.{◌≡◌, ◌<◌, true};
ghost use Rattle.session.specs.Workers.{Ready, number_of};
ghost use Rattle.session.specs.Finished.{IsFinished, Served};

use crate::editing::edit_all;
use crate::shared::Shared;
use crate::worker::{Turned, Worker, run_next};
use desk::DeskPass;
use outside::Gate;
use pipe_nodes::Steps;
use std::alloc::Global;
use std::marker::Brand;
use std::sync::Wait;
use std::sync::ledger::{Blank, Ledger};
use std::thread::Threads;

// Takes jobs until the desk is closed and nothing is due. False: the desk was stopped, or memory ran out.
fn take_jobs<R: Wait + Threads + Sync, G: Gate, L: Ledger>(
    rt: &R,
    alloc: Global,
    shared: &Shared,
    gate: &G,
    worker: &mut Worker,
    steps: &mut Steps<L>,
) -> bool
    requires { Ready shared.now worker.old }
    ensures ready { Ready shared.now worker.new }
    ensures number { number_of worker.new ≡ number_of worker.old }
    ensures finished { result ≡ true → IsFinished shared.now.desk worker.new.passes.desk }
{
    for _ in rt.forever() {
        match run_next(rt, alloc, shared, gate, worker, steps) {
            Turned::Ran => {}
            Turned::Over => return true,
            Turned::Failed => return false,
        }
    }
    unreachable!()
}

// All that a thread has to do. The editor makes the steps first.
fn do_all<R: Wait + Threads + Sync, G: Gate, L: Ledger>(
    rt: &R,
    alloc: Global,
    shared: &Shared,
    gate: &G,
    worker: &mut Worker,
    steps: &mut Steps<L>,
) -> bool
    requires { Ready shared.now worker.old }
    ensures ready { Ready shared.now worker.new }
    ensures number { number_of worker.new ≡ number_of worker.old }
    ensures finished { result ≡ true → IsFinished shared.now.desk worker.new.passes.desk }
{
    if worker.passes.desk.number() == 0 && !edit_all(rt, alloc, shared, gate, worker, steps) {
        return false;
    }
    take_jobs(rt, alloc, shared, gate, worker, steps)
}

// Does it with a count of steps of its own, and stops the desk where it can't do all.
fn serve_with<R: Wait + Threads + Sync, G: Gate, L: Ledger>(
    rt: &R,
    alloc: Global,
    shared: &Shared,
    gate: &G,
    worker: Worker,
    blank: Blank,
) -> (DeskPass, bool)
    requires ready { Ready shared.now worker }
    requires name { blank.name ≡ L.name }
    requires parts { blank.parts ≡ L.parts }
    requires some { 0 < blank.parts }
    ensures { Served shared.now.desk (number_of worker) result }
{
    let mut worker = worker;
    let mut steps = Steps::<L>::start(blank);
    let done = do_all(rt, alloc, shared, gate, &mut worker, &mut steps);
    let Worker { passes, nodes: _ } = worker;
    let mut pass = passes.desk;
    if !done {
        shared.desk.stop(rt, &mut pass);
    }
    (pass, done)
}

/// One thread from its beginning to its end. It gives its pass of the desk back, and says whether it did all. Where it
/// didn't, it has stopped the desk, and the others end too.
pub(crate) fn serve<R: Wait + Threads + Sync, G: Gate>(
    rt: &R,
    alloc: Global,
    shared: &Shared,
    gate: &G,
    worker: Worker,
) -> (DeskPass, bool)
    requires { Ready shared.now worker }
    ensures { Served shared.now.desk (number_of worker) result }
{
    serve_with::<R, G, Brand>(rt, alloc, shared, gate, worker, Blank::new(1))
}
