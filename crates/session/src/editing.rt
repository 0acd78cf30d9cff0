//! What the editor does before it takes jobs as any other worker.
ghost use Rattle.std.specs.Prelude.{◌≡◌};
ghost use Rattle.session.specs.Workers.{Ready, number_of};

use crate::shared::Shared;
use crate::worker::{Worker, run_or_listen};
use desk::Edited;
use outside::{Gate, Point};
use pipe_nodes::Steps;
use std::alloc::{AllocError, Global};
use std::sync::Wait;
use std::sync::ledger::Ledger;
use std::thread::Threads;

// Tries the step of this number, or the close.
fn edit_one<R: Wait, G: Gate>(
    rt: &R,
    alloc: Global,
    shared: &Shared,
    gate: &G,
    number: u32,
    worker: &mut Worker,
) -> Result<Edited, AllocError>
    requires ready { Ready shared.now worker.old }
    requires editor { number_of worker.old ≡ 0 }
    ensures ready { Ready shared.now worker.new }
    ensures number { number_of worker.new ≡ 0 }
{
    gate.pass(Point::BeforeStep(number));
    shared.desk.edit(rt, alloc, &mut worker.passes.desk)
}

/// Makes every step of the script, and closes the desk. While a settle isn't reached the editor takes jobs itself.
/// False: memory ran out.
pub(crate) fn edit_all<R: Wait + Threads + Sync, G: Gate, L: Ledger>(
    rt: &R,
    alloc: Global,
    shared: &Shared,
    gate: &G,
    worker: &mut Worker,
    steps: &mut Steps<L>,
) -> bool
    requires ready { Ready shared.now worker.old }
    requires editor { number_of worker.old ≡ 0 }
    ensures ready { Ready shared.now worker.new }
    ensures number { number_of worker.new ≡ 0 }
{
    let mut number = 1;
    for _ in rt.forever() {
        let rings = shared.desk.rings();
        match edit_one(rt, alloc, shared, gate, number, worker) {
            Ok(Edited::Changed(_) | Edited::Asked(_) | Edited::Settled) => {
                if number < shared.close {
                    number += 1;
                }
            }
            Ok(Edited::Unsettled) => {
                if !run_or_listen(rt, alloc, shared, gate, rings, worker, steps) {
                    return false;
                }
            }
            Ok(Edited::Closed | Edited::AllDone) => return true,
            Err(_) => return false,
        }
    }
    unreachable!()
}
