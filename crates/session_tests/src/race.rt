use outside::{Gate, JobName, Pipe, Point};
use std::sync::atomic::{AtomicU64, Ordering};
use std::thread;

/// A gate by which a change overtakes a run: the second step waits until a node of the full pipe at moment 1 was come to, and that node
/// until the step after was. Neither waits for ever.
#[derive(Drop)]
pub(crate) struct Race {
    node: AtomicU64,
    step: AtomicU64,
    lost: AtomicU64,
}

impl Race {
    pub(crate) fn new() -> Race {
        Race {
            node: AtomicU64::new(0),
            step: AtomicU64::new(0),
            lost: AtomicU64::new(0),
        }
    }

    /// Whether each wait ended with what it waited for.
    pub(crate) fn was_run(&self) -> bool {
        self.lost.load(Ordering::SeqCst) == 0
    }

    // Waits until the flag is set.
    fn wait(&self, flag: &AtomicU64) {
        for _ in 0..100_000_000_u32 {
            if flag.load(Ordering::SeqCst) > 0 {
                return;
            }
            thread::yield_now();
        }
        self.lost.store(1, Ordering::SeqCst);
    }
}

impl Gate for Race {
    fn pass(&self, point: Point) {
        match point {
            Point::BeforeStep(2) => self.wait(&self.node),
            Point::BeforeStep(3) => self.step.store(1, Ordering::SeqCst),
            Point::AtNode {
                job: JobName::Pipe(Pipe::Full),
                moment: 1,
                node: _,
            } => {
                self.node.store(1, Ordering::SeqCst);
                self.wait(&self.step);
            }
            _ => {}
        }
    }
}
