use outside::{Gate, JobName, Pipe, Point};
use std::sync::atomic::{AtomicU64, Ordering};

/// A gate that notes who comes by.
#[derive(Drop)]
pub(crate) struct Notes {
    // How often the first node of a run came at a moment above 0.
    first_later: AtomicU64,
    // How often the second node of a run came, at the moments 0 to 3.
    second: [AtomicU64; 4],
    // How many levels were made, and how many of them were level 1 for the preview at moment 0.
    levels: AtomicU64,
    first_levels: AtomicU64,
}

impl Notes {
    pub(crate) fn new() -> Notes {
        Notes {
            first_later: AtomicU64::new(0),
            second: [
                AtomicU64::new(0),
                AtomicU64::new(0),
                AtomicU64::new(0),
                AtomicU64::new(0),
            ],
            levels: AtomicU64::new(0),
            first_levels: AtomicU64::new(0),
        }
    }

    pub(crate) fn first_nodes_later(&self) -> u64 {
        self.first_later.load(Ordering::SeqCst)
    }

    /// How often the second node came at a moment up to 3.
    pub(crate) fn second_nodes(&self, moment: usize) -> u64 {
        match self.second.get(moment) {
            Some(count) => count.load(Ordering::SeqCst),
            None => 0,
        }
    }

    /// How many levels were made, and how many of them were level 1 for the preview at moment 0.
    pub(crate) fn levels(&self) -> (u64, u64) {
        (
            self.levels.load(Ordering::SeqCst),
            self.first_levels.load(Ordering::SeqCst),
        )
    }
}

impl Gate for Notes {
    fn pass(&self, point: Point) {
        match point {
            Point::BeforeStep(_) => {}
            Point::AtNode {
                job: _,
                moment,
                node,
            } => {
                if node == 1 && moment > 0 {
                    self.first_later.fetch_add(1, Ordering::SeqCst);
                }
                if node == 2 {
                    if let Some(count) = self.second.get(moment as usize) {
                        count.fetch_add(1, Ordering::SeqCst);
                    }
                }
            }
            Point::Level { job, moment, level } => {
                self.levels.fetch_add(1, Ordering::SeqCst);
                if job == JobName::Pipe(Pipe::Preview) && moment == 0 && level == 1 {
                    self.first_levels.fetch_add(1, Ordering::SeqCst);
                }
            }
        }
    }
}
