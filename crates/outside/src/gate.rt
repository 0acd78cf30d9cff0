use crate::job_name::JobName;

/// A place that a thread of a session comes to.
#[derive(Clone, Copy, Debug, PartialEq, Eq)]
pub enum Point {
    /// The editor is about to try the step of this number, from 1, or the close, whose number is one more than the last step's.
    BeforeStep(u32),
    /// A worker has looked, and is about to make the node of this number, from 1, for a job at a moment.
    AtNode {
        job: JobName,
        moment: u32,
        node: u32,
    },
    /// A worker is about to make this mipmap level, 1 to 8, which it writes for all, for a job at a moment.
    Level {
        job: JobName,
        moment: u32,
        level: u8,
    },
}

/// What the threads of a session pass at each point. It may note the points, or hold a thread back for a while.
/// It changes nothing of what a session makes.
pub trait Gate {
    fn pass(&self, point: Point);
}

/// A gate that holds nobody back.
#[derive(Debug)]
pub struct OpenGate;

impl Gate for OpenGate {
    fn pass(&self, _point: Point) {}
}
