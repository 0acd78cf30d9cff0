use dev_core::Frame;
use pipe_nodes::Staged;
use px::Region;

/// What an attempt at a job gives.
#[derive(Drop)]
pub enum Attempt {
    /// The job's frame.
    Made(Frame),
    /// A change has overtaken the job: this is the moment that a look found.
    Superseded { latest: u64 },
    /// There was not enough memory.
    Memory,
}

/// What became of a job.
#[derive(Clone, Copy, Debug, PartialEq, Eq)]
pub enum JobEnd {
    /// Its pipe was published at this moment.
    Published { moment: u32 },
    /// Its ticket is done.
    Done { ticket: u32 },
    /// There was not enough memory, and the job was given back.
    Memory,
}

// What the nodes of an attempt give: the stage behind all of them, unless a look found the job overtaken.
#[derive(Drop)]
pub enum Noded {
    Done(Staged),
    Superseded { latest: u64 },
    Memory,
}

// The planned regions of an attempt, and the stage with which it begins, behind the first so many instances.
#[derive(Drop)]
pub struct Begun {
    pub regions: Vec<Region>,
    pub first: usize,
    pub staged: Staged,
}
