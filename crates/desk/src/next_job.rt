use dev_core::Job;

/// What a worker without a job gets in the end. A job must be given to the desk again.
pub enum NextJob {
    Job(Job),
    /// Nothing is due, and the editor has closed.
    Closed,
    /// A worker has stopped the desk.
    Stopped,
}
