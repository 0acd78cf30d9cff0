use crate::job::Job;

/// What a worker without a job gets. A job must be given to the desk again.
pub enum Next {
    Job(Job),
    /// Nothing is due, and the editor goes on.
    Nothing,
    /// Nothing is due, and the editor has closed.
    Closed,
    /// A worker has stopped the desk.
    Stopped,
}
