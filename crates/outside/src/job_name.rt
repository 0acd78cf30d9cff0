/// A pixelpipe that is kept up to date with the history.
#[derive(Clone, Copy, Debug, PartialEq, Eq)]
pub enum Pipe {
    /// The picture at its full size, as the view shows it.
    Full,
    /// The whole picture at a small size.
    Preview,
    /// The picture as the view of a second window shows it, where there is one.
    Second,
}

/// What a job makes.
#[derive(Clone, Copy, Debug, PartialEq, Eq)]
pub enum JobName {
    /// The picture that a pipe shows.
    Pipe(Pipe),
    /// The export or thumbnail that was asked for by this ticket. Tickets count from 1.
    Ticket(u32),
}
