use outside::Pipe;

/// An entry of a desk's journal: one thing that was done at the desk. Moments are numbers of changes,
/// tickets count from 1, and worker 0 is the editor.
#[derive(Clone, Copy, Debug, PartialEq, Eq)]
pub enum Entry {
    /// The next step of the script was made, a change, and the moment is one more.
    Changed {
        moment: u32,
    },
    /// The next step asked for a picture: the ticket, and the present moment.
    Asked {
        ticket: u32,
        moment: u32,
    },
    /// The next step was a settle: each pipe is up to date and free, and each ticket is done.
    Settled,
    /// The editor has no more steps.
    Closed,
    /// A worker took the job of a pipe, at the present moment.
    Took {
        pipe: Pipe,
        worker: u32,
        moment: u32,
    },
    /// A worker began its job anew, at the present moment.
    Restarted {
        pipe: Pipe,
        worker: u32,
        moment: u32,
    },
    /// A worker gave the frame of its job, which shows that moment.
    Published {
        pipe: Pipe,
        worker: u32,
        moment: u32,
    },
    /// A worker gave the job of a pipe back with no frame.
    GaveBack {
        pipe: Pipe,
        worker: u32,
    },
    /// A worker took the job of a ticket.
    TicketTook {
        ticket: u32,
        worker: u32,
    },
    /// A worker gave the frame of a ticket.
    TicketDone {
        ticket: u32,
        worker: u32,
    },
    /// A worker gave the job of a ticket back with no frame.
    TicketBack {
        ticket: u32,
        worker: u32,
    },
    /// A worker wants no more jobs to be given out.
    Stopped {
        worker: u32,
    },
}

/// What the editor does next. Steps are counted from 1.
#[derive(Clone, Copy, Debug, PartialEq, Eq)]
pub enum NextStep {
    /// It makes this step.
    Step { number: u32 },
    /// No step is left, and it closes.
    Close,
    /// It has closed.
    Closed,
}
