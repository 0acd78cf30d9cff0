use outside::Pipe;

/// One thing that the editor or a worker does. Workers are numbered from 1 to the script's setting; the
/// editor may take jobs itself, as worker 0.
#[derive(Clone, Copy, Debug, PartialEq, Eq)]
pub enum Event {
    /// The editor makes the script's next step, or closes where none is left.
    Editor,
    /// A worker takes the job of a pipe, and begins a run.
    Take { worker: u32, pipe: Pipe },
    /// A worker takes the job of a ticket, and begins a run at the moment that was asked for.
    TakeTicket { worker: u32, ticket: u32 },
    /// A worker asks whether its run was overtaken by a change of its pipe.
    Look { worker: u32 },
    /// A worker begins its job anew, at the present moment.
    Restart { worker: u32 },
    /// A worker looks for a stage of its run in the stage cache.
    Find { worker: u32 },
    /// A worker asks for the mipmap of its run's level, to read or to fill it.
    Reach { worker: u32 },
    /// A worker evicts one mipmap, if there is one that no run holds.
    Evict { worker: u32 },
    /// A worker has filled the mipmap that it holds, and holds it to read from now on.
    Demote { worker: u32 },
    /// A worker gives up the mipmap that it was to fill.
    Abandon { worker: u32 },
    /// A worker loads the input of its run.
    Load { worker: u32 },
    /// A worker has read the mipmap that it holds.
    Leave { worker: u32 },
    /// A worker does the next module of its run.
    Node { worker: u32 },
    /// A worker keeps the stage of the module that it did last in the stage cache.
    Keep { worker: u32 },
    /// A worker makes the frame of its run.
    Finish { worker: u32 },
    /// A worker gives the frame of a pipe to the desk, and its run ends.
    Publish { worker: u32 },
    /// A worker gives the frame of a ticket to the desk, and its run ends.
    FinishTicket { worker: u32 },
    /// A worker gives its job back undone, and its run ends.
    GiveBack { worker: u32 },
}
