/// What the editor did in its turn.
#[derive(Clone, Copy, Debug, PartialEq, Eq)]
pub enum Edited {
    /// It made the next step, a change, which has this moment.
    Changed(u32),
    /// It made the next step, which asks for a picture: this is its ticket.
    Asked(u32),
    /// It made the next step, a settle.
    Settled,
    /// It closed the desk: no step is left.
    Closed,
    /// The next step is a settle, and the desk isn't settled. Nothing was done.
    Unsettled,
    /// The desk is closed. Nothing was done.
    AllDone,
}
