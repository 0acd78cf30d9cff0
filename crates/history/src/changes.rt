/// What a pipe has to do after a change.
#[derive(Clone, Copy, Debug, PartialEq, Eq, Hash)]
pub enum Kind {
    /// The top item was overwritten: its node alone is synced.
    Top,
    /// Other items count: the nodes are synced.
    Synch,
    /// Instances or their order changed: the nodes are made anew.
    Remove,
    /// The view changed: the nodes stay.
    Zoomed,
}

/// A set of kinds.
#[derive(Clone, Copy, Debug, PartialEq, Eq, Hash)]
pub struct Kinds {
    pub top: bool,
    pub synch: bool,
    pub remove: bool,
    pub zoomed: bool,
}
