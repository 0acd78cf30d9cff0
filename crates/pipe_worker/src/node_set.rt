ghost use Rattle.std.specs.Prelude.{◌≡◌, [], None};

use pipe_sync::Nodes;
use std::alloc::Global;

/// The nodes of one worker: those of each pipe, with the moment of the history with which they are in
/// step, where there is one.
#[derive(Drop)]
pub struct NodeSet {
    pub full: Nodes,
    pub preview: Nodes,
    pub second: Nodes,
    pub full_at: Option<u32>,
    pub preview_at: Option<u32>,
    pub second_at: Option<u32>,
}

impl NodeSet {
    /// No nodes yet. Takes no memory.
    pub fn empty(alloc: Global) -> NodeSet
        ensures { result ≡ record { full = []; preview = []; second = []; full_at = None; preview_at = None; second_at = None } }
    {
        NodeSet {
            full: Nodes::empty(alloc),
            preview: Nodes::empty(alloc),
            second: Nodes::empty(alloc),
            full_at: None,
            preview_at: None,
            second_at: None,
        }
    }
}
