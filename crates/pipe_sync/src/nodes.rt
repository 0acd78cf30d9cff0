ghost use Rattle.std.specs.Prelude.{◌≡◌, ◌+◌, ◌≤◌, [], IsOk, OnOk, OnErr};
ghost use Rattle.px.specs.declared.kind.PlaneKind.{PlaneKind};
ghost use Rattle.pipe_nodes.specs.Actives.{actives_of};
ghost use Rattle.pipe_nodes.specs.Kinds.{IsRun};
ghost use Rattle.pipe_sync.specs.Changed.{changed_places, LeaveNodes};

use crate::renewing::{is_run, renewed};
use history::{History, Kinds};
use pipe_nodes::{Piece, Steps};
use std::alloc::{AllocError, Global};
use std::marker::Model;
use std::mem::replace;
use std::sync::ledger::Ledger;

/// The pieces of a pipe, one for each module instance that is active in a history, in their order.
#[derive(Debug, Drop)]
pub struct Nodes {
    pieces: Vec<Piece>,
}

impl Model for Nodes {
    ghost use Rattle.std.specs.Prelude.{List};
    ghost use Rattle.pipe_nodes.specs.declared.active.Active.{Active};

    ghost Value = { List Active };

    ghost view = { λ n. n.pieces.items };
}

impl Nodes {
    /// No pieces yet. Takes no memory.
    pub fn empty(alloc: Global) -> Nodes
        ensures { result ≡ [] }
    {
        Nodes {
            pieces: Vec::new(alloc),
        }
    }

    /// The pieces, in the order in which a run applies them.
    pub fn pieces(&self) -> &[Piece]
        ensures { result.now ≡ self.now }
    {
        self.pieces.as_slice()
    }

    /// Brings the pieces in step with a history, after changes of these kinds. Where none of them
    /// touches the nodes, the pieces are those of the history already; they stay, and nothing is
    /// taken or committed. Otherwise a piece is committed anew where another instance stands at its
    /// place, other values, or none, and the others stay. The pieces are a run from every kind of
    /// picture. On want of memory there are none left.
    pub fn sync<L: Ledger>(
        &mut self,
        alloc: Global,
        history: &History,
        kinds: Kinds,
        steps: &mut Steps<L>,
    ) -> Result<(), AllocError>
        requires current { LeaveNodes kinds → self.old ≡ actives_of history.now }
        ensures pieces { OnOk result (self.new ≡ actives_of history.now) }
        ensures run { OnOk result ((k : PlaneKind) → IsRun k self.new) }
        ensures empty { OnErr result (self.new ≡ []) }
        ensures more { steps.old ≤ steps.new }
        ensures few { steps.new ≤ steps.old + changed_places self.old (actives_of history.now) }
        ensures still { LeaveNodes kinds → IsOk result × (self.new ≡ self.old) × (steps.new ≡ steps.old) }
    {
        is_run(history);
        if !kinds.top && !kinds.synch && !kinds.remove {
            return Ok(());
        }
        let old = replace(&mut self.pieces, Vec::new(alloc));
        self.pieces = renewed(alloc, old, history, steps)?;
        Ok(())
    }
}
