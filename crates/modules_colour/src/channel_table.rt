//! The table of one channel's curve.
ghost use Rattle.std.specs.Prelude.{◌≡◌, ℕ, ◌+◌, ◌*◌, ◌<◌, ◌≤◌, length, slice_index, IfOk};
ghost use Rattle.params.specs.Curve.{IsCurve};
ghost use Rattle.modules_colour.specs.Curving.{between, curved, IsTable, AreEntriesOf};

use crate::steps::{advance, slope_of};
use std::alloc::{AllocError, Global};
use std::marker::Model;

/// What a curve makes of each value of a sample, 0 to `TOP`.
#[derive(Debug, Drop)]
pub(crate) struct ChannelTable {
    entries: Vec<u32>,
}

impl Model for ChannelTable {
    ghost use Rattle.std.specs.Prelude.{List, ℕ};
    ghost use Rattle.modules_colour.specs.Curving.{IsTable};

    ghost Value = { List ℕ };

    ghost view = { λ t. t.entries.items };

    ghost invariant = { λ t. IsTable t.entries.items };
}

impl ChannelTable {
    /// The table of the curve through these nodes.
    pub(crate) fn make(alloc: Global, nodes: &[(u32, u32)]) -> Result<ChannelTable, AllocError>
        requires { IsCurve nodes.now }
        ensures { IfOk result (λ t. AreEntriesOf nodes.now t) }
    {
        let mut entries = blank(alloc, 1_048_576)?;
        fill(nodes, &mut entries);
        Ok(ChannelTable { entries })
    }

    /// An entry for each value, from 0 on.
    pub(crate) fn entries(&self) -> &[u32]
        ensures value { result.now ≡ self.now }
        ensures valid { IsTable self.now }
    {
        self.entries.as_slice()
    }
}

// So many entries, not filled yet.
fn blank(alloc: Global, count: usize) -> Result<Vec<u32>, AllocError>
    ensures { IfOk result (λ v. length v.items ≡ count) }
{
    vec![in alloc; 0u32; count]
}

// Fills the table node by node.
fn fill(nodes: &[(u32, u32)], table: &mut [u32])
    requires curve { IsCurve nodes.now }
    requires size { length table.old ≡ 1048576 }
    ensures same { (v : ℕ) → v < 1048576 → slice_index table.new v ≡ curved nodes.now v }
    ensures top { (i : ℕ) → slice_index table.new i ≤ 1048575 }
{
    let mut last = nodes[0];
    fill_flat(0, last.0, last.1, table);
    for i in 1..nodes.len() {
        let next = nodes[i];
        fill_between(last, next, table);
        last = next;
    }
    fill_flat(last.0, 1_048_576, last.1, table);
}

// One value in the entries from `from` up to `to`.
fn fill_flat(from: u32, to: u32, y: u32, table: &mut [u32])
    requires order { from ≤ to }
    requires end { to ≤ length table.old }
    ensures here { (v : ℕ) → from ≤ v → v < to → slice_index table.new v ≡ y }
    ensures before { (v : ℕ) → v < from → slice_index table.new v ≡ slice_index table.old v }
{
    for v in from..to {
        table[v as usize] = y;
    }
}

// The entries from node `a` up to node `b`.
fn fill_between(a: (u32, u32), b: (u32, u32), table: &mut [u32])
    requires order { a.0 < b.0 }
    requires end { b.0 ≤ 1048575 }
    requires first { a.1 ≤ 1048575 }
    requires second { b.1 ≤ 1048575 }
    requires size { length table.old ≡ 1048576 }
    ensures here { (v : ℕ) → a.0 ≤ v → v < b.0 → slice_index table.new v ≡ between a b v }
    ensures before { (v : ℕ) → v < a.0 → slice_index table.new v ≡ slice_index table.old v }
{
    let s = slope_of(a.1, b.1, b.0 - a.0);
    let mut y = a.1;
    let mut left = 0;
    for v in a.0..b.0 {
        table[v as usize] = y;
        let (up, over) = advance(s, y, left);
        y = up;
        left = over;
    }
}
