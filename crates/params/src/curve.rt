//! The range of the nodes of a tone curve.
ghost use Rattle.std.specs.Prelude.{◌≡◌, ◌∷◌, [], ◌≤◌, ◌<◌, ◌^◌, pos, negsuc, length, OnOk};
ghost use Rattle.params.specs.Rules.{first_fault, AllKept};
ghost use Rattle.params.specs.Stated.{node_entries, nodes_entries, curve_entries, count_entry};
ghost use Rattle.params.specs.Seen.{wide_nodes};

use crate::fault::{Field, ParamFault};
use crate::rules::{Entry, Rule, first_fault};

/// The greatest value of a channel.
const TOP: i64 = 1_048_575;

/// Holds the node at a place to its rules, behind a node whose first number is `before`.
pub(crate) fn node_fault(
    field: Field,
    at: u32,
    before: i64,
    node: (i64, i64),
) -> Result<(), ParamFault>
    ensures value { result ≡ first_fault (node_entries field at before node []) }
    ensures kept { OnOk result (AllKept (node_entries field at before node [])) }
{
    let value = Rule::Between(0, TOP);
    first_fault(&[
        Entry::new(field, at, node.0, value),
        Entry::new(field, at, node.1, value),
        Entry::new(field, at, node.0, Rule::Above(before)),
    ])
}

/// Holds the number of nodes to its range.
pub(crate) fn count_fault(field: Field, count: usize) -> Result<(), ParamFault>
    requires { count < 2 ^ 63 }
    ensures value { result ≡ first_fault (count_entry field (pos count) ∷ []) }
    ensures few { OnOk result (count ≤ 20) }
{
    first_fault(&[Entry::new(field, 0, count as i64, Rule::Between(2, 20))])
}

/// The first number of the nodes that lies outside its range.
fn nodes_fault(field: Field, nodes: &[(u32, u32)]) -> Result<(), ParamFault>
    requires { length nodes.now ≤ 20 }
    ensures { result ≡ first_fault (nodes_entries field 0 (negsuc 0) (wide_nodes nodes.now)) }
{
    let mut at = 0;
    let mut before = -1;
    for node in nodes {
        let x = i64::from(node.0);
        node_fault(field, at, before, (x, i64::from(node.1)))?;
        at += 1;
        before = x;
    }
    Ok(())
}

/// The first number of a list of nodes that lies outside its range, beginning with how many they are.
pub(crate) fn curve_fault(field: Field, nodes: &[(u32, u32)]) -> Result<(), ParamFault>
    ensures { result ≡ first_fault (curve_entries field (wide_nodes nodes.now)) }
{
    count_fault(field, nodes.len())?;
    nodes_fault(field, nodes)
}

fn wide_nodes_fault(field: Field, nodes: &[(i64, i64)]) -> Result<(), ParamFault>
    requires { length nodes.now ≤ 20 }
    ensures { result ≡ first_fault (nodes_entries field 0 (negsuc 0) nodes.now) }
{
    let mut at = 0;
    let mut before = -1;
    for node in nodes {
        node_fault(field, at, before, *node)?;
        at += 1;
        before = node.0;
    }
    Ok(())
}

/// The same of nodes as they are stated.
pub(crate) fn pairs_fault(field: Field, nodes: &[(i64, i64)]) -> Result<(), ParamFault>
    ensures { result ≡ first_fault (curve_entries field nodes.now) }
{
    count_fault(field, nodes.len())?;
    wide_nodes_fault(field, nodes)
}
