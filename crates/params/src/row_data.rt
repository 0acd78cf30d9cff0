//! The JSON value that is written for the parts of a row.
ghost use Rattle.std.specs.Prelude.{◌≡◌, IfOk, map};
ghost use Rattle.serde_json.specs.View.{view, items_view, members_view};
ghost use Rattle.serde_json.specs.Data.{object};
ghost use Rattle.params.specs.Written.{node_data, pairs_data, three_data, nine_data, part_data, cells_members, row_data};
ghost use Rattle.params.specs.Seen.{seen, all_seen, wide_nodes};

use crate::part::{Numbers, Three};
use crate::row::Cell;
use serde_json::{Map, Value, json, put};
use std::alloc::{AllocError, Global};

fn three_data(alloc: Global, values: &Three) -> Result<Value, AllocError>
    ensures { IfOk result (λ v. view v ≡ three_data values.now) }
{
    json!(in alloc; [values.0, values.1, values.2])
}

fn nine_data(alloc: Global, rows: &(Three, Three, Three)) -> Result<Value, AllocError>
    ensures { IfOk result (λ v. view v ≡ nine_data rows.now) }
{
    let red = three_data(alloc, &rows.0)?;
    let green = three_data(alloc, &rows.1)?;
    let blue = three_data(alloc, &rows.2)?;
    json!(in alloc; [red, green, blue])
}

fn node_data(alloc: Global, node: (i64, i64)) -> Result<Value, AllocError>
    ensures { IfOk result (λ v. view v ≡ node_data node) }
{
    json!(in alloc; [node.0, node.1])
}

fn nodes_data(alloc: Global, nodes: &[(u32, u32)]) -> Result<Vec<Value>, AllocError>
    ensures { IfOk result (λ v. items_view v.items ≡ pairs_data (wide_nodes nodes.now)) }
{
    let mut values = Vec::new(alloc);
    for node in nodes {
        values.push(node_data(alloc, (i64::from(node.0), i64::from(node.1)))?)?;
    }
    Ok(values)
}

fn pairs_data(alloc: Global, nodes: &[(i64, i64)]) -> Result<Vec<Value>, AllocError>
    ensures { IfOk result (λ v. items_view v.items ≡ pairs_data nodes.now) }
{
    let mut values = Vec::new(alloc);
    for node in nodes {
        values.push(node_data(alloc, *node)?)?;
    }
    Ok(values)
}

#[tactic(auto, unfolding(crate::specs::Written::part_data))]
fn part_data(alloc: Global, part: &Numbers<'_>) -> Result<Value, AllocError>
    ensures { IfOk result (λ v. view v ≡ part_data (seen part.now)) }
{
    match part {
        Numbers::One(value) => json!(in alloc; *value),
        Numbers::Three(values) => three_data(alloc, values),
        Numbers::Nine(rows) => nine_data(alloc, rows),
        Numbers::Nodes(nodes) => Ok(Value::Array(nodes_data(alloc, nodes)?)),
        Numbers::Pairs(nodes) => Ok(Value::Array(pairs_data(alloc, nodes)?)),
        Numbers::Flag(flag) => Ok(Value::Bool(*flag)),
    }
}

/// Puts what the parts of a row hold among some members, each under its field's key.
fn members(
    alloc: Global,
    row: &[Cell],
    parts: &[Numbers<'_>],
    beside: Map<String, Value>,
) -> Result<Map<String, Value>, AllocError>
    ensures { IfOk result (λ m. members_view m.entries ≡ cells_members row.now (all_seen parts.now) (members_view beside.entries)) }
{
    let mut members = beside;
    for at in 0..row.len() {
        if at < parts.len() {
            let value = part_data(alloc, &parts[at])?;
            put(&mut members, alloc, row[at].field.name(), value)?;
        }
    }
    Ok(members)
}

/// The JSON object of a row whose fields hold the parts.
pub(crate) fn row_data(
    alloc: Global,
    row: &[Cell],
    parts: &[Numbers<'_>],
) -> Result<Value, AllocError>
    ensures { IfOk result (λ v. view v ≡ row_data row.now (all_seen parts.now)) }
{
    Ok(Value::Object(members(alloc, row, parts, Map::new(alloc))?))
}

/// The JSON object of a row whose fields hold the parts, among some members beside them.
pub(crate) fn data_beside(
    alloc: Global,
    row: &[Cell],
    parts: &[Numbers<'_>],
    beside: Map<String, Value>,
) -> Result<Value, AllocError>
    ensures { IfOk result (λ v. view v ≡ object (cells_members row.now (all_seen parts.now) (members_view beside.entries))) }
{
    Ok(Value::Object(members(alloc, row, parts, beside)?))
}
