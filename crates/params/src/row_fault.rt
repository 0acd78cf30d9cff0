//! The first number of a row's parts that lies outside its range.
ghost use Rattle.std.specs.Prelude.{◌≡◌, ◌∷◌, []};
ghost use Rattle.params.specs.Rules.{first_fault, entry, three_entries};
ghost use Rattle.params.specs.Stated.{nine_entries, above_entries, nonzero_entries, tie_entries, cell_entries, cells_entries, row_entries};
ghost use Rattle.params.specs.Seen.{seen, all_seen};

use crate::curve::{curve_fault, pairs_fault};
use crate::fault::{Field, ParamFault};
use crate::part::{Numbers, Three};
use crate::row::{Cell, Tie};
use crate::rules::{Entry, Rule, first_fault};

#[tactic(auto, unfolding(crate::specs::Rules::first_fault))]
fn above_fault(field: Field, value: i64, part: &Numbers<'_>) -> Result<(), ParamFault>
    ensures { result ≡ first_fault (above_entries field value (seen part.now)) }
{
    match part {
        Numbers::One(low) => first_fault(&[Entry::new(field, 0, value, Rule::Above(*low))]),
        Numbers::Three(lows) => first_fault(&[
            Entry::new(field, 0, value, Rule::Above(lows.0)),
            Entry::new(field, 0, value, Rule::Above(lows.1)),
            Entry::new(field, 0, value, Rule::Above(lows.2)),
        ]),
        _ => Ok(()),
    }
}

#[tactic(auto, unfolding(crate::specs::Rules::first_fault))]
fn nonzero_fault(field: Field, value: i64, part: &Numbers<'_>) -> Result<(), ParamFault>
    ensures { result ≡ first_fault (nonzero_entries field value (seen part.now)) }
{
    match part {
        Numbers::One(other) => {
            first_fault(&[Entry::new(field, 0, value, Rule::NotBothZero(*other))])
        }
        _ => Ok(()),
    }
}

#[tactic(auto, using(crate::proofs::RowLemmas::part_there, crate::proofs::RowLemmas::part_past), unfolding(crate::specs::Rules::first_fault))]
fn tie_fault(field: Field, value: i64, tie: Tie, all: &[Numbers<'_>]) -> Result<(), ParamFault>
    ensures { result ≡ first_fault (tie_entries field value tie (all_seen all.now)) }
{
    match tie {
        Tie::Free => Ok(()),
        Tie::Above(at) => if at < all.len() {
            above_fault(field, value, &all[at])
        } else {
            Ok(())
        },
        Tie::NotBothZero(at) => if at < all.len() {
            nonzero_fault(field, value, &all[at])
        } else {
            Ok(())
        },
    }
}

fn nine_fault(field: Field, rule: Rule, rows: &(Three, Three, Three)) -> Result<(), ParamFault>
    ensures { result ≡ first_fault (nine_entries field rule rows.now) }
{
    first_fault(&[
        Entry::new(field, 0, rows.0.0, rule),
        Entry::new(field, 1, rows.0.1, rule),
        Entry::new(field, 2, rows.0.2, rule),
        Entry::new(field, 3, rows.1.0, rule),
        Entry::new(field, 4, rows.1.1, rule),
        Entry::new(field, 5, rows.1.2, rule),
        Entry::new(field, 6, rows.2.0, rule),
        Entry::new(field, 7, rows.2.1, rule),
        Entry::new(field, 8, rows.2.2, rule),
    ])
}

fn one_fault(field: Field, rule: Rule, value: i64) -> Result<(), ParamFault>
    ensures { result ≡ first_fault (entry field 0 value rule ∷ []) }
{
    first_fault(&[Entry::new(field, 0, value, rule)])
}

fn three_fault(field: Field, rule: Rule, values: &Three) -> Result<(), ParamFault>
    ensures { result ≡ first_fault (three_entries field 0 values.now rule []) }
{
    first_fault(&[
        Entry::new(field, 0, values.0, rule),
        Entry::new(field, 1, values.1, rule),
        Entry::new(field, 2, values.2, rule),
    ])
}

#[tactic(auto, using(crate::proofs::RowLemmas::tie_behind, crate::proofs::RowLemmas::tie_before), unfolding(crate::specs::Rules::first_fault))]
fn cell_fault(all: &[Numbers<'_>], cell: &Cell, part: &Numbers<'_>) -> Result<(), ParamFault>
    ensures { result ≡ first_fault (cell_entries (all_seen all.now) cell.now (seen part.now)) }
{
    let rule = cell.range();
    match part {
        Numbers::One(value) => {
            one_fault(cell.field, rule, *value)?;
            tie_fault(cell.field, *value, cell.tie, all)
        }
        Numbers::Three(values) => three_fault(cell.field, rule, values),
        Numbers::Nine(rows) => nine_fault(cell.field, rule, rows),
        Numbers::Nodes(nodes) => curve_fault(cell.field, nodes),
        Numbers::Pairs(nodes) => pairs_fault(cell.field, nodes),
        Numbers::Flag(_) => Ok(()),
    }
}

/// The first number of the parts that lies outside its range, in the order of the row's fields.
pub(crate) fn row_fault(row: &[Cell], parts: &[Numbers<'_>]) -> Result<(), ParamFault>
    ensures { result ≡ first_fault (row_entries row.now (all_seen parts.now)) }
{
    for at in 0..row.len() {
        if at < parts.len() {
            cell_fault(parts, &row[at], &parts[at])?;
        }
    }
    Ok(())
}
