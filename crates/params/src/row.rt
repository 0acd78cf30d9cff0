//! A row of the table: the fields of some settings, each with its layout in JSON and its range.

ghost use Rattle.std.specs.Prelude.{◌≡◌};

use crate::fault::Field;
use crate::rules::Rule;

/// What stands at a field's key.
#[derive(Clone, Copy)]
pub(crate) enum Layout {
    /// A whole number.
    One,
    /// A list of three whole numbers.
    Three,
    /// A list of three lists of three.
    Nine,
    /// A list of pairs of whole numbers, the nodes of a curve.
    Pairs,
    /// A truth value.
    Flag,
}

/// How a field of one number is tied to the field at a place of its row.
#[derive(Clone, Copy)]
pub(crate) enum Tie {
    Free,
    /// Greater than each number of that field.
    Above(usize),
    /// Not 0 where that field's number is 0.
    NotBothZero(usize),
}

/// A field. Each of its numbers lies from `low` to `high`; those of pairs are held to the ranges of a
/// curve.
#[derive(Clone, Copy)]
pub(crate) struct Cell {
    pub field: Field,
    pub layout: Layout,
    pub low: i64,
    pub high: i64,
    pub tie: Tie,
}

impl Cell {
    ghost use Rattle.params.specs.declared.rules.Rule.TheVariants.{Between};

    /// What each number of the field has to be.
    pub fn range(&self) -> Rule
        ensures { result ≡ Between self.now.low self.now.high }
    {
        Rule::Between(self.low, self.high)
    }
}
