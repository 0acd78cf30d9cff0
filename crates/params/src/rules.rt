ghost use Rattle.std.specs.Prelude.{◌≡◌, ◌↔◌, IsOk};

use crate::fault::{Field, ParamFault};

/// What a number of the settings has to be.
#[derive(Clone, Copy)]
pub(crate) enum Rule {
    /// From the first number to the second, both included.
    Between(i64, i64),
    /// Greater than this number.
    Above(i64),
    /// Not 0 where this number is 0.
    NotBothZero(i64),
}

/// A number of the settings: its field, its place in the field's list, its value and its rule.
#[derive(Clone, Copy)]
pub(crate) struct Entry {
    pub field: Field,
    pub at: u32,
    pub value: i64,
    pub rule: Rule,
}

impl Entry {
    ghost use Rattle.params.specs.Rules.{keeps, held};

    pub fn new(field: Field, at: u32, value: i64, rule: Rule) -> Entry
        ensures { result ≡ record { field = field; at = at; value = value; rule = rule } }
    {
        Entry {
            field,
            at,
            value,
            rule,
        }
    }

    fn is_kept(&self) -> bool
        ensures { result ≡ keeps self.now.value self.now.rule }
    {
        match self.rule {
            Rule::Between(low, high) => low <= self.value && self.value <= high,
            Rule::Above(low) => low < self.value,
            Rule::NotBothZero(other) => other != 0 || self.value != 0,
        }
    }

    /// The entry as a fault where it isn't kept.
    fn held(&self) -> Result<(), ParamFault>
        ensures { result ≡ held self.now }
    {
        if self.is_kept() {
            Ok(())
        } else {
            Err(ParamFault {
                field: self.field,
                at: self.at,
                value: self.value,
            })
        }
    }
}

ghost use Rattle.params.specs.Rules.{first_fault};

/// The first entry that isn't kept, as a fault.
pub(crate) fn first_fault(entries: &[Entry]) -> Result<(), ParamFault>
    ensures { result ≡ first_fault entries.now }
{
    for entry in entries {
        entry.held()?;
    }
    Ok(())
}
