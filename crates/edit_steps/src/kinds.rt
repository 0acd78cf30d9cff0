//! Sets of kinds.
ghost use Rattle.std.specs.Prelude.{◌≡◌, map};
ghost use Rattle.std.specs.List.{list_any};
ghost use Rattle.edit_steps.specs.declared.change.Change.{Change};
ghost use Rattle.edit_steps.specs.Changes.{is_top, is_synch, is_remove, is_zoomed, kinds_in};

use crate::change::Change;
use history::{Kind, Kinds};

// The kinds of changes, as a set.
pub(crate) fn kinds_in(changes: &[Change]) -> Kinds
    ensures { result ≡ kinds_in (map (λ (c : Change). c.kind) changes.now) }
{
    Kinds {
        top: has_top(changes),
        synch: has_synch(changes),
        remove: has_remove(changes),
        zoomed: has_zoomed(changes),
    }
}

fn has_top(changes: &[Change]) -> bool
    ensures { result ≡ list_any (λ (c : Change). is_top c.kind) changes.now }
{
    changes
        .iter()
        .any(|change| matches!(change.kind, Kind::Top))
}

fn has_synch(changes: &[Change]) -> bool
    ensures { result ≡ list_any (λ (c : Change). is_synch c.kind) changes.now }
{
    changes
        .iter()
        .any(|change| matches!(change.kind, Kind::Synch))
}

fn has_remove(changes: &[Change]) -> bool
    ensures { result ≡ list_any (λ (c : Change). is_remove c.kind) changes.now }
{
    changes
        .iter()
        .any(|change| matches!(change.kind, Kind::Remove))
}

fn has_zoomed(changes: &[Change]) -> bool
    ensures { result ≡ list_any (λ (c : Change). is_zoomed c.kind) changes.now }
{
    changes
        .iter()
        .any(|change| matches!(change.kind, Kind::Zoomed))
}
