//! What a script keeps of each of its changes.
ghost use Rattle.std.specs.Prelude.{◌≡◌};
ghost use Rattle.std.specs.List.{list_any};
ghost use Rattle.edit_steps.specs.declared.change.Change.{Change};
ghost use Rattle.edit_steps.specs.Pipes.{reaches};

use history::Kind;
use outside::Pipe;
use px::View;

/// What a change is of.
#[derive(Clone, Copy, Debug)]
pub(crate) enum Scope {
    /// The history, which every pipe shows.
    History,
    /// The view of the full pipe.
    View,
    /// The view of the second window.
    Second,
}

/// A change: its kind, what it is of, and the views behind it.
#[derive(Clone, Copy, Debug)]
pub(crate) struct Change {
    pub(crate) kind: Kind,
    pub(crate) scope: Scope,
    pub(crate) view: View,
    pub(crate) second: Option<View>,
}

// Whether a change of this scope changes what the pipe shows: a row for each pipe.
fn reaches(pipe: Pipe, scope: Scope) -> bool
    ensures { result ≡ reaches pipe scope }
{
    match (pipe, scope) {
        (_, Scope::History) => true,
        (Pipe::Full, scope) => matches!(scope, Scope::View),
        (Pipe::Preview, _) => false,
        (Pipe::Second, scope) => matches!(scope, Scope::Second),
    }
}

// Whether one of the changes changes what the pipe shows.
pub(crate) fn any_reaches(pipe: Pipe, changes: &[Change]) -> bool
    ensures { result ≡ list_any (λ (c : Change). reaches pipe c.scope) changes.now }
{
    changes.iter().any(|change| reaches(pipe, change.scope))
}
