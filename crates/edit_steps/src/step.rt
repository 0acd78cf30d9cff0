ghost use Rattle.std.specs.Prelude.{◌≡◌};
ghost use Rattle.edit_steps.specs.Changes.{is_change, view_behind, second_behind, scope_of};

use crate::change::Scope;
use history::Edit;
use px::{BoxSize, Depth, View};

/// One step of a script. Edits, undos, redos, views and second views are changes: each makes a new
/// moment.
#[derive(Clone, Copy, Debug, PartialEq, Eq)]
pub enum Step {
    /// Changes the history.
    Edit(Edit),
    /// Takes the history back to the one before the newest edit that isn't undone.
    Undo,
    /// Makes the edit again that the newest undo took back.
    Redo,
    /// Changes what the full pipe shows.
    View(View),
    /// Changes what the second pipe shows.
    Second(View),
    /// Asks for the whole picture as a file, in a box where one is given.
    Export { size: Option<BoxSize>, depth: Depth },
    /// Asks for a small picture in a box, 1 to 720 pixels a side.
    Thumbnail { size: BoxSize },
    /// Waits until every pipe is up to date and every ticket is done.
    Settle,
}

impl Step {
    /// Whether the step makes a new moment.
    pub fn is_change(&self) -> bool
        ensures { result ≡ is_change self.now }
    {
        self.scope().is_some()
    }

    // What the step is a change of, where it is one.
    pub(crate) fn scope(&self) -> Option<Scope>
        ensures { result ≡ scope_of self.now }
    {
        match self {
            Step::Edit(_) | Step::Undo | Step::Redo => Some(Scope::History),
            Step::View(_) => Some(Scope::View),
            Step::Second(_) => Some(Scope::Second),
            Step::Export { .. } | Step::Thumbnail { .. } | Step::Settle => None,
        }
    }

    // The view behind the step.
    pub(crate) fn view_behind(&self, view: View) -> View
        ensures { result ≡ view_behind view self.now }
    {
        match self {
            Step::View(next) => *next,
            _ => view,
        }
    }

    // The second window's view behind the step, where there is a second window.
    pub(crate) fn second_behind(&self, second: Option<View>) -> Option<View>
        ensures { result ≡ second_behind second self.now }
    {
        match self {
            Step::Second(next) => second.and(Some(*next)),
            _ => second,
        }
    }
}
