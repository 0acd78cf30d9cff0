//! What threads that share a desk see of it.
use crate::desk_state::DeskState;
use crate::subject::Subject;
use journal::Entry;
use turn_lock::Told;

/// A desk's name is its subject, and its story the journal; each entry bears its worker. Its mark is the moment, which is at most
/// the number of changes in the subject's script.
impl Told for DeskState {
    ghost use Rattle.edit_steps.specs.Script.{changes};
    ghost use Rattle.journal.specs.Own.{worker_of};
    ghost use Rattle.dev_core.specs.DeskState.{now};

    type Name = Subject;

    type Entry = Entry;

    ghost name = { λ s. s.subject };

    ghost story = { λ s. s.journal };

    ghost bearer = { λ e. worker_of e };

    ghost mark = { λ s. (now s).moment };

    ghost most = { λ s. changes s.script };

    fn mark_now(&self) -> u64 {
        self.moment() as u64
    }
}

fn may_cross<X: Send>(_value: &X) {}

fn may_be_shared<X: Send + Sync>(_value: &X) {}

// A desk may go from thread to thread, and threads may share its subject.
fn threads_may_share(desk: &DeskState, subject: &Subject) {
    may_cross(desk);
    may_be_shared(subject);
}
