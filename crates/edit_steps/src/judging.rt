// Why a step can't follow those before it, and what it makes of the histories.
ghost use Rattle.std.specs.Prelude.{◌≡◌, Bool, None, Some, IfOk, OnOk, OnErr, count_by};
ghost use Rattle.edit_steps.specs.declared.step.Step.{Step};
ghost use Rattle.history.specs.Faults.{edit_fault};
ghost use Rattle.history.specs.After.{after, kind_of};
ghost use Rattle.undo_stack.specs.Undoing.{changed};
ghost use Rattle.edit_steps.specs.Changes.{histories_behind, change_kind};
ghost use Rattle.edit_steps.specs.Faults.{limit_fault, window_fault, history_fault};
ghost use Rattle.edit_steps.specs.Sorts.{is_sort};

use crate::fault::Reason;
use crate::settings::Settings;
use crate::step::Step;
use history::{Edit, History, Kind};
use std::alloc::{AllocError, Global};
use undo_stack::Undo;

/// How many changes a script makes at most.
pub const MAX_CHANGES: usize = 256;

/// How many exports a script asks for at most.
pub const MAX_EXPORTS: usize = 8;

/// How many thumbnails a script asks for at most.
pub const MAX_THUMBNAILS: usize = 16;

/// How many settles a script has at most.
pub const MAX_SETTLES: usize = 256;

// The sorts of steps that have a limit.
#[derive(Clone, Copy)]
enum Sort {
    Change,
    Export,
    Thumbnail,
    Settle,
}

// The fault of a step more of its sort. Few steps come before it, so that counting them is short.
pub(crate) fn limit_fault(before: &[Step], step: &Step) -> Option<Reason>
    ensures { result ≡ limit_fault before.now step.now }
{
    match step {
        Step::Edit(_) | Step::Undo | Step::Redo | Step::View(_) | Step::Second(_) => {
            (count_sort(before, Sort::Change) >= MAX_CHANGES).then_some(Reason::TooManyChanges)
        }
        Step::Export { .. } => {
            (count_sort(before, Sort::Export) >= MAX_EXPORTS).then_some(Reason::TooManyExports)
        }
        Step::Thumbnail { .. } => (count_sort(before, Sort::Thumbnail) >= MAX_THUMBNAILS).then_some(
            Reason::TooManyThumbnails,
        ),
        Step::Settle => {
            (count_sort(before, Sort::Settle) >= MAX_SETTLES).then_some(Reason::TooManySettles)
        }
    }
}

// How many of the steps are of the sort.
fn count_sort(steps: &[Step], sort: Sort) -> usize
    ensures { result ≡ count_by (is_sort sort) steps.now }
{
    let mut count = 0;
    for step in steps {
        if is_sort(step, sort) {
            count += 1;
        }
    }
    count
}

// Whether a step is of the sort.
fn is_sort(step: &Step, sort: Sort) -> bool
    ensures { result ≡ is_sort sort step.now }
{
    match sort {
        Sort::Change => step.is_change(),
        Sort::Export => matches!(step, Step::Export { .. }),
        Sort::Thumbnail => matches!(step, Step::Thumbnail { .. }),
        Sort::Settle => matches!(step, Step::Settle),
    }
}

// The fault of a step at the windows.
pub(crate) fn window_fault(settings: &Settings, step: &Step) -> Option<Reason>
    ensures { result ≡ window_fault settings.now step.now }
{
    match step {
        Step::Second(_) => match settings.second {
            None => Some(Reason::NoSecond),
            Some(_) => None,
        },
        _ => None,
    }
}

// The fault of a step on the histories before it.
pub(crate) fn history_fault(histories: &Undo<History>, step: &Step) -> Option<Reason>
    ensures { result ≡ history_fault histories.now step.now }
{
    match step {
        Step::Edit(edit) => match histories.now().allowed(edit) {
            Ok(()) => None,
            Err(fault) => Some(Reason::Edit(fault)),
        },
        Step::Undo => (histories.past() == 0).then_some(Reason::NothingToUndo),
        Step::Redo => (histories.future() == 0).then_some(Reason::NothingToRedo),
        _ => None,
    }
}

// Makes an edit that the present history allows; the history before it is kept. On an error the
// histories are as before.
fn edit_present(
    alloc: Global,
    histories: &mut Undo<History>,
    edit: &Edit,
) -> Result<Kind, AllocError>
    requires { edit_fault histories.old.present edit.now ≡ None }
    ensures histories { OnOk result (histories.new ≡ changed histories.old (after histories.old.present edit.now)) }
    ensures kind { IfOk result (λ kind. kind ≡ kind_of histories.old.present edit.now) }
    ensures unchanged { OnErr result (histories.new ≡ histories.old) }
{
    let mut next = histories.now().copy(alloc)?;
    let kind = next.apply(alloc, edit)?;
    histories.change(next);
    Ok(kind)
}

// Makes the step, which the histories allow, and tells the kind of its change. An edit alone may run out
// of memory, and leaves the histories as before then.
pub(crate) fn follow(
    alloc: Global,
    histories: &mut Undo<History>,
    step: &Step,
) -> Result<Kind, AllocError>
    requires { history_fault histories.old step.now ≡ None }
    ensures histories { OnOk result (histories.new ≡ histories_behind histories.old step.now) }
    ensures kind { IfOk result (λ kind. kind ≡ change_kind histories.old step.now) }
    ensures unchanged { OnErr result (histories.new ≡ histories.old) }
{
    match step {
        Step::Edit(edit) => edit_present(alloc, histories, edit),
        Step::Undo => {
            let _went = histories.undo();
            Ok(Kind::Remove)
        }
        Step::Redo => {
            let _went = histories.redo();
            Ok(Kind::Remove)
        }
        _ => Ok(Kind::Zoomed),
    }
}
