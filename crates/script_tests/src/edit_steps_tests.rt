ghost use Rattle.std.specs.Prelude.{◌≤◌};
ghost use Rattle.edit_steps.specs.Ranges.{IsSettings, IsStepWithin};
ghost use Rattle.edit_steps.specs.Script.{changes};

use edit_steps::{Draft, Reason, Script, Settings, Step};
use history::{Edit, History, Item, Kinds};
use outside::Pipe;
use params::{Exposure, Field, ParamFault, Params};
use px::View;
use std::alloc::{AllocError, Global};
use std::test::Fail;

const NEXT_VIEW: View = View {
    factor: 2,
    cx: 0,
    cy: 65_536,
    w: 1,
    h: 16_384,
};

fn start(alloc: Global) -> Result<Draft, AllocError> {
    Draft::start(alloc, Settings::start(), History::start(alloc)?)
}

const ZOOMED: Kinds = Kinds {
    top: false,
    synch: false,
    remove: false,
    zoomed: true,
};

// Sets the exposure's gain to 2.
fn brighter() -> Step
    ensures { IsStepWithin result }
{
    Step::Edit(Edit::Set(Item {
        instance: 0,
        enabled: true,
        params: Params::Exposure(Exposure {
            black: 0,
            gain: 8192,
            stops: 0,
        }),
        blend: None,
    }))
}

// The script of an edit, a view, an undo and a settle.
fn four_steps(alloc: Global) -> Result<Script, Fail> {
    let mut draft = start(alloc)?;
    draft.push(alloc, brighter())?;
    draft.push(alloc, Step::View(NEXT_VIEW))?;
    draft.push(alloc, Step::Undo)?;
    draft.push(alloc, Step::Settle)?;
    Ok(draft.finish())
}

fn items_at(alloc: Global, script: &Script, m: u32) -> Result<usize, AllocError>
    requires { m ≤ changes script.now }
{
    Ok(script.history_at(alloc, m)?.items().len())
}

#[test]
fn an_undo_leaves_the_view_and_concerns_every_pipe(rt: HostRuntime) -> Result<(), Fail> {
    let alloc = rt.alloc();
    let script = four_steps(alloc)?;
    assert!(rt; script.changes() == 3);
    assert_eq!(rt; script.view_at(1), Settings::start().view);
    assert_eq!(rt; script.view_at(3), NEXT_VIEW);
    assert!(rt; script.kinds(0, 1).synch && !script.kinds(0, 1).remove);
    assert!(rt; script.kinds(1, 2) == ZOOMED);
    assert!(rt; script.kinds(2, 3).remove);
    assert!(rt; script.concerns(Pipe::Preview, 2, 3) && !script.concerns(Pipe::Preview, 1, 2));
    assert!(rt; script.concerns(Pipe::Full, 1, 2) && !script.concerns(Pipe::Second, 1, 2));
    assert_eq!(rt; items_at(alloc, &script, 1)?, 1);
    assert_eq!(rt; items_at(alloc, &script, 3)?, 0);
    Ok(())
}

// The settings of a session with a second window.
fn with_window() -> Settings
    ensures { IsSettings result }
{
    Settings {
        second: Some(NEXT_VIEW),
        ..Settings::start()
    }
}

#[test]
fn a_second_view_is_of_the_second_window_alone(rt: HostRuntime) -> Result<(), Fail> {
    let alloc = rt.alloc();
    let first = Settings::start().view;
    let mut draft = Draft::start(alloc, with_window(), History::start(alloc)?)?;
    draft.push(alloc, Step::Second(first))?;
    let script = draft.finish();
    assert!(rt; script.settings().has_pipe(Pipe::Second));
    assert!(rt; !Settings::start().has_pipe(Pipe::Second));
    assert!(rt; script.changes() == 1);
    assert_eq!(rt; script.view_at(1), first);
    assert!(rt; script.second_at(0) == Some(NEXT_VIEW) && script.second_at(1) == Some(first));
    assert!(rt; script.kinds(0, 1) == ZOOMED);
    assert!(rt; script.concerns(Pipe::Second, 0, 1) && !script.concerns(Pipe::Full, 0, 1));
    Ok(())
}

#[test]
fn a_reason_names_the_field_by_its_key(rt: HostRuntime) -> Result<(), Fail> {
    let fault = ParamFault {
        field: Field::FlipX,
        at: 0,
        value: -7,
    };
    let text = format!(in rt.alloc(); "{}", Reason::Param(fault))?;
    assert_eq!(rt; text.as_str(), "param flip_x -7");
    let text = format!(in rt.alloc(); "{}", Reason::NoSecond)?;
    assert_eq!(rt; text.as_str(), "no second window");
    Ok(())
}

fn may_be_shared<T: Send + Sync>(_value: &T) -> bool {
    true
}

#[test]
fn threads_may_share_a_script(rt: HostRuntime) -> Result<(), Fail> {
    assert!(rt; may_be_shared(&start(rt.alloc())?.finish()));
    Ok(())
}
