//! A script from the bytes of its file.
ghost use Rattle.std.specs.Prelude.{◌≡◌, ℕ, List, take, IfOk, IfErr, option_map};
ghost use Rattle.serde_json.specs.View.{view, items_view};
ghost use Rattle.json_form.specs.Text.{text_of as text_in};
ghost use Rattle.edit_steps.specs.Ranges.{IsSettings, IsStepWithin};
ghost use Rattle.edit_script.specs.Binds.{result_and_then};
ghost use Rattle.edit_script.specs.Settings.{settings_in as settings_stated};
ghost use Rattle.edit_script.specs.Step.{step_form as step_stated};
ghost use Rattle.edit_script.specs.Script.{or_text, or_form, or_param, steps_in, step_behind, steps_behind, script_in, script_of};
ghost use Rattle.edit_script.specs.Reads.{IsReadAs, EndsWithoutBadParams};

use crate::faults::{end_at, fault_at};
use crate::opening::opening_at;
use crate::settings_form::settings_in;
use crate::step_form::step_form;
use edit_steps::{Draft, Reason, Script, ScriptEnd, Settings, Step};
use json_form::{TextEnd, value_of};
use params::form::{has_only, items_at};
use serde_json::Value;
use std::alloc::Global;

fn text_of(alloc: Global, bytes: &[u8]) -> Result<Value, ScriptEnd>
    ensures { IsReadAs view result (or_text (text_in bytes.now)) }
{
    match value_of(alloc, bytes) {
        Ok(value) => Ok(value),
        Err(TextEnd::TooLong) => Err(ScriptEnd::Fault(fault_at(0, Reason::TooLong))),
        Err(TextEnd::Text) => Err(ScriptEnd::Fault(fault_at(0, Reason::Text))),
        Err(TextEnd::Memory) => Err(ScriptEnd::Memory),
    }
}

// The list of the steps, of an object that has no keys but those of a script.
fn steps_in(value: &Value) -> Option<&[Value]>
    ensures { option_map (λ v. items_view v.now) result ≡ steps_in (view value.now) }
{
    if !has_only(value, &["settings", "history", "steps"]) {
        return None;
    }
    items_at(value, "steps")
}

#[tactic(auto, using(crate::proofs::ReadLemmas::settings_on_ok))]
fn settings_of(alloc: Global, value: &Value) -> Result<Settings, ScriptEnd>
    ensures read { IsReadAs (λ s. s) result (or_form 0 (settings_stated (view value.now))) }
    ensures within { IfOk result IsSettings }
{
    match settings_in(alloc, value) {
        Ok(settings) => Ok(settings),
        Err(end) => Err(end_at(0, end)),
    }
}

// The step that a value is, at its number.
#[tactic(auto, using(crate::proofs::ReadLemmas::step_on_ok))]
fn step_of(alloc: Global, number: u32, value: &Value) -> Result<Step, ScriptEnd>
    ensures read { IsReadAs (λ s. s) result (result_and_then (or_param number) (or_form number (step_stated (view value.now)))) }
    ensures within { IfOk result IsStepWithin }
{
    match step_form(alloc, value) {
        Ok(Ok(step)) => Ok(step),
        Ok(Err(fault)) => Err(ScriptEnd::Fault(fault_at(number, Reason::Param(fault)))),
        Err(end) => Err(end_at(number, end)),
    }
}

// Puts the step that a value is behind those of the draft.
#[tactic(auto, unfolding(crate::specs::Script::step_behind))]
fn step_behind(alloc: Global, draft: &mut Draft, value: &Value) -> Result<(), ScriptEnd>
    ensures { IsReadAs (λ _. draft.new) result (step_behind draft.old (view value.now)) }
{
    match step_of(alloc, draft.next_step(), value) {
        Ok(step) => draft.push(alloc, step),
        Err(end) => Err(end),
    }
}

fn steps_behind(alloc: Global, draft: &mut Draft, values: &[Value]) -> Result<(), ScriptEnd>
    ensures { IsReadAs (λ _. draft.new) result (steps_behind draft.old (items_view values.now)) }
{
    for value in values {
        step_behind(alloc, draft, value)?;
    }
    Ok(())
}

#[tactic(auto, unfolding(crate::specs::Script::script_in))]
fn script_in(alloc: Global, value: &Value) -> Result<Script, ScriptEnd>
    ensures { IsReadAs (λ s. s) result (script_in (view value.now)) }
{
    let Some(values) = steps_in(value) else {
        return Err(ScriptEnd::Fault(fault_at(0, Reason::Form)));
    };
    let settings = settings_of(alloc, value)?;
    let opening = opening_at(alloc, value.get("history"))?;
    let mut draft = Draft::start(alloc, settings, opening)?;
    steps_behind(alloc, &mut draft, values)?;
    Ok(draft.finish())
}

fn script_of(alloc: Global, bytes: &[u8]) -> Result<Script, ScriptEnd>
    ensures { IsReadAs (λ s. s) result (script_of bytes.now) }
{
    let value = text_of(alloc, bytes)?;
    script_in(alloc, &value)
}

/// Reads a script from the text of a JSON object; the head of this crate tells its form.
///
/// The fault is the first of these. At step 0: `TooLong` over 4,194,304 bytes; `Text` where the bytes are
/// no JSON, or nest more than 127 deep; `Form` of the top, the settings and the history; `Param` of the
/// history's items; `TooManyChanges` over 256 items; `Edit` of the order list, of the items and of the
/// end. Then step by step, with its number from 1: `Form`, `Param`, the limit of its sort, and `Edit`
/// where the history before it doesn't allow it. Of a repeated key the last value counts.
///
/// A value of an edit outside its range is always `Param`, and never `Edit(BadParams)`.
///
/// The front of a longer text, with one byte above the limit, is refused as the whole text is.
pub fn read(alloc: Global, bytes: &[u8]) -> Result<Script, ScriptEnd>
    ensures value { IsReadAs (λ s. s) result (script_of bytes.now) }
    ensures front { (text : List ℕ) → take 4194305 text ≡ bytes.now → IsReadAs (λ s. s) result (script_of text) }
    ensures param { IfErr result EndsWithoutBadParams }
{
    script_of(alloc, bytes)
}
