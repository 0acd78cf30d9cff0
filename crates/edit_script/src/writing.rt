//! A script, as the bytes of its file.
ghost use Rattle.std.specs.Prelude.{◌≡◌, IfOk, OnOk, Ok};
ghost use Rattle.serde_json.specs.View.{view};
ghost use Rattle.serde_json.specs.Written.{compact_text};
ghost use Rattle.edit_steps.specs.Script.{IsScript};
ghost use Rattle.edit_script.specs.Written.{script_data};
ghost use Rattle.edit_script.specs.Typed.{IsTyped};
ghost use Rattle.edit_script.specs.Script.{script_of};

use crate::item_data::history_data;
use crate::part_data::settings_data;
use crate::step_data::steps_data;
use edit_steps::Script;
use serde_json::{Value, json};
use std::alloc::{AllocError, Global};

#[tactic(auto, unfolding(crate::specs::Written::script_data))]
fn script_data(alloc: Global, script: &Script) -> Result<Value, AllocError>
    ensures value { IfOk result (λ v. view v ≡ script_data script.now) }
    ensures valid { OnOk result (IsScript script.now) }
    ensures typed { OnOk result (IsTyped script.now) }
{
    let history = history_data(alloc, script.opening())?;
    let settings = settings_data(alloc, script.settings())?;
    let steps = steps_data(alloc, script.steps())?;
    json!(in alloc; {
        "history": history,
        "settings": settings,
        "steps": steps
    })
}

/// Writes a script as compact JSON, with every key, those that stand at their defaults included; keys
/// stand in the order of their bytes. Read, the text gives the script again.
pub fn write(alloc: Global, script: &Script) -> Result<Vec<u8>, AllocError>
    ensures text { IfOk result (λ text. text.items ≡ compact_text (script_data script.now)) }
    ensures again { IfOk result (λ text. script_of text.items ≡ Ok script.now) }
{
    let value = script_data(alloc, script)?;
    let text = value.to_string(alloc)?;
    // The text is UTF-8, as its reader asks.
    let _utf8 = text.as_str();
    Ok(text.into_bytes())
}
