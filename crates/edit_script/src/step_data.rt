//! Steps, as JSON.
ghost use Rattle.std.specs.Prelude.{◌≡◌, ◌≤◌, IfOk, OnOk, None, map};
ghost use Rattle.std.specs.List.{All};
ghost use Rattle.serde_json.specs.View.{view, items_view, items_of};
ghost use Rattle.history.specs.Faults.{values_fault};
ghost use Rattle.edit_steps.specs.Ranges.{IsEditWithin, IsStepWithin};
ghost use Rattle.edit_script.specs.Written.{set_data, select_data, word_data, placed_data, delete_data, edit_data, view_step_data, export_data, thumbnail_data, step_data};
ghost use Rattle.edit_script.specs.Typed.{IsItemTyped, IsEditTyped, IsStepTyped};

use crate::item_data::params_data;
use crate::part_data::{bits_of, box_data, box_or_null};
use edit_steps::Step;
use history::{Edit, Item};
use params::{Module, blend_to_json};
use px::{BoxSize, Depth, View};
use serde_json::{Value, json};
use std::alloc::{AllocError, Global};

#[tactic(auto, unfolding(crate::specs::Written::set_data), using(crate::proofs::TypedLemmas::params_kept, crate::proofs::TypedLemmas::blend_kept))]
fn set_data(alloc: Global, item: &Item) -> Result<Value, AllocError>
    requires { values_fault item.now ≡ None }
    ensures value { IfOk result (λ v. view v ≡ set_data item.now) }
    ensures typed { OnOk result (IsItemTyped item.now) }
{
    let params = params_data(alloc, &item.params)?;
    let blend = blend_to_json(alloc, item.blend.as_ref())?;
    json!(in alloc; {
        "blend": blend,
        "do": "set",
        "enabled": item.enabled,
        "instance": item.instance,
        "module": item.module().name(),
        "params": params,
        "version": item.module().newest()
    })
}

#[tactic(auto, unfolding(crate::specs::Written::select_data))]
fn select_data(alloc: Global, end: u32) -> Result<Value, AllocError>
    ensures { IfOk result (λ v. view v ≡ select_data end) }
{
    json!(in alloc; {"do": "select", "end": end})
}

#[tactic(auto, unfolding(crate::specs::Written::word_data))]
fn word_data(alloc: Global, word: &str) -> Result<Value, AllocError>
    ensures { IfOk result (λ v. view v ≡ word_data word.now) }
{
    json!(in alloc; {"do": word})
}

#[tactic(auto, unfolding(crate::specs::Written::placed_data))]
fn placed_data(
    alloc: Global,
    word: &str,
    module: Module,
    instance: u8,
    place: u32,
) -> Result<Value, AllocError>
    ensures value { IfOk result (λ v. view v ≡ placed_data word.now «module» instance place) }
    ensures instance { instance ≤ 255 }
{
    json!(in alloc; {
        "do": word,
        "instance": instance,
        "module": module.name(),
        "place": place
    })
}

#[tactic(auto, unfolding(crate::specs::Written::delete_data))]
fn delete_data(alloc: Global, module: Module, instance: u8) -> Result<Value, AllocError>
    ensures value { IfOk result (λ v. view v ≡ delete_data «module» instance) }
    ensures instance { instance ≤ 255 }
{
    json!(in alloc; {"do": "delete", "instance": instance, "module": module.name()})
}

fn edit_data(alloc: Global, edit: &Edit) -> Result<Value, AllocError>
    requires { IsEditWithin edit.now }
    ensures value { IfOk result (λ v. view v ≡ edit_data edit.now) }
    ensures typed { OnOk result (IsEditTyped edit.now) }
{
    match edit {
        Edit::Set(item) => set_data(alloc, item),
        Edit::Select { end } => select_data(alloc, *end),
        Edit::Compress => word_data(alloc, "compress"),
        Edit::Add {
            module,
            instance,
            place,
        } => placed_data(alloc, "add", *module, *instance, *place),
        Edit::Delete { module, instance } => delete_data(alloc, *module, *instance),
        Edit::Move {
            module,
            instance,
            place,
        } => placed_data(alloc, "move", *module, *instance, *place),
    }
}

#[tactic(auto, unfolding(crate::specs::Written::view_step_data))]
fn view_step_data(alloc: Global, word: &str, shown: View) -> Result<Value, AllocError>
    ensures { IfOk result (λ v. view v ≡ view_step_data word.now shown) }
{
    json!(in alloc; {
        "cx": shown.cx,
        "cy": shown.cy,
        "do": word,
        "factor": shown.factor,
        "h": shown.h,
        "w": shown.w
    })
}

#[tactic(auto, unfolding(crate::specs::Written::export_data))]
fn export_data(alloc: Global, size: Option<BoxSize>, depth: Depth) -> Result<Value, AllocError>
    ensures { IfOk result (λ v. view v ≡ export_data size depth) }
{
    let size = box_or_null(alloc, size)?;
    json!(in alloc; {"box": size, "depth": bits_of(depth), "do": "export"})
}

#[tactic(auto, unfolding(crate::specs::Written::thumbnail_data))]
fn thumbnail_data(alloc: Global, size: BoxSize) -> Result<Value, AllocError>
    ensures { IfOk result (λ v. view v ≡ thumbnail_data size) }
{
    let size = box_data(alloc, size)?;
    json!(in alloc; {"box": size, "do": "thumbnail"})
}

fn step_data(alloc: Global, step: &Step) -> Result<Value, AllocError>
    requires { IsStepWithin step.now }
    ensures value { IfOk result (λ v. view v ≡ step_data step.now) }
    ensures typed { OnOk result (IsStepTyped step.now) }
{
    match step {
        Step::Edit(edit) => edit_data(alloc, edit),
        Step::Undo => word_data(alloc, "undo"),
        Step::Redo => word_data(alloc, "redo"),
        Step::View(shown) => view_step_data(alloc, "view", *shown),
        Step::Second(shown) => view_step_data(alloc, "second", *shown),
        Step::Export { size, depth } => export_data(alloc, *size, *depth),
        Step::Thumbnail { size } => thumbnail_data(alloc, *size),
        Step::Settle => word_data(alloc, "settle"),
    }
}

/// The JSON forms of steps.
pub(crate) fn steps_data(alloc: Global, steps: &[Step]) -> Result<Vec<Value>, AllocError>
    requires { All IsStepWithin steps.now }
    ensures value { IfOk result (λ v. items_view v.items ≡ items_of (map step_data steps.now)) }
    ensures typed { OnOk result (All IsStepTyped steps.now) }
{
    let mut values = Vec::new(alloc);
    for step in steps {
        values.push(step_data(alloc, step)?)?;
    }
    Ok(values)
}
