//! Items and opening histories, as JSON.
ghost use Rattle.std.specs.Prelude.{◌≡◌, ◌≤◌, IfOk, OnOk, Ok, None, map, length};
ghost use Rattle.std.specs.List.{All};
ghost use Rattle.serde_json.specs.View.{view, items_view, items_of};
ghost use Rattle.params.specs.Names.{last_number};
ghost use Rattle.params.specs.Ranges.{IsWithin, check_of};
ghost use Rattle.params.specs.Written.{params_data as params_seen};
ghost use Rattle.history.specs.Faults.{values_fault};
ghost use Rattle.edit_steps.specs.Ranges.{IsOpening};
ghost use Rattle.edit_script.specs.Written.{item_data, module_numbered, slot_data, history_data};
ghost use Rattle.edit_script.specs.Typed.{IsItemTyped, IsOrderTyped, IsHistoryTyped};

use history::{History, Item};
use module_order::{Order, Slot};
use params::{MODULES, Module, Params, blend_to_json, check, to_json};
use serde_json::{Value, json};
use std::alloc::{AllocError, Global};

// Settings that have no fault. The check says that they are within their ranges, as the writer asks.
pub(crate) fn params_data(alloc: Global, params: &Params) -> Result<Value, AllocError>
    requires { check_of params.now ≡ Ok tt }
    ensures value { IfOk result (λ v. view v ≡ params_seen params.now) }
    ensures within { IsWithin params.now }
{
    let _kept = check(params);
    to_json(alloc, params)
}

#[tactic(auto, unfolding(crate::specs::Written::item_data), using(crate::proofs::TypedLemmas::params_kept, crate::proofs::TypedLemmas::blend_kept))]
fn item_data(alloc: Global, item: &Item) -> Result<Value, AllocError>
    requires { values_fault item.now ≡ None }
    ensures value { IfOk result (λ v. view v ≡ item_data item.now) }
    ensures typed { OnOk result (IsItemTyped item.now) }
{
    let params = params_data(alloc, &item.params)?;
    let blend = blend_to_json(alloc, item.blend.as_ref())?;
    json!(in alloc; {
        "blend": blend,
        "enabled": item.enabled,
        "instance": item.instance,
        "module": item.module().name(),
        "params": params,
        "version": item.module().newest()
    })
}

fn items_data(alloc: Global, items: &[Item]) -> Result<Vec<Value>, AllocError>
    requires { All (λ item. values_fault item ≡ None) items.now }
    ensures value { IfOk result (λ v. items_view v.items ≡ items_of (map item_data items.now)) }
    ensures typed { OnOk result (All IsItemTyped items.now) }
{
    let mut values = Vec::new(alloc);
    for item in items {
        values.push(item_data(alloc, item)?)?;
    }
    Ok(values)
}

// The module of a number.
fn module_numbered(number: u8) -> Module
    requires { number ≤ last_number }
    ensures { result ≡ module_numbered number }
{
    MODULES[usize::from(number)]
}

fn slot_data(alloc: Global, slot: Slot) -> Result<Value, AllocError>
    requires { slot.module ≤ last_number }
    ensures value { IfOk result (λ v. view v ≡ slot_data slot) }
    ensures instance { slot.instance ≤ 255 }
{
    json!(in alloc; [module_numbered(slot.module).name(), slot.instance])
}

fn order_data(alloc: Global, order: &Order) -> Result<Vec<Value>, AllocError>
    requires { All (λ s. s.module ≤ last_number) order.now }
    ensures value { IfOk result (λ v. items_view v.items ≡ items_of (map slot_data order.now)) }
    ensures typed { OnOk result (IsOrderTyped order.now) }
{
    let mut values = Vec::new(alloc);
    for place in 0..order.len() {
        values.push(slot_data(alloc, order.at(place))?)?;
    }
    Ok(values)
}

/// The JSON form of an opening history.
#[tactic(auto, unfolding(crate::specs::Written::history_data), using(crate::proofs::TypedLemmas::items_kept))]
pub(crate) fn history_data(alloc: Global, history: &History) -> Result<Value, AllocError>
    requires { IsOpening history.now }
    ensures value { IfOk result (λ v. view v ≡ history_data history.now) }
    ensures typed { OnOk result (IsHistoryTyped history.now) }
{
    let items = items_data(alloc, history.items())?;
    let order = order_data(alloc, history.order())?;
    json!(in alloc; {
        "end": history.end(),
        "items": items,
        "order": order
    })
}
