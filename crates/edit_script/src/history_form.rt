//! The JSON form of an opening history.
ghost use Rattle.std.specs.Prelude.{◌≡◌, IfOk};
ghost use Rattle.serde_json.specs.View.{view, items_view};
ghost use Rattle.edit_script.specs.Opening.{with_item, kept_items, slot_form, slots_form, history_form};
ghost use Rattle.edit_script.specs.Reads.{IsFormed};
ghost use Rattle.edit_script.specs.Seen.{seen_items, seen_stated};

use crate::form_end::{FormEnd, Ranged};
use crate::item_form::item_form;
use history::Item;
use module_order::Slot;
use params::form::{has_only, items_at, natural, natural_at, pair};
use params::module_named;
use serde_json::Value;
use std::alloc::{AllocError, Global};

/// The greatest number of an end.
const LAST_END: u32 = 65_535;

// A history that has the form: its items or the first number of them outside its range, its end and its
// order.
#[derive(Drop)]
pub(crate) struct StatedHistory {
    pub items: Ranged<Vec<Item>>,
    pub end: u32,
    pub order: Vec<Slot>,
}

// One more item behind those that were kept, unless there was a fault.
fn and_item<T: Copy>(kept: Ranged<Vec<T>>, item: Ranged<T>) -> Result<Ranged<Vec<T>>, AllocError>
    ensures { IfOk result (λ r. seen_items r ≡ with_item (seen_items kept) item) }
{
    let mut items = match kept {
        Ok(items) => items,
        Err(fault) => return Ok(Err(fault)),
    };
    match item {
        Ok(item) => items.push(item)?,
        Err(fault) => return Ok(Err(fault)),
    }
    Ok(Ok(items))
}

fn kept_items(alloc: Global, values: &[Value]) -> Result<Ranged<Vec<Item>>, FormEnd>
    ensures { IsFormed seen_items result (kept_items (items_view values.now)) }
{
    let mut kept = Ok(Vec::new(alloc));
    for value in values {
        match item_form(alloc, value) {
            Ok(item) => kept = and_item(kept, item)?,
            Err(end) => return Err(end),
        }
    }
    Ok(kept)
}

#[tactic(auto, unfolding(crate::specs::Opening::slot_form))]
fn slot_form(value: &Value) -> Option<Slot>
    ensures { result ≡ slot_form (view value.now) }
{
    let (name, instance) = pair(value)?;
    let module = module_named(name.as_str()?)?;
    let instance = natural(instance, 0, 255)?;
    Some(Slot {
        module: module.number(),
        instance: instance as u8,
    })
}

fn slots_form(alloc: Global, values: &[Value]) -> Result<Vec<Slot>, FormEnd>
    ensures { IsFormed (λ v. v.items) result (slots_form (items_view values.now)) }
{
    let mut slots = Vec::new(alloc);
    for value in values {
        match slot_form(value) {
            Some(slot) => slots.push(slot)?,
            None => return Err(FormEnd::Form),
        }
    }
    Ok(slots)
}

/// The history that a value is, if it has the form.
#[tactic(auto, unfolding(crate::specs::Opening::history_form))]
pub(crate) fn history_form(alloc: Global, value: &Value) -> Result<StatedHistory, FormEnd>
    ensures { IsFormed seen_stated result (history_form (view value.now)) }
{
    if !has_only(value, &["items", "end", "order"]) {
        return Err(FormEnd::Form);
    }
    let values = items_at(value, "items").ok_or(FormEnd::Form)?;
    let items = kept_items(alloc, values)?;
    let end = natural_at(value, "end", 0, LAST_END).ok_or(FormEnd::Form)?;
    let pairs = items_at(value, "order").ok_or(FormEnd::Form)?;
    let order = slots_form(alloc, pairs)?;
    Ok(StatedHistory { items, end, order })
}
