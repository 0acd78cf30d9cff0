ghost use Rattle.std.specs.Prelude.{◌≡◌, ◌<◌, ◌≤◌, ◌+◌, ◌++◌, IfOk, vec_len, vec_capacity};
ghost use Rattle.std.specs.List.{All};
ghost use Rattle.std.specs.Option.{option_copied, option_to_list};
ghost use Rattle.px.specs.declared.kind.PlaneKind.{PlaneKind};
ghost use Rattle.pipe_nodes.specs.Active.{IsFit};
ghost use Rattle.module_order.specs.Slot.{is_slot};
ghost use Rattle.pipe_nodes.specs.Actives.{demosaic_slot, last_of, active_of, active_at, actives_of};
ghost use Rattle.pipe_nodes.specs.Kinds.{IsRun};

use crate::active::Active;
use history::{History, Item};
use module_order::Slot;
use params::{Module, Params};
use std::alloc::{AllocError, Global};

// Whether it is the slot of demosaic, which has one instance.
pub(crate) fn is_demosaic(slot: Slot) -> bool
    ensures { result ≡ is_slot demosaic_slot slot }
{
    let demosaic = Slot {
        module: Module::Demosaic.number(),
        instance: 0,
    };
    demosaic == slot
}

// The item that was set last of those of the instance, if there is one.
pub(crate) fn last_of(items: &[Item], slot: Slot) -> Option<&Item>
    ensures { option_copied result ≡ last_of slot items.now }
{
    let mut last = None;
    for item in items {
        if item.slot() == slot {
            last = Some(item);
        }
    }
    last
}

// The item's values, where it is enabled.
fn active_of(alloc: Global, item: &Item) -> Result<Option<Active>, AllocError>
    ensures { IfOk result (λ active. active ≡ active_of item.now) }
{
    if !item.enabled {
        return Ok(None);
    }
    Ok(Some(Active {
        instance: item.instance,
        params: params::copy(alloc, &item.params)?,
        blend: item.blend,
    }))
}

// What is active of the instance, by the items that count.
fn active_at(alloc: Global, items: &[Item], slot: Slot) -> Result<Option<Active>, AllocError>
    ensures { IfOk result (λ active. active ≡ active_at items.now slot) }
{
    if is_demosaic(slot) {
        return Ok(Some(Active {
            instance: 0,
            params: Params::Demosaic,
            blend: None,
        }));
    }
    match last_of(items, slot) {
        Some(item) => active_of(alloc, item),
        None => Ok(None),
    }
}

// Puts one more into a list that has room for it, if there is one.
fn keep<T: Drop>(list: &mut Vec<T>, one: Option<T>)
    requires { vec_len list.old < vec_capacity list.old }
    ensures items { list.new.items ≡ list.old.items ++ option_to_list one }
    ensures len { vec_len list.new ≤ vec_len list.old + 1 }
    ensures capacity { vec_capacity list.new ≡ vec_capacity list.old }
{
    if let Some(one) = one {
        list.push_reserved(one);
    }
}

/// What is active in a history, along the order of its instances: of each instance the last item among
/// those that count, where it is enabled. An instance without an item is disabled, and demosaic is
/// always active. So whatever the kind of the picture that a run begins with, each takes what those
/// before it make, and the last makes an RGB picture.
pub fn actives(alloc: Global, history: &History) -> Result<Vec<Active>, AllocError>
    ensures value { IfOk result (λ list. list.items ≡ actives_of history.now) }
    ensures fit { IfOk result (λ list. All IsFit list.items) }
    ensures run { IfOk result (λ list. (k : PlaneKind) → IsRun k list.items) }
{
    let items = &history.items()[..history.end() as usize];
    let order = history.order();
    let mut actives = Vec::with_capacity(alloc, order.len())?;
    for i in 0..order.len() {
        keep(&mut actives, active_at(alloc, items, order.at(i))?);
    }
    Ok(actives)
}
