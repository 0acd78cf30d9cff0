// What edits do on plain lists of items.
ghost use Rattle.std.specs.Prelude.{◌≡◌, ◌≤◌, ◌<◌, ◌+◌, ◌++◌, ◌∷◌, [], length, take, if◌then◌else◌, vec_len, vec_capacity, IsTrue, IfOk, OnOk, OnErr, count_by};
ghost use Rattle.history.specs.Item.{slot_of, is_of, has_item, last_items, without_items};
ghost use Rattle.history.specs.After.{overwrites};

use crate::items::Item;
use module_order::Slot;
use std::alloc::{AllocError, Global};

// Whether an item of the instance is among them.
fn has_item(items: &[Item], slot: Slot) -> bool
    ensures { result ≡ has_item items.now slot }
{
    items.iter().any(|item| item.slot() == slot)
}

// Whether the item takes the place of the top one.
pub(crate) fn overwrites(items: &[Item], item: &Item) -> bool
    ensures value { result ≡ overwrites items.now item.now }
    ensures some { IsTrue result → 0 < length items.now }
{
    match items.last() {
        Some(top) => top.slot() == item.slot(),
        None => false,
    }
}

// Cuts what stands behind the first `kept` of a list and puts one on top. Memory is wanted only where
// nothing is cut.
pub(crate) fn put_on<T: Copy>(list: &mut Vec<T>, kept: usize, top: T) -> Result<(), AllocError>
    requires { kept ≤ vec_len list.old }
    ensures items { OnOk result (list.new.items ≡ take kept list.old.items ++ top ∷ []) }
    ensures unchanged { OnErr result (list.new.items ≡ list.old.items) }
{
    if kept == list.len() {
        list.reserve(1)?;
    }
    list.truncate(kept);
    list.push_reserved(top);
    Ok(())
}

// Keeps of the first `end` items each instance's last. Their number is wanted in memory before anything
// changes. An order has few instances, so the search among those kept is short.
pub(crate) fn compress(alloc: Global, items: &mut Vec<Item>, end: usize) -> Result<(), AllocError>
    requires { end ≤ vec_len items.old }
    ensures items { OnOk result (items.new.items ≡ last_items (take end items.old.items)) }
    ensures unchanged { OnErr result (items.new.items ≡ items.old.items) }
{
    let mut kept = Vec::with_capacity(alloc, end)?;
    items.truncate(end);
    while let Some(item) = items.pop() {
        keep_last(&mut kept, item);
    }
    kept.reverse();
    *items = kept;
    Ok(())
}

// Keeps an item before those kept, unless one of these is of its instance.
fn keep_last(kept: &mut Vec<Item>, item: Item)
    requires { vec_len kept.old < vec_capacity kept.old }
    ensures items { kept.new.items ≡ (if has_item kept.old.items (slot_of item) then kept.old.items else kept.old.items ++ item ∷ []) }
    ensures len { vec_len kept.new ≤ vec_len kept.old + 1 }
    ensures capacity { vec_capacity kept.new ≡ vec_capacity kept.old }
{
    if !has_item(kept, item.slot()) {
        kept.push_reserved(item);
    }
}

// How many of the items are of the instance.
pub(crate) fn count_items(items: &[Item], slot: Slot) -> usize
    ensures { result ≡ count_by (is_of slot) items.now }
{
    items.iter().filter(|item| item.slot() == slot).count()
}

// Takes the items of the instance out.
pub(crate) fn drop_items(items: &mut Vec<Item>, slot: Slot)
    ensures { items.new.items ≡ without_items items.old.items slot }
{
    items.retain(|item| !(item.slot() == slot));
}

// The same items once more.
pub(crate) fn copy_items(alloc: Global, items: &[Item]) -> Result<Vec<Item>, AllocError>
    ensures { IfOk result (λ copies. copies.items ≡ items.now) }
{
    let mut copies = Vec::with_capacity(alloc, items.len())?;
    for item in items {
        copies.push_reserved(item.copy(alloc)?);
    }
    Ok(copies)
}
