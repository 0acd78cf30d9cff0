//! How many instances are active in a history.
ghost use Rattle.std.specs.Prelude.{◌≡◌, ◌≤◌, length};
ghost use Rattle.std.specs.Option.{option_to_list};
ghost use Rattle.pipe_nodes.specs.Actives.{active_of, active_at, actives_of};

use crate::gather::{is_demosaic, last_of};
use history::{History, Item};
use module_order::Slot;

// How many are active of the instance: one or none.
fn active_in(items: &[Item], slot: Slot) -> u32
    ensures count { result ≡ length (option_to_list (active_at items.now slot)) }
    ensures few { result ≤ 1 }
{
    if is_demosaic(slot) {
        return 1;
    }
    match last_of(items, slot) {
        Some(item) => is_enabled(item),
        None => 0,
    }
}

// One where the item is enabled.
fn is_enabled(item: &Item) -> u32
    ensures count { result ≡ length (option_to_list (active_of item.now)) }
    ensures few { result ≤ 1 }
{
    if item.enabled { 1 } else { 0 }
}

/// How many are active in a history: at most one for each slot of the order, so at most 64. Takes no
/// memory.
pub fn active_count(history: &History) -> u32
    ensures count { result ≡ length (actives_of history.now) }
    ensures few { result ≤ 64 }
{
    let items = &history.items()[..history.end() as usize];
    let order = history.order();
    let mut count = 0;
    for i in 0..order.len() {
        count += active_in(items, order.at(i));
    }
    count
}
