// What the calls do on plain lists of entries.
ghost use Rattle.std.specs.Prelude.{◌≡◌, ◌+◌, ◌<◌, ◌∷◌, vec_len, vec_capacity};
ghost use Rattle.mip_cache.specs.Mipmaps.{held_at, without, with_held, is_free, evict_answer};

use crate::entry::{Entry, Held};

// How the level is held.
pub(crate) fn held_at(entries: &[Entry], level: u8) -> Option<Held>
    ensures { result ≡ held_at level entries.now }
{
    for entry in entries {
        if entry.level == level {
            return Some(entry.held);
        }
    }
    None
}

// Whether the entry's level is written and nobody reads it.
fn is_free(entry: &Entry) -> bool
    ensures { result ≡ is_free entry.now }
{
    match entry.held {
        Held::Ready { readers } => readers == 0,
        Held::Writing { .. } => false,
    }
}

// The level of the last entry that is free.
pub(crate) fn last_free(entries: &[Entry]) -> Option<u8>
    ensures { result ≡ evict_answer entries.now }
{
    let mut last = None;
    for entry in entries {
        if is_free(entry) {
            last = Some(entry.level);
        }
    }
    last
}

// Sets how the level is held.
pub(crate) fn set_held(entries: &mut Vec<Entry>, level: u8, held: Held)
    ensures items { entries.new.items ≡ with_held level held entries.old.items }
    ensures capacity { vec_capacity entries.new ≡ vec_capacity entries.old }
{
    for entry in entries.iter_mut() {
        if entry.level == level {
            entry.held = held;
        }
    }
}

// Takes the level out.
pub(crate) fn take_out(entries: &mut Vec<Entry>, level: u8)
    ensures items { entries.new.items ≡ without level entries.old.items }
    ensures capacity { vec_capacity entries.new ≡ vec_capacity entries.old }
{
    entries.retain(|entry| !(entry.level == level));
}

// Puts the entry in front of the others.
pub(crate) fn put_first(entries: &mut Vec<Entry>, entry: Entry)
    requires { vec_len entries.old < vec_capacity entries.old }
    ensures items { entries.new.items ≡ entry ∷ entries.old.items }
    ensures capacity { vec_capacity entries.new ≡ vec_capacity entries.old }
{
    entries.insert(0, entry).unwrap();
}
