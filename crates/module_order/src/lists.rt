// What the order's calls do on plain lists of slots.
ghost use Rattle.std.specs.Prelude.{◌≡◌, ◌≤◌, ◌+◌, ◌↔◌, length, slice_get, position, Contains, IsTrue, IsSome, IfSome, vec_len, vec_capacity};
ghost use Rattle.module_order.specs.Slot.{is_fixed, is_slot, has_slot, without};
ghost use Rattle.module_order.specs.Order.{AreDistinct};
ghost use Rattle.module_order.specs.Faults.{order_fault, first_fault, slot_fault};

use crate::fault::OrderFault;
use crate::slots::Slot;

/// How many slots an order has at most.
pub const MAX_SLOTS: usize = 64;

/// How many slots stand fixed at the front of each order.
pub const FIXED: usize = 3;

pub(crate) const START: [Slot; 8] = [
    Slot {
        module: 0,
        instance: 0,
    },
    Slot {
        module: 1,
        instance: 0,
    },
    Slot {
        module: 2,
        instance: 0,
    },
    Slot {
        module: 3,
        instance: 0,
    },
    Slot {
        module: 4,
        instance: 0,
    },
    Slot {
        module: 5,
        instance: 0,
    },
    Slot {
        module: 6,
        instance: 0,
    },
    Slot {
        module: 7,
        instance: 0,
    },
];

// Whether the slot is of a module that stands at a fixed place.
pub(crate) fn is_fixed(slot: Slot) -> bool
    ensures { result ≡ is_fixed slot }
{
    usize::from(slot.module) < FIXED
}

// Why the list is no order.
pub(crate) fn order_fault(slots: &[Slot]) -> Option<OrderFault>
    ensures { result ≡ order_fault slots.now }
{
    if slots.len() > MAX_SLOTS {
        return Some(OrderFault::Full);
    }
    if !slots.starts_with(&START[..FIXED]) {
        return Some(OrderFault::Rule);
    }
    first_fault(slots)
}

// The first fault from left to right, of the slots behind the fixed ones.
fn first_fault(slots: &[Slot]) -> Option<OrderFault>
    ensures { result ≡ first_fault slots.now }
{
    for i in FIXED..slots.len() {
        if let Some(fault) = slot_fault(&slots[..i], slots[i]) {
            return Some(fault);
        }
    }
    None
}

// The fault of a slot behind those before it.
fn slot_fault(before: &[Slot], slot: Slot) -> Option<OrderFault>
    ensures { result ≡ slot_fault before.now slot }
{
    if is_fixed(slot) {
        return Some(OrderFault::Fixed);
    }
    if before.contains(&slot) {
        return Some(OrderFault::Taken);
    }
    None
}

// Where the slot stands first.
pub(crate) fn place_of(slots: &[Slot], slot: Slot) -> Option<usize>
    ensures value { result ≡ position (is_slot slot) slots.now }
    ensures there { IsSome result ↔ Contains slots.now slot }
    ensures slot { IfSome result (λ i. slice_get slots.now i ≡ Some slot) }
{
    slots.iter().position(|other| *other == slot)
}

// Takes the slot out of the list in which it stands once.
pub(crate) fn take_out(slots: &mut Vec<Slot>, slot: Slot)
    requires there { IsTrue (has_slot slots.old.items slot) }
    requires distinct { AreDistinct slots.old.items }
    ensures items { slots.new.items ≡ without slots.old.items slot }
    ensures one_less { length (without slots.old.items slot) + 1 ≡ length slots.old.items }
    ensures len { vec_len slots.new + 1 ≡ vec_len slots.old }
    ensures capacity { vec_capacity slots.new ≡ vec_capacity slots.old }
{
    let at = place_of(slots, slot).unwrap();
    let _ = slots.remove(at);
}
