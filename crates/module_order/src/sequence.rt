ghost use Rattle.std.specs.Prelude.{◌≡◌, ◌<◌, ◌↔◌, length, slice_get, None, is_some, IsSome, IfSome, IsOk, IfOk, OnOk, OnErr, Contains, position, insert};

use crate::fault::OrderFault;
use crate::lists::{FIXED, MAX_SLOTS, START, is_fixed, order_fault, place_of, take_out};
use crate::slots::Slot;
use std::alloc::{AllocError, Global};
use std::marker::Model;

/// The order of the module instances: distinct slots, 3 to 64 of them. The first three are instance 0
/// of raw preparation, temperature and demosaic, whose modules have no other instance.
#[derive(Debug, Drop)]
pub struct Order {
    slots: Vec<Slot>,
}

impl Model for Order {
    ghost use Rattle.std.specs.Prelude.{List};
    ghost use Rattle.module_order.specs.declared.slots.Slot.{Slot};

    ghost Value = { List Slot };

    ghost use Rattle.module_order.specs.Order.{IsOrder};

    ghost view = { λ o. o.slots.items };

    ghost invariant = { λ o. IsOrder o.slots.items };
}

impl Order {
    ghost use Rattle.module_order.specs.Slot.{is_slot, has_slot, without, start_slots};
    ghost use Rattle.module_order.specs.Faults.{unless, order_fault, insert_fault, remove_fault, move_fault};
    ghost use Rattle.module_order.specs.Order.{IsOrder};

    /// The order of a new history: modules 0 to 7, instance 0 of each.
    pub fn start(alloc: Global) -> Result<Order, AllocError>
        ensures { IfOk result (λ order. order ≡ start_slots) }
    {
        let slots = Vec::from_slice(alloc, &START)?;
        Ok(Order { slots })
    }

    /// How many slots there are.
    pub fn len(&self) -> usize
        ensures value { result ≡ length self.now }
        ensures order { IsOrder self.now }
    {
        self.slots.len()
    }

    /// The slot at place `i`, counted from 0.
    pub fn at(&self, i: usize) -> Slot
        requires { i < length self.now }
        ensures { slice_get self.now i ≡ Some result }
    {
        self.slots[i]
    }

    /// Where the slot stands. `None` exactly where it isn't there.
    pub fn place(&self, slot: Slot) -> Option<usize>
        ensures value { result ≡ position (is_slot slot) self.now }
        ensures there { IsSome result ↔ Contains self.now slot }
        ensures known { is_some result ≡ has_slot self.now slot }
        ensures slot { IfSome result (λ i. slice_get self.now i ≡ Some slot) }
    {
        place_of(&self.slots, slot)
    }

    /// The order of these slots. `Full` where there are more than 64, else `Rule` where the first three
    /// are not the fixed ones, else the first fault from left to right: `Fixed` at a fixed module,
    /// `Taken` at a slot that stood before. Takes no memory.
    pub fn of(slots: Vec<Slot>) -> Result<Order, OrderFault>
        ensures value { result ≡ unless (order_fault slots.items) slots.items }
        ensures allowed { IsOk result ↔ IsOrder slots.items }
    {
        match order_fault(&slots) {
            Some(fault) => Err(fault),
            None => Ok(Order { slots }),
        }
    }

    /// Whether `slot` may be put in at `place`: refused as `Fixed`, `Taken`, `Full` or `Rule`, tested in
    /// this order. A place is open from 3 to the number of slots.
    pub fn may_insert(&self, slot: Slot, place: usize) -> Result<(), OrderFault>
        ensures { result ≡ unless (insert_fault self.now slot place) tt }
    {
        if is_fixed(slot) {
            return Err(OrderFault::Fixed);
        }
        if self.slots.contains(&slot) {
            return Err(OrderFault::Taken);
        }
        if self.slots.len() >= MAX_SLOTS {
            return Err(OrderFault::Full);
        }
        if place < FIXED || place > self.slots.len() {
            return Err(OrderFault::Rule);
        }
        Ok(())
    }

    /// Whether `slot` may be taken out: refused as `Fixed` or `Missing`, tested in this order.
    pub fn may_remove(&self, slot: Slot) -> Result<(), OrderFault>
        ensures { result ≡ unless (remove_fault self.now slot) tt }
    {
        if is_fixed(slot) {
            return Err(OrderFault::Fixed);
        }
        if !self.slots.contains(&slot) {
            return Err(OrderFault::Missing);
        }
        Ok(())
    }

    /// Whether `slot` may be moved to `place`: refused as `Fixed`, `Missing` or `Rule`, tested in this
    /// order. A place is open from 3 to below the number of slots.
    pub fn may_move(&self, slot: Slot, place: usize) -> Result<(), OrderFault>
        ensures { result ≡ unless (move_fault self.now slot place) tt }
    {
        self.may_remove(slot)?;
        if place < FIXED || place >= self.slots.len() {
            return Err(OrderFault::Rule);
        }
        Ok(())
    }

    /// Puts `slot` in at `place`; the slots from there on move up.
    pub fn insert(&mut self, _alloc: Global, slot: Slot, place: usize) -> Result<(), AllocError>
        requires { insert_fault self.old slot place ≡ None }
        ensures slots { OnOk result (self.new ≡ insert self.old place slot) }
        ensures unchanged { OnErr result (self.new ≡ self.old) }
    {
        self.slots.insert(place, slot)?;
        Ok(())
    }

    /// Takes `slot` out; the others keep their order. Takes no memory.
    pub fn remove(&mut self, slot: Slot)
        requires { remove_fault self.old slot ≡ None }
        ensures { self.new ≡ without self.old slot }
    {
        take_out(&mut self.slots, slot);
    }

    /// Moves `slot` so that it stands at `place`; the others keep their order. Takes no memory.
    pub fn move_to(&mut self, slot: Slot, place: usize)
        requires { move_fault self.old slot place ≡ None }
        ensures { self.new ≡ insert (without self.old slot) place slot }
    {
        take_out(&mut self.slots, slot);
        self.slots.insert(place, slot).unwrap();
    }

    /// Another order of the same slots.
    pub fn copy(&self, alloc: Global) -> Result<Order, AllocError>
        ensures { IfOk result (λ order. order ≡ self.now) }
    {
        let slots = Vec::from_slice(alloc, &self.slots)?;
        Ok(Order { slots })
    }
}
