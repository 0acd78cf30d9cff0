ghost use Rattle.std.specs.Prelude.{◌≡◌, None, IfOk, OnOk, OnErr, IsOk, ◌↔◌};

use crate::changes::Kind;
use crate::edits::Edit;
use crate::fault::EditFault;
use crate::faults::{end_fault, item_fault, of_order, refuse, stack_fault};
use crate::items::{Item, slot_at};
use crate::lists::{compress, copy_items, count_items, drop_items, overwrites, put_on};
use module_order::{Order, Slot};
use std::alloc::{AllocError, Global};
use std::marker::Model;

/// Items of module settings, in the order in which they were set; how many of them count; and the order
/// of the module instances. No item is of demosaic, each one's instance stands in the order, and its
/// values are within their ranges.
#[derive(Debug, Drop)]
pub struct History {
    items: Vec<Item>,
    end: u32,
    order: Order,
}

impl Model for History {
    ghost use Rattle.history.specs.Stack.{Stack, stack};

    ghost Value = { Stack };

    ghost use Rattle.history.specs.History.{IsHistory};

    ghost view = { λ h. stack h.items.items h.end h.order };

    ghost invariant = { λ h. IsHistory (stack h.items.items h.end h.order) };
}

impl History {
    ghost use Rattle.std.specs.Prelude.{[]};
    ghost use Rattle.module_order.specs.Slot.{start_slots};
    ghost use Rattle.module_order.specs.Faults.{unless, insert_fault, remove_fault, move_fault};
    ghost use Rattle.history.specs.Stack.{stack};
    ghost use Rattle.history.specs.History.{IsHistory};
    ghost use Rattle.history.specs.Faults.{stack_fault, edit_fault, item_fault, end_fault};
    ghost use Rattle.history.specs.After.{after, kind_of, after_set, set_kind, after_select, after_compress, after_add, after_delete, after_move};

    /// The history of a picture without edits: no items, and each module once in its start order.
    pub fn start(alloc: Global) -> Result<History, AllocError>
        ensures { IfOk result (λ h. h ≡ stack [] 0 start_slots) }
    {
        Ok(History {
            items: Vec::new(alloc),
            end: 0,
            order: Order::start(alloc)?,
        })
    }

    /// The history of these items, of which the first `end` count, over this order. The faults of the
    /// items come from left to right: `FixedModule` at demosaic, `NoInstance`, `BadParams`; then
    /// `EndPast`. Takes no memory.
    pub fn of(items: Vec<Item>, end: u32, order: Order) -> Result<History, EditFault>
        ensures value { let h = stack items.items end order in result ≡ unless (stack_fault h) h }
        ensures allowed { IsOk result ↔ IsHistory (stack items.items end order) }
    {
        match stack_fault(&order, &items, end) {
            Some(fault) => Err(fault),
            None => Ok(History { items, end, order }),
        }
    }

    /// The items, in the order in which they were set; those from the end on don't count.
    pub fn items(&self) -> &[Item]
        ensures value { result.now ≡ self.now.items }
        ensures history { IsHistory self.now }
    {
        &self.items
    }

    /// How many of the items count.
    pub fn end(&self) -> u32
        ensures { result ≡ self.now.end }
    {
        self.end
    }

    /// The order of the instances.
    pub fn order(&self) -> &Order
        ensures { result.now ≡ self.now.order }
    {
        &self.order
    }

    /// The same history once more.
    pub fn copy(&self, alloc: Global) -> Result<History, AllocError>
        ensures { IfOk result (λ h. h ≡ self.now) }
    {
        let items = copy_items(alloc, &self.items)?;
        let order = self.order.copy(alloc)?;
        Ok(History {
            items,
            end: self.end,
            order,
        })
    }

    /// Whether the edit may be applied; else its first fault. A set is tested for `FixedModule` at
    /// demosaic, `NoInstance` and `BadParams`, parameters before the blend; a select for `EndPast`; an
    /// add for `FixedModule`, `InstanceTaken`, `TooManyInstances` and `OrderRule`; a delete for
    /// `FixedModule` and `NoInstance`; a move for these and `OrderRule`.
    pub fn allowed(&self, edit: &Edit) -> Result<(), EditFault>
        ensures { result ≡ unless (edit_fault self.now edit.now) tt }
    {
        match edit {
            Edit::Set(item) => refuse(item_fault(&self.order, item)),
            Edit::Select { end } => refuse(end_fault(&self.items, *end)),
            Edit::Compress => Ok(()),
            Edit::Add {
                module,
                instance,
                place,
            } => self
                .order
                .may_insert(slot_at(*module, *instance), *place as usize)
                .map_err(of_order),
            Edit::Delete { module, instance } => self
                .order
                .may_remove(slot_at(*module, *instance))
                .map_err(of_order),
            Edit::Move {
                module,
                instance,
                place,
            } => self
                .order
                .may_move(slot_at(*module, *instance), *place as usize)
                .map_err(of_order),
        }
    }

    /// Applies an edit that is allowed, and tells the kind of change. On want of memory the history is as
    /// before. A stack holds at most 4,294,967,295 items that count; one more is want of memory.
    pub fn apply(&mut self, alloc: Global, edit: &Edit) -> Result<Kind, AllocError>
        requires { edit_fault self.old edit.now ≡ None }
        ensures history { OnOk result (self.new ≡ after self.old edit.now) }
        ensures kind { IfOk result (λ kind. kind ≡ kind_of self.old edit.now) }
        ensures unchanged { OnErr result (self.new ≡ self.old) }
    {
        match edit {
            Edit::Set(item) => self.set(item),
            Edit::Select { end } => {
                self.select(*end);
                Ok(Kind::Synch)
            }
            Edit::Compress => {
                self.compress(alloc)?;
                Ok(Kind::Synch)
            }
            Edit::Add {
                module,
                instance,
                place,
            } => {
                self.add(alloc, slot_at(*module, *instance), *place as usize)?;
                Ok(Kind::Remove)
            }
            Edit::Delete { module, instance } => {
                self.delete(slot_at(*module, *instance));
                Ok(Kind::Remove)
            }
            Edit::Move {
                module,
                instance,
                place,
            } => {
                self.move_to(slot_at(*module, *instance), *place as usize);
                Ok(Kind::Remove)
            }
        }
    }

    fn set(&mut self, item: &Item) -> Result<Kind, AllocError>
        requires { item_fault self.old.order item.now ≡ None }
        ensures history { OnOk result (self.new ≡ after_set self.old item.now) }
        ensures kind { IfOk result (λ kind. kind ≡ set_kind self.old item.now) }
        ensures unchanged { OnErr result (self.new ≡ self.old) }
    {
        let end = self.end as usize;
        if overwrites(&self.items[..end], item) {
            put_on(&mut self.items, end - 1, *item)?;
            return Ok(Kind::Top);
        }
        if self.end == u32::MAX {
            return Err(AllocError);
        }
        put_on(&mut self.items, end, *item)?;
        self.end += 1;
        Ok(Kind::Synch)
    }

    fn select(&mut self, end: u32)
        requires { end_fault self.old.items end ≡ None }
        ensures { self.new ≡ after_select self.old end }
    {
        self.end = end;
    }

    fn compress(&mut self, alloc: Global) -> Result<(), AllocError>
        ensures history { OnOk result (self.new ≡ after_compress self.old) }
        ensures unchanged { OnErr result (self.new ≡ self.old) }
    {
        compress(alloc, &mut self.items, self.end as usize)?;
        self.end = self.items.len() as u32;
        Ok(())
    }

    fn add(&mut self, alloc: Global, slot: Slot, place: usize) -> Result<(), AllocError>
        requires { insert_fault self.old.order slot place ≡ None }
        ensures history { OnOk result (self.new ≡ after_add self.old slot place) }
        ensures unchanged { OnErr result (self.new ≡ self.old) }
    {
        self.order.insert(alloc, slot, place)?;
        Ok(())
    }

    fn delete(&mut self, slot: Slot)
        requires { remove_fault self.old.order slot ≡ None }
        ensures { self.new ≡ after_delete self.old slot }
    {
        let gone = count_items(&self.items[..self.end as usize], slot);
        drop_items(&mut self.items, slot);
        self.end -= gone as u32;
        self.order.remove(slot);
    }

    fn move_to(&mut self, slot: Slot, place: usize)
        requires { move_fault self.old.order slot place ≡ None }
        ensures { self.new ≡ after_move self.old slot place }
    {
        self.order.move_to(slot, place);
    }
}
