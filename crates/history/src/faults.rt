// The faults of items, of a whole history and of edits.
ghost use Rattle.std.specs.Prelude.{◌≡◌, option_map};
ghost use Rattle.module_order.specs.Faults.{find_map, unless};
ghost use Rattle.history.specs.Faults.{is_demosaic, values_fault, item_fault, end_fault, stack_fault, of_order};
ghost use Rattle.history.specs.Stack.{stack};

use crate::fault::EditFault;
use crate::items::Item;
use module_order::{Order, OrderFault};
use params::{Module, ParamFault, check, check_blend};

fn is_demosaic(module: Module) -> bool
    ensures { result ≡ is_demosaic «module» }
{
    matches!(module, Module::Demosaic)
}

// The first number out of its range: of the parameters, then of the blend.
fn values_fault(item: &Item) -> Option<ParamFault>
    ensures { result ≡ values_fault item.now }
{
    if let Err(fault) = check(&item.params) {
        return Some(fault);
    }
    check_blend(item.module(), item.blend.as_ref()).err()
}

// Why the item can't stand in a history of this order.
pub(crate) fn item_fault(order: &Order, item: &Item) -> Option<EditFault>
    ensures { result ≡ item_fault order.now item.now }
{
    if is_demosaic(item.module()) {
        return Some(EditFault::FixedModule);
    }
    if order.place(item.slot()).is_none() {
        return Some(EditFault::NoInstance);
    }
    match values_fault(item) {
        Some(fault) => Some(EditFault::BadParams(fault)),
        None => None,
    }
}

// The first fault of the items, from left to right.
fn items_fault(order: &Order, items: &[Item]) -> Option<EditFault>
    ensures { result ≡ find_map (item_fault order.now) items.now }
{
    for item in items {
        if let Some(fault) = item_fault(order, item) {
            return Some(fault);
        }
    }
    None
}

// Why so many of the items can't count.
pub(crate) fn end_fault(items: &[Item], end: u32) -> Option<EditFault>
    ensures { result ≡ end_fault items.now end }
{
    if end as usize > items.len() {
        return Some(EditFault::EndPast);
    }
    None
}

// Why items, an end and an order are no history.
pub(crate) fn stack_fault(order: &Order, items: &[Item], end: u32) -> Option<EditFault>
    ensures { result ≡ stack_fault (stack items.now end order.now) }
{
    match items_fault(order, items) {
        Some(fault) => Some(fault),
        None => end_fault(items, end),
    }
}

// A fault of the order, as an edit's.
pub(crate) fn of_order(fault: OrderFault) -> EditFault
    ensures { result ≡ of_order fault }
{
    match fault {
        OrderFault::Full => EditFault::TooManyInstances,
        OrderFault::Rule => EditFault::OrderRule,
        OrderFault::Fixed => EditFault::FixedModule,
        OrderFault::Taken => EditFault::InstanceTaken,
        OrderFault::Missing => EditFault::NoInstance,
    }
}

// Refuses with the fault, if there is one.
pub(crate) fn refuse(fault: Option<EditFault>) -> Result<(), EditFault>
    ensures { result ≡ unless fault tt }
{
    match fault {
        Some(fault) => Err(fault),
        None => Ok(()),
    }
}
