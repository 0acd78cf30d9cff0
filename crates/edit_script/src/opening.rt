//! The history that a script opens with.
ghost use Rattle.std.specs.Prelude.{◌≡◌, IfOk, option_map, Ok, Some};
ghost use Rattle.serde_json.specs.View.{view};
ghost use Rattle.edit_steps.specs.Ranges.{IsOpening};
ghost use Rattle.edit_script.specs.Binds.{result_and_then};
ghost use Rattle.edit_script.specs.Script.{or_param, few_items, order_of, stack_of, opening_of, start_history, opening_at};
ghost use Rattle.edit_script.specs.Reads.{IsReadAs};
ghost use Rattle.edit_script.specs.Seen.{seen_items, seen_stated};
ghost use Rattle.history.specs.Stack.{stack};

use crate::faults::{end_at, fault_at, of_order};
use crate::form_end::Ranged;
use crate::history_form::{StatedHistory, history_form};
use edit_steps::{MAX_ITEMS, Reason, ScriptEnd, ScriptFault};
use history::{History, Item};
use module_order::{Order, Slot};
use serde_json::Value;
use std::alloc::Global;

fn few_items(kept: Ranged<Vec<Item>>) -> Result<Vec<Item>, ScriptFault>
    ensures { seen_items result ≡ result_and_then few_items (or_param 0 (seen_items kept)) }
{
    match kept {
        Ok(items) => if items.len() > MAX_ITEMS {
            Err(fault_at(0, Reason::TooManyChanges))
        } else {
            Ok(items)
        },
        Err(fault) => Err(fault_at(0, Reason::Param(fault))),
    }
}

fn order_of(slots: Vec<Slot>) -> Result<Order, ScriptFault>
    ensures { result ≡ order_of slots.items }
{
    match Order::of(slots) {
        Ok(order) => Ok(order),
        Err(fault) => Err(fault_at(0, Reason::Edit(of_order(fault)))),
    }
}

fn stack_of(items: Vec<Item>, end: u32, order: Order) -> Result<History, ScriptFault>
    ensures { result ≡ stack_of (stack items.items end order) }
{
    match History::of(items, end, order) {
        Ok(history) => Ok(history),
        Err(fault) => Err(fault_at(0, Reason::Edit(fault))),
    }
}

#[tactic(auto, unfolding(crate::specs::Script::opening_of))]
fn opening_of(stated: StatedHistory) -> Result<History, ScriptFault>
    ensures { result ≡ opening_of (seen_stated stated) }
{
    let items = few_items(stated.items)?;
    let order = order_of(stated.order)?;
    stack_of(items, stated.end, order)
}

fn start_of(alloc: Global) -> Result<History, ScriptEnd>
    ensures { IsReadAs (λ h. h) result (Ok start_history) }
{
    Ok(History::start(alloc)?)
}

fn opening_read(alloc: Global, value: &Value) -> Result<History, ScriptEnd>
    ensures { IsReadAs (λ h. h) result (opening_at (Some (view value.now))) }
{
    let stated = match history_form(alloc, value) {
        Ok(stated) => stated,
        Err(end) => return Err(end_at(0, end)),
    };
    match opening_of(stated) {
        Ok(history) => Ok(history),
        Err(fault) => Err(ScriptEnd::Fault(fault)),
    }
}

/// The opening history, or the start history where no value stands for it.
pub(crate) fn opening_at(alloc: Global, value: Option<&Value>) -> Result<History, ScriptEnd>
    ensures read { IsReadAs (λ h. h) result (opening_at (option_map (λ v. view v.now) value.entry)) }
    ensures within { IfOk result IsOpening }
{
    match value {
        None => start_of(alloc),
        Some(value) => opening_read(alloc, value),
    }
}
