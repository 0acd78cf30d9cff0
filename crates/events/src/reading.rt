//! Events from the bytes of their file.
ghost use Rattle.std.specs.Prelude.{◌≡◌, ℕ, ◌≤◌, List, length, take, IfOk};
ghost use Rattle.serde_json.specs.View.{view, items_view};
ghost use Rattle.json_form.specs.Text.{text_of as text_in};
ghost use Rattle.events.specs.Events.{fault_at, or_text, event_at, events_from, list_of, events_of};
ghost use Rattle.events.specs.Reads.{IsReadAs};

use crate::event::Event;
use crate::fault::{EventReason, EventsEnd, EventsFault};
use crate::form::event_of;
use json_form::{TextEnd, value_of};
use serde_json::Value;
use std::alloc::Global;

/// How many events there are at most.
const MOST_EVENTS: u32 = 65_536;

fn fault_at(place: u32, reason: EventReason) -> EventsFault
    ensures { result ≡ fault_at place reason }
{
    EventsFault { place, reason }
}

fn text_of(alloc: Global, bytes: &[u8]) -> Result<Value, EventsEnd>
    ensures { IsReadAs view result (or_text (text_in bytes.now)) }
{
    match value_of(alloc, bytes) {
        Ok(value) => Ok(value),
        Err(TextEnd::TooLong) => Err(EventsEnd::Fault(fault_at(0, EventReason::TooLong))),
        Err(TextEnd::Text) => Err(EventsEnd::Fault(fault_at(0, EventReason::Text))),
        Err(TextEnd::Memory) => Err(EventsEnd::Memory),
    }
}

// The event that a value is, at its place from 1.
fn event_at(place: u32, value: &Value) -> Result<Event, EventsEnd>
    ensures read { IsReadAs (λ e. e) result (event_at place (view value.now)) }
    ensures few { IfOk result (λ _. place ≤ 65536) }
{
    if place > MOST_EVENTS {
        return Err(EventsEnd::Fault(fault_at(place, EventReason::TooMany)));
    }
    match event_of(value) {
        Some(event) => Ok(event),
        None => Err(EventsEnd::Fault(fault_at(place, EventReason::Form))),
    }
}

fn events_in(alloc: Global, values: &[Value]) -> Result<Vec<Event>, EventsEnd>
    ensures read { IsReadAs (λ v. v.items) result (events_from 1 (items_view values.now)) }
    ensures few { IfOk result (λ v. length v.items ≤ 65536) }
{
    let mut events = Vec::with_capacity(alloc, values.len().min(MOST_EVENTS as usize))?;
    for value in values {
        let event = event_at(events.len() as u32 + 1, value)?;
        events.push(event)?;
    }
    Ok(events)
}

fn list_of(alloc: Global, value: &Value) -> Result<Vec<Event>, EventsEnd>
    ensures read { IsReadAs (λ v. v.items) result (list_of (view value.now)) }
    ensures few { IfOk result (λ v. length v.items ≤ 65536) }
{
    match value.as_array() {
        Some(values) => events_in(alloc, values),
        None => Err(EventsEnd::Fault(fault_at(0, EventReason::Form))),
    }
}

fn events_of(alloc: Global, bytes: &[u8]) -> Result<Vec<Event>, EventsEnd>
    ensures read { IsReadAs (λ v. v.items) result (events_of bytes.now) }
    ensures few { IfOk result (λ v. length v.items ≤ 65536) }
{
    let value = text_of(alloc, bytes)?;
    list_of(alloc, &value)
}

/// Reads events from the text of a JSON list; the head of this crate tells its form.
///
/// The fault is the first of these. At place 0: `TooLong` over 4,194,304 bytes; `Text` where the bytes
/// are no JSON, or nest more than 127 deep; `Form` where the top is no list. Then event by event, with
/// its place from 1: `Form` where it has no form of an event, and `TooMany` at place 65,537, whatever
/// stands there. It never is `NotAllowed`.
///
/// The front of a longer text, with one byte above the limit, is refused as the whole text is.
pub fn read_events(alloc: Global, bytes: &[u8]) -> Result<Vec<Event>, EventsEnd>
    ensures answer { IsReadAs (λ v. v.items) result (events_of bytes.now) }
    ensures few { IfOk result (λ v. length v.items ≤ 65536) }
    ensures front { (text : List ℕ) → take 4194305 text ≡ bytes.now → IsReadAs (λ v. v.items) result (events_of text) }
{
    events_of(alloc, bytes)
}
