// The form of one event.
ghost use Rattle.std.specs.Prelude.{◌≡◌, map};
ghost use Rattle.serde_json.specs.View.{view, items_view};
ghost use Rattle.params.specs.Form.{among};
ghost use Rattle.events.specs.Words.{pipe_named, event_named};
ghost use Rattle.events.specs.Forms.{worker_in, ticket_in, pipe_in, alone, with_third, event_of_one, event_of_two, event_of_three, event_of_parts, event_of};

use crate::event::Event;
use outside::Pipe;
use params::form::natural;
use serde_json::Value;

fn pipe_named(word: &str) -> Option<Pipe>
    ensures { result ≡ pipe_named word.now }
{
    match word {
        "full" => Some(Pipe::Full),
        "preview" => Some(Pipe::Preview),
        "second" => Some(Pipe::Second),
        _ => None,
    }
}

// The event beside the word.
fn among(rows: &[(&str, Event)], word: &str) -> Option<Event>
    ensures { result ≡ among (map (λ r. (r.0.now, r.1)) rows.now) word.now }
{
    for (name, event) in rows {
        if word == *name {
            return Some(*event);
        }
    }
    None
}

// What a word says that a worker does, of all that needs no more than the worker.
#[tactic(auto, unfolding(crate::specs::Words::event_named))]
fn event_named(word: &str, worker: u32) -> Option<Event>
    ensures { result ≡ event_named word.now worker }
{
    let rows = [
        ("look", Event::Look { worker }),
        ("restart", Event::Restart { worker }),
        ("find", Event::Find { worker }),
        ("reach", Event::Reach { worker }),
        ("evict", Event::Evict { worker }),
        ("demote", Event::Demote { worker }),
        ("abandon", Event::Abandon { worker }),
        ("load", Event::Load { worker }),
        ("leave", Event::Leave { worker }),
        ("node", Event::Node { worker }),
        ("keep", Event::Keep { worker }),
        ("finish", Event::Finish { worker }),
        ("publish", Event::Publish { worker }),
        ("finish_ticket", Event::FinishTicket { worker }),
        ("give_back", Event::GiveBack { worker }),
    ];
    among(&rows, word)
}

fn worker_in(value: &Value) -> Option<u32>
    ensures { result ≡ worker_in (view value.now) }
{
    natural(value, 0, 4)
}

fn ticket_in(value: &Value) -> Option<u32>
    ensures { result ≡ ticket_in (view value.now) }
{
    natural(value, 0, 65_535)
}

fn pipe_in(value: &Value) -> Option<Pipe>
    ensures { result ≡ pipe_in (view value.now) }
{
    pipe_named(value.as_str()?)
}

fn alone(word: &str) -> Option<Event>
    ensures { result ≡ alone word.now }
{
    if word == "editor" {
        Some(Event::Editor)
    } else {
        None
    }
}

fn with_third(word: &str, worker: u32, third: &Value) -> Option<Event>
    ensures { result ≡ with_third word.now worker (view third.now) }
{
    if word == "take" {
        let pipe = pipe_in(third)?;
        Some(Event::Take { worker, pipe })
    } else if word == "take_ticket" {
        let ticket = ticket_in(third)?;
        Some(Event::TakeTicket { worker, ticket })
    } else {
        None
    }
}

fn event_of_one(word: &Value) -> Option<Event>
    ensures { result ≡ event_of_one (view word.now) }
{
    alone(word.as_str()?)
}

fn event_of_two(word: &Value, worker: &Value) -> Option<Event>
    ensures { result ≡ event_of_two (view word.now) (view worker.now) }
{
    event_named(word.as_str()?, worker_in(worker)?)
}

fn event_of_three(word: &Value, worker: &Value, third: &Value) -> Option<Event>
    ensures { result ≡ event_of_three (view word.now) (view worker.now) (view third.now) }
{
    with_third(word.as_str()?, worker_in(worker)?, third)
}

#[tactic(auto, using(crate::proofs::FormLemmas::one_part, crate::proofs::FormLemmas::other_parts))]
fn event_of_parts(parts: &[Value]) -> Option<Event>
    ensures { result ≡ event_of_parts (items_view parts.now) }
{
    match parts {
        [word] => event_of_one(word),
        [word, worker] => event_of_two(word, worker),
        [word, worker, third] => event_of_three(word, worker, third),
        _ => None,
    }
}

// The event that a value is.
#[tactic(auto, unfolding(crate::specs::Forms::event_of))]
pub(crate) fn event_of(value: &Value) -> Option<Event>
    ensures { result ≡ event_of (view value.now) }
{
    event_of_parts(value.as_array()?.as_slice())
}
