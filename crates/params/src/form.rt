//! Parts of a JSON value, for the forms of settings, scripts and events. A part that hasn't the form
//! asked for is `None`.
ghost use Rattle.std.specs.Prelude.{◌≡◌, ◌≤◌, map, pos, option_map, option_and_then, int_le, ◌&&◌};
ghost use Rattle.serde_json.specs.View.{view, items_view, members_view};
ghost use Rattle.params.specs.Form.{has_only, only, is_one_of, integer, natural, within, integer_at, natural_at, natural_or, bool_at, bool_or, text_at, items_at, value_at, pair, triple, two_items, three_items, two_integers, three_integers};

use serde_json::{Map, Value};

/// Whether the key is one of those.
pub(crate) fn is_one_of(key: &str, keys: &[&str]) -> bool
    ensures { result ≡ is_one_of key.now (map (λ k. k.now) keys.now) }
{
    for each in keys {
        if key == *each {
            return true;
        }
    }
    false
}

/// Whether each member's key is one of those.
fn only(members: &Map<String, Value>, keys: &[&str]) -> bool
    ensures { result ≡ only (map (λ k. k.now) keys.now) (members_view members.now.entries) }
{
    for key in members.keys() {
        if !is_one_of(key.as_str(), keys) {
            return false;
        }
    }
    true
}

/// Whether the value is an object with no key but these.
pub fn has_only(value: &Value, keys: &[&str]) -> bool
    ensures value { result ≡ has_only (map (λ k. k.now) keys.now) (view value.now) }
{
    match value.as_object() {
        Some(members) => only(members, keys),
        None => false,
    }
}

/// The whole number that the value is: one of 64 bits with a sign, written without a point or exponent.
pub fn integer(value: &Value) -> Option<i64>
    ensures value { result ≡ integer (view value.now) }
{
    value.as_i64()
}

fn within(low: u32, high: u32, value: i64) -> Option<u32>
    ensures { result ≡ within low high value }
{
    if i64::from(low) <= value && value <= i64::from(high) {
        Some(value as u32)
    } else {
        None
    }
}

/// The whole number that the value is, where it lies from `low` to `high`, both included.
pub fn natural(value: &Value, low: u32, high: u32) -> Option<u32>
    ensures value { result ≡ natural low high (view value.now) }
{
    within(low, high, integer(value)?)
}

/// The whole number at the key.
pub fn integer_at(value: &Value, key: &str) -> Option<i64>
    ensures value { result ≡ integer_at key.now (view value.now) }
{
    integer(value.get(key)?)
}

/// The whole number at the key, where it lies from `low` to `high`, both included.
pub fn natural_at(value: &Value, key: &str, low: u32, high: u32) -> Option<u32>
    ensures value { result ≡ natural_at key.now low high (view value.now) }
{
    natural(value.get(key)?, low, high)
}

/// The same, where `absent` stands for an absent key.
pub fn natural_or(value: &Value, key: &str, absent: u32, low: u32, high: u32) -> Option<u32>
    ensures value { result ≡ natural_or key.now absent low high (view value.now) }
{
    match value.get(key) {
        None => Some(absent),
        Some(found) => natural(found, low, high),
    }
}

/// The truth value at the key.
pub fn bool_at(value: &Value, key: &str) -> Option<bool>
    ensures value { result ≡ bool_at key.now (view value.now) }
{
    value.get(key)?.as_bool()
}

/// The truth value at the key, where `absent` stands for an absent key.
pub fn bool_or(value: &Value, key: &str, absent: bool) -> Option<bool>
    ensures value { result ≡ bool_or key.now absent (view value.now) }
{
    match value.get(key) {
        None => Some(absent),
        Some(found) => found.as_bool(),
    }
}

/// The text at the key.
pub fn text_at<'v>(value: &'v Value, key: &str) -> Option<&'v str>
    ensures value { option_map (λ s. s.now) result ≡ text_at key.now (view value.now) }
{
    value.get(key)?.as_str()
}

/// The list at the key.
pub fn items_at<'v>(value: &'v Value, key: &str) -> Option<&'v [Value]>
    ensures value { option_map (λ v. items_view v.now) result ≡ items_at key.now (view value.now) }
{
    Some(value.get(key)?.as_array()?.as_slice())
}

/// What stands at the key, where an absent key and null are one.
pub fn value_at<'v>(value: &'v Value, key: &str) -> Option<&'v Value>
    ensures value { option_map (λ v. view v.now) result ≡ value_at key.now (view value.now) }
{
    let found = value.get(key)?;
    if found.is_null() { None } else { Some(found) }
}

/// The two values of a list of two.
#[tactic(auto, using(crate::proofs::FormLemmas::not_two, crate::proofs::FormLemmas::just_two))]
pub fn pair(value: &Value) -> Option<(&Value, &Value)>
    ensures value { option_map (λ p. (view p.0.now, view p.1.now)) result ≡ pair (view value.now) }
{
    let [first, second] = value.as_array()?.as_slice() else {
        return None;
    };
    Some((first, second))
}

/// The three values of a list of three.
#[tactic(auto, using(crate::proofs::FormLemmas::not_three, crate::proofs::FormLemmas::just_three))]
pub fn triple(value: &Value) -> Option<(&Value, &Value, &Value)>
    ensures value { option_map (λ p. (view p.0.now, view p.1.now, view p.2.now)) result
        ≡ triple (view value.now) }
{
    let [first, second, third] = value.as_array()?.as_slice() else {
        return None;
    };
    Some((first, second, third))
}

/// The whole numbers of a list of two.
pub fn two_integers(value: &Value) -> Option<(i64, i64)>
    ensures value { result ≡ two_integers (view value.now) }
{
    let (first, second) = pair(value)?;
    let a = integer(first)?;
    let b = integer(second)?;
    Some((a, b))
}

/// The whole numbers of a list of three.
pub fn three_integers(value: &Value) -> Option<(i64, i64, i64)>
    ensures value { result ≡ three_integers (view value.now) }
{
    let (first, second, third) = triple(value)?;
    let a = integer(first)?;
    let b = integer(second)?;
    let c = integer(third)?;
    Some((a, b, c))
}
