//! The JSON form of a row: what is stated, whatever the ranges.
ghost use Rattle.std.specs.Prelude.{◌≡◌, ◌++◌, [], map, option_map, IsTrue};
ghost use Rattle.serde_json.specs.View.{view, items_view, members_view};
ghost use Rattle.params.specs.Form.{is_one_of, only, has_only};
ghost use Rattle.params.specs.Stated.{keys_of, pairs_form, nine_form, part_form, cell_form, parts_form, row_form, is_plain_layout, is_plain};
ghost use Rattle.params.specs.Seen.{seen, stated, all_stated, parts_seen};
ghost use Rattle.params.specs.Read.{Gives, form_read};

use crate::fault::JsonEnd;
use crate::form::{integer, is_one_of, three_integers, triple, two_integers};
use crate::part::{Numbers, Stated, Three};
use crate::parts::Parts;
use crate::row::{Cell, Layout};
use serde_json::{Map, Value};
use std::alloc::Global;

fn is_row_key(key: &str, row: &[Cell]) -> bool
    ensures { result ≡ is_one_of key.now (keys_of row.now) }
{
    for cell in row {
        if key == cell.field.name() {
            return true;
        }
    }
    false
}

#[tactic(auto, using(crate::proofs::FormLemmas::one_of_either))]
fn is_key(key: &str, beside: &[&str], row: &[Cell]) -> bool
    ensures { result ≡ is_one_of key.now (map (λ k. k.now) beside.now ++ keys_of row.now) }
{
    is_one_of(key, beside) || is_row_key(key, row)
}

fn only_keys(beside: &[&str], row: &[Cell], members: &Map<String, Value>) -> bool
    ensures { result ≡ only (map (λ k. k.now) beside.now ++ keys_of row.now) (members_view members.now.entries) }
{
    for key in members.keys() {
        if !is_key(key.as_str(), beside, row) {
            return false;
        }
    }
    true
}

fn has_only_keys(beside: &[&str], row: &[Cell], value: &Value) -> bool
    ensures { result ≡ has_only (map (λ k. k.now) beside.now ++ keys_of row.now) (view value.now) }
{
    match value.as_object() {
        Some(members) => only_keys(beside, row, members),
        None => false,
    }
}

fn pairs_form(alloc: Global, values: &[Value]) -> Result<Vec<(i64, i64)>, JsonEnd>
    ensures { Gives (λ v. v.items) result (form_read (pairs_form (items_view values.now))) }
{
    let mut pairs = Vec::new(alloc);
    for value in values {
        let Some(pair) = two_integers(value) else {
            return Err(JsonEnd::Form);
        };
        pairs.push(pair)?;
    }
    Ok(pairs)
}

fn nine_form(value: &Value) -> Option<(Three, Three, Three)>
    ensures { result ≡ nine_form (view value.now) }
{
    let (red, green, blue) = triple(value)?;
    let red = three_integers(red)?;
    let green = three_integers(green)?;
    let blue = three_integers(blue)?;
    Some((red, green, blue))
}

#[tactic(auto, unfolding(crate::specs::Stated::part_form))]
fn plain_part(layout: Layout, value: &Value) -> Option<Numbers<'static>>
    requires { IsTrue (is_plain_layout layout) }
    ensures { option_map seen result ≡ part_form layout (view value.now) }
{
    match layout {
        Layout::One => Some(Numbers::One(integer(value)?)),
        Layout::Three => Some(Numbers::Three(three_integers(value)?)),
        Layout::Nine => Some(Numbers::Nine(nine_form(value)?)),
        Layout::Flag => Some(Numbers::Flag(value.as_bool()?)),
        Layout::Pairs => None,
    }
}

#[tactic(auto, unfolding(crate::specs::Stated::part_form))]
fn part_form(alloc: Global, layout: Layout, value: &Value) -> Result<Stated, JsonEnd>
    ensures { Gives stated result (form_read (part_form layout (view value.now))) }
{
    match layout {
        Layout::Pairs => {
            let Some(values) = value.as_array() else {
                return Err(JsonEnd::Form);
            };
            Ok(Stated::Pairs(pairs_form(alloc, values.as_slice())?))
        }
        Layout::One | Layout::Three | Layout::Nine | Layout::Flag => {
            let Some(numbers) = plain_part(layout, value) else {
                return Err(JsonEnd::Form);
            };
            Ok(Stated::Plain(numbers))
        }
    }
}

fn cell_form(alloc: Global, cell: &Cell, value: &Value) -> Result<Stated, JsonEnd>
    ensures { Gives stated result (form_read (cell_form cell.now (view value.now))) }
{
    let Some(found) = value.get(cell.field.name()) else {
        return Err(JsonEnd::Form);
    };
    part_form(alloc, cell.layout, found)
}

fn parts_form(alloc: Global, row: &[Cell], value: &Value) -> Result<Vec<Stated>, JsonEnd>
    ensures { Gives (λ v. all_stated v.items) result (form_read (parts_form row.now (view value.now))) }
{
    let mut parts = Vec::new(alloc);
    for cell in row {
        parts.push(cell_form(alloc, cell, value)?)?;
    }
    Ok(parts)
}

/// What a value states by a row.
pub(crate) fn row_form(alloc: Global, row: &[Cell], value: &Value) -> Result<Vec<Stated>, JsonEnd>
    ensures { Gives (λ v. all_stated v.items) result (form_read (row_form [] row.now (view value.now))) }
{
    if !has_only_keys(&[], row, value) {
        return Err(JsonEnd::Form);
    }
    parts_form(alloc, row, value)
}

fn plain_cell(cell: &Cell, value: &Value) -> Option<Numbers<'static>>
    requires { IsTrue (is_plain_layout cell.now.layout) }
    ensures { option_map seen result ≡ cell_form cell.now (view value.now) }
{
    plain_part(cell.layout, value.get(cell.field.name())?)
}

fn plain_parts(row: &[Cell], value: &Value) -> Option<Parts<'static>>
    requires { IsTrue (is_plain row.now) }
    ensures { option_map parts_seen result ≡ parts_form row.now (view value.now) }
{
    let mut parts = Parts::none();
    for cell in row {
        parts.push(plain_cell(cell, value)?);
    }
    Some(parts)
}

/// What a value states by a row with no lists of pairs, where it may have some keys beside the row's. No
/// memory is taken.
pub(crate) fn plain_form(beside: &[&str], row: &[Cell], value: &Value) -> Option<Parts<'static>>
    requires { IsTrue (is_plain row.now) }
    ensures { option_map parts_seen result ≡ row_form (map (λ k. k.now) beside.now) row.now (view value.now) }
{
    if has_only_keys(beside, row, value) {
        plain_parts(row, value)
    } else {
        None
    }
}
