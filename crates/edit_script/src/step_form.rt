//! The JSON form of steps, and their numbers.
ghost use Rattle.std.specs.Prelude.{◌≡◌, None, codes};
ghost use Rattle.serde_json.specs.View.{view};
ghost use Rattle.serde_json.specs.Find.{get};
ghost use Rattle.params.specs.Form.{or_absent};
ghost use Rattle.params.specs.Stated.{null_or};
ghost use Rattle.edit_script.specs.Parts.{sides_form as sides_in_form};
ghost use Rattle.edit_script.specs.Step.{select_form, compress_form, undo_form, redo_form, settle_form, instance_at, place_at, add_form, move_form, delete_form, view_step_form, second_step_form, export_form, thumbnail_form, plain_form, set_of, set_form, step_named, step_form};
ghost use Rattle.edit_script.specs.Reads.{IsFormed};

use crate::form_end::{FormEnd, Ranged};
use crate::item_form::{item_at_keys, module_at};
use crate::parts::{sides_form, view_at_keys};
use crate::settings_form::depth_or_eight;
use edit_steps::Step;
use history::{Edit, Item};
use params::form::{has_only, natural_at, text_at};
use px::{BoxSize, SIDE};
use serde_json::Value;
use std::alloc::Global;

/// The longest side of a thumbnail's box.
const THUMBNAIL: u32 = 720;

/// The greatest number of an end or a place.
const PLACES: u32 = 65_535;

#[tactic(auto, unfolding(crate::specs::Step::select_form))]
fn select_form(value: &Value) -> Option<Step>
    ensures { result ≡ select_form (view value.now) }
{
    if !has_only(value, &["do", "end"]) {
        return None;
    }
    let end = natural_at(value, "end", 0, PLACES)?;
    Some(Step::Edit(Edit::Select { end }))
}

fn compress_form(value: &Value) -> Option<Step>
    ensures { result ≡ compress_form (view value.now) }
{
    if !has_only(value, &["do"]) {
        return None;
    }
    Some(Step::Edit(Edit::Compress))
}

fn undo_form(value: &Value) -> Option<Step>
    ensures { result ≡ undo_form (view value.now) }
{
    if !has_only(value, &["do"]) {
        return None;
    }
    Some(Step::Undo)
}

fn redo_form(value: &Value) -> Option<Step>
    ensures { result ≡ redo_form (view value.now) }
{
    if !has_only(value, &["do"]) {
        return None;
    }
    Some(Step::Redo)
}

fn settle_form(value: &Value) -> Option<Step>
    ensures { result ≡ settle_form (view value.now) }
{
    if !has_only(value, &["do"]) {
        return None;
    }
    Some(Step::Settle)
}

fn instance_at(value: &Value) -> Option<u8>
    ensures { result ≡ instance_at (view value.now) }
{
    let instance = natural_at(value, "instance", 0, 255)?;
    Some(instance as u8)
}

fn place_at(value: &Value) -> Option<u32>
    ensures { result ≡ place_at (view value.now) }
{
    natural_at(value, "place", 0, PLACES)
}

#[tactic(auto, unfolding(crate::specs::Step::add_form))]
fn add_form(value: &Value) -> Option<Step>
    ensures { result ≡ add_form (view value.now) }
{
    if !has_only(value, &["do", "module", "instance", "place"]) {
        return None;
    }
    let module = module_at(value)?;
    let instance = instance_at(value)?;
    let place = place_at(value)?;
    Some(Step::Edit(Edit::Add {
        module,
        instance,
        place,
    }))
}

#[tactic(auto, unfolding(crate::specs::Step::move_form))]
fn move_form(value: &Value) -> Option<Step>
    ensures { result ≡ move_form (view value.now) }
{
    if !has_only(value, &["do", "module", "instance", "place"]) {
        return None;
    }
    let module = module_at(value)?;
    let instance = instance_at(value)?;
    let place = place_at(value)?;
    Some(Step::Edit(Edit::Move {
        module,
        instance,
        place,
    }))
}

#[tactic(auto, unfolding(crate::specs::Step::delete_form))]
fn delete_form(value: &Value) -> Option<Step>
    ensures { result ≡ delete_form (view value.now) }
{
    if !has_only(value, &["do", "module", "instance"]) {
        return None;
    }
    let module = module_at(value)?;
    let instance = instance_at(value)?;
    Some(Step::Edit(Edit::Delete { module, instance }))
}

fn view_step_form(value: &Value) -> Option<Step>
    ensures { result ≡ view_step_form (view value.now) }
{
    if !has_only(value, &["do", "factor", "cx", "cy", "w", "h"]) {
        return None;
    }
    Some(Step::View(view_at_keys(value)?))
}

fn second_step_form(value: &Value) -> Option<Step>
    ensures { result ≡ second_step_form (view value.now) }
{
    if !has_only(value, &["do", "factor", "cx", "cy", "w", "h"]) {
        return None;
    }
    Some(Step::Second(view_at_keys(value)?))
}

fn sides_or_null(value: &Value) -> Option<Option<BoxSize>>
    ensures { result ≡ null_or (sides_in_form 16384) (view value.now) }
{
    if value.is_null() {
        return Some(None);
    }
    Some(Some(sides_form(value, SIDE)?))
}

fn box_or_none(value: &Value) -> Option<Option<BoxSize>>
    ensures { result ≡ or_absent None (null_or (sides_in_form 16384)) (get (codes "box") (view value.now)) }
{
    match value.get("box") {
        None => Some(None),
        Some(size) => sides_or_null(size),
    }
}

#[tactic(auto, unfolding(crate::specs::Step::export_form))]
fn export_form(value: &Value) -> Option<Step>
    ensures { result ≡ export_form (view value.now) }
{
    if !has_only(value, &["do", "box", "depth"]) {
        return None;
    }
    let size = box_or_none(value)?;
    let depth = depth_or_eight(value)?;
    Some(Step::Export { size, depth })
}

#[tactic(auto, unfolding(crate::specs::Step::thumbnail_form))]
fn thumbnail_form(value: &Value) -> Option<Step>
    ensures { result ≡ thumbnail_form (view value.now) }
{
    if !has_only(value, &["do", "box"]) {
        return None;
    }
    let size = sides_form(value.get("box")?, THUMBNAIL)?;
    Some(Step::Thumbnail { size })
}

// A step without settings of a module.
fn plain_form(word: &str, value: &Value) -> Option<Step>
    ensures { result ≡ plain_form word.now (view value.now) }
{
    match word {
        "select" => select_form(value),
        "compress" => compress_form(value),
        "undo" => undo_form(value),
        "redo" => redo_form(value),
        "settle" => settle_form(value),
        "add" => add_form(value),
        "move" => move_form(value),
        "delete" => delete_form(value),
        "view" => view_step_form(value),
        "second" => second_step_form(value),
        "export" => export_form(value),
        "thumbnail" => thumbnail_form(value),
        _ => None,
    }
}

fn set_of(item: Ranged<Item>) -> Ranged<Step>
    ensures { result ≡ set_of item }
{
    match item {
        Ok(item) => Ok(Step::Edit(Edit::Set(item))),
        Err(fault) => Err(fault),
    }
}

#[tactic(auto, unfolding(crate::specs::Step::set_form))]
fn set_form(alloc: Global, value: &Value) -> Result<Ranged<Step>, FormEnd>
    ensures { IsFormed (λ s. s) result (set_form (view value.now)) }
{
    let keys = [
        "do", "module", "instance", "enabled", "version", "params", "blend",
    ];
    if !has_only(value, &keys) {
        return Err(FormEnd::Form);
    }
    let item = item_at_keys(alloc, value)?;
    Ok(set_of(item))
}

fn step_named(alloc: Global, word: &str, value: &Value) -> Result<Ranged<Step>, FormEnd>
    ensures { IsFormed (λ s. s) result (step_named (view value.now) word.now) }
{
    if word == "set" {
        return set_form(alloc, value);
    }
    match plain_form(word, value) {
        Some(step) => Ok(Ok(step)),
        None => Err(FormEnd::Form),
    }
}

/// The step that a value is, or the first number outside its range, if it has the form.
#[tactic(auto, unfolding(crate::specs::Step::step_form))]
pub(crate) fn step_form(alloc: Global, value: &Value) -> Result<Ranged<Step>, FormEnd>
    ensures { IsFormed (λ s. s) result (step_form (view value.now)) }
{
    match text_at(value, "do") {
        Some(word) => step_named(alloc, word, value),
        None => Err(FormEnd::Form),
    }
}
