//! The JSON form of a script's settings.
ghost use Rattle.std.specs.Prelude.{◌≡◌, None, codes};
ghost use Rattle.px.specs.declared.depth.Depth.TheVariants.{Eight};
ghost use Rattle.serde_json.specs.View.{view};
ghost use Rattle.serde_json.specs.Find.{get};
ghost use Rattle.params.specs.Form.{or_absent};
ghost use Rattle.edit_script.specs.Parts.{depth_form as depth_in_form, cfa_form as cfa_in_form, view_form as view_in_form};
ghost use Rattle.params.specs.Stated.{null_or};
ghost use Rattle.edit_script.specs.Settings.{settings_at_keys, settings_form, settings_in};
ghost use Rattle.edit_script.specs.Reads.{IsFormed};

use crate::form_end::FormEnd;
use crate::parts::{cfa_form, depth_form, view_form};
use edit_steps::Settings;
use params::form::{has_only, natural_or};
use px::{Cfa, Depth, View};
use serde_json::{Value, json};
use std::alloc::Global;

fn cfa_or_none(value: &Value) -> Option<Option<Cfa>>
    ensures { result ≡ or_absent None cfa_in_form (get (codes "cfa") (view value.now)) }
{
    match value.get("cfa") {
        None => Some(None),
        Some(cfa) => cfa_form(cfa),
    }
}

/// The depth at its key, or 8 where there is none.
pub(crate) fn depth_or_eight(value: &Value) -> Option<Depth>
    ensures { result ≡ or_absent Eight depth_in_form (get (codes "depth") (view value.now)) }
{
    match value.get("depth") {
        None => Some(Depth::Eight),
        Some(depth) => depth_form(depth),
    }
}

fn view_or(value: &Value, absent: View) -> Option<View>
    ensures { result ≡ or_absent absent view_in_form (get (codes "view") (view value.now)) }
{
    match value.get("view") {
        None => Some(absent),
        Some(shown) => view_form(shown),
    }
}

fn view_or_null(value: &Value) -> Option<Option<View>>
    ensures { result ≡ null_or view_in_form (view value.now) }
{
    if value.is_null() {
        return Some(None);
    }
    Some(Some(view_form(value)?))
}

fn second_or_none(value: &Value) -> Option<Option<View>>
    ensures { result ≡ or_absent None (null_or view_in_form) (get (codes "second") (view value.now)) }
{
    match value.get("second") {
        None => Some(None),
        Some(shown) => view_or_null(shown),
    }
}

#[tactic(auto, unfolding(crate::specs::Settings::settings_at_keys))]
fn settings_at_keys(value: &Value) -> Option<Settings>
    ensures { result ≡ settings_at_keys (view value.now) }
{
    let start = Settings::start();
    let cfa = cfa_or_none(value)?;
    let depth = depth_or_eight(value)?;
    let preview_side = natural_or(value, "preview_side", start.preview_side, 64, 720)?;
    let workers = natural_or(value, "workers", start.workers, 1, 4)?;
    let stage_entries = natural_or(value, "stage_entries", start.stage_entries, 1, 64)?;
    let stage_pixels = natural_or(value, "stage_pixels", start.stage_pixels, 0, 33_554_432)?;
    let mip_slots = natural_or(value, "mip_slots", start.mip_slots, 1, 4)?;
    let undo_depth = natural_or(value, "undo_depth", start.undo_depth, 1, 64)?;
    let view = view_or(value, start.view)?;
    let second = second_or_none(value)?;
    Some(Settings {
        cfa,
        depth,
        preview_side,
        workers,
        stage_entries,
        stage_pixels,
        mip_slots,
        undo_depth,
        view,
        second,
    })
}

fn settings_form(value: &Value) -> Option<Settings>
    ensures { result ≡ settings_form (view value.now) }
{
    let keys = [
        "cfa",
        "depth",
        "preview_side",
        "workers",
        "stage_entries",
        "stage_pixels",
        "mip_slots",
        "undo_depth",
        "view",
        "second",
    ];
    if !has_only(value, &keys) {
        return None;
    }
    settings_at_keys(value)
}

/// The settings at their key, where an absent key stands for an empty object.
pub(crate) fn settings_in(alloc: Global, value: &Value) -> Result<Settings, FormEnd>
    ensures { IsFormed (λ s. s) result (settings_in (view value.now)) }
{
    let settings = match value.get("settings") {
        Some(stated) => settings_form(stated),
        None => {
            let empty = json!(in alloc; {})?;
            settings_form(&empty)
        }
    };
    settings.ok_or(FormEnd::Form)
}
