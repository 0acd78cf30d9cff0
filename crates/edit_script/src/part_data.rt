//! Settings, boxes and views, as JSON.
ghost use Rattle.std.specs.Prelude.{◌≡◌, IfOk};
ghost use Rattle.serde_json.specs.View.{view};
ghost use Rattle.edit_script.specs.Parts.{name_of_cfa};
ghost use Rattle.edit_script.specs.Written.{bits_of, cfa_data, box_data, box_or_null, view_data, view_or_null, settings_data};

use edit_steps::Settings;
use px::{BoxSize, Cfa, Depth, View};
use serde_json::{Value, json};
use std::alloc::{AllocError, Global};

/// How many bits a sample has, 8 or 16.
pub(crate) fn bits_of(depth: Depth) -> u32
    ensures { result ≡ bits_of depth }
{
    match depth {
        Depth::Eight => 8,
        Depth::Sixteen => 16,
    }
}

fn name_of_cfa(cfa: Cfa) -> &'static str
    ensures { result.now ≡ name_of_cfa cfa }
{
    match cfa {
        Cfa::Rggb => "RGGB",
        Cfa::Bggr => "BGGR",
        Cfa::Grbg => "GRBG",
        Cfa::Gbrg => "GBRG",
    }
}

fn cfa_data(alloc: Global, cfa: Option<Cfa>) -> Result<Value, AllocError>
    ensures { IfOk result (λ v. view v ≡ cfa_data cfa) }
{
    match cfa {
        None => Ok(Value::Null),
        Some(cfa) => json!(in alloc; name_of_cfa(cfa)),
    }
}

pub(crate) fn box_data(alloc: Global, size: BoxSize) -> Result<Value, AllocError>
    ensures { IfOk result (λ v. view v ≡ box_data size) }
{
    json!(in alloc; [size.w, size.h])
}

pub(crate) fn box_or_null(alloc: Global, size: Option<BoxSize>) -> Result<Value, AllocError>
    ensures { IfOk result (λ v. view v ≡ box_or_null size) }
{
    match size {
        None => Ok(Value::Null),
        Some(size) => box_data(alloc, size),
    }
}

#[tactic(auto, unfolding(crate::specs::Written::view_data))]
fn view_data(alloc: Global, shown: View) -> Result<Value, AllocError>
    ensures { IfOk result (λ v. view v ≡ view_data shown) }
{
    json!(in alloc; {
        "cx": shown.cx,
        "cy": shown.cy,
        "factor": shown.factor,
        "h": shown.h,
        "w": shown.w
    })
}

fn view_or_null(alloc: Global, shown: Option<View>) -> Result<Value, AllocError>
    ensures { IfOk result (λ v. view v ≡ view_or_null shown) }
{
    match shown {
        None => Ok(Value::Null),
        Some(shown) => view_data(alloc, shown),
    }
}

#[tactic(auto, unfolding(crate::specs::Written::settings_data))]
pub(crate) fn settings_data(alloc: Global, settings: &Settings) -> Result<Value, AllocError>
    ensures { IfOk result (λ v. view v ≡ settings_data settings.now) }
{
    let cfa = cfa_data(alloc, settings.cfa)?;
    let shown = view_data(alloc, settings.view)?;
    let second = view_or_null(alloc, settings.second)?;
    json!(in alloc; {
        "cfa": cfa,
        "depth": bits_of(settings.depth),
        "mip_slots": settings.mip_slots,
        "preview_side": settings.preview_side,
        "second": second,
        "stage_entries": settings.stage_entries,
        "stage_pixels": settings.stage_pixels,
        "undo_depth": settings.undo_depth,
        "view": shown,
        "workers": settings.workers
    })
}
