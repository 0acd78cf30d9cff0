//! Settings and blends, as JSON.
ghost use Rattle.std.specs.Prelude.{◌≡◌, ◌≤◌, IfOk, IfSome, Ok, length, false};
ghost use Rattle.std.specs.Option.{option_copied};
ghost use Rattle.serde_json.specs.Data.{depth};
ghost use Rattle.serde_json.specs.Written.{compact_text, has_float};
ghost use Rattle.serde_json.specs.View.{view, members_view};
ghost use Rattle.params.specs.Ranges.{IsWithin, IsBlendWithin, module_of, newest_of};
ghost use Rattle.params.specs.Read.{params_of, blend_of};
ghost use Rattle.params.specs.Written.{params_data, blend_data, shape_member, shape_data, mask_data, blend_members, blend_value_data};

use crate::blending::{Blend, Mode, Shape};
use crate::masks::{MaskKind, kind_of};
use crate::row_data::{data_beside, row_data};
use crate::rows::BLEND;
use crate::settings::Params;
use crate::to_parts::{natural, parts_of, shape_parts};
use serde_json::{Map, Value, put};
use std::alloc::{AllocError, Global};

fn params_data(alloc: Global, params: &Params) -> Result<Value, AllocError>
    ensures { IfOk result (λ v. view v ≡ params_data params.now) }
{
    row_data(alloc, params.module().cells(), parts_of(params).as_slice())
}

/// The JSON form of settings that are within their ranges, in the newest version of their module. Read
/// for the same module and version, it gives the settings again.
#[tactic(auto, using(crate::proofs::AgainLemmas::params_again, crate::proofs::TextLemmas::params_short, crate::proofs::TextLemmas::params_exact, crate::proofs::TextLemmas::params_depth))]
pub fn to_json(alloc: Global, params: &Params) -> Result<Value, AllocError>
    requires within { IsWithin params.now }
    ensures value { IfOk result (λ v. view v ≡ params_data params.now) }
    ensures again { IfOk result (λ v. params_of (module_of params.now) (newest_of (module_of params.now)) (view v) ≡ Ok params.now) }
    ensures short { IfOk result (λ v. length (compact_text (view v)) ≤ 1120) }
    ensures exact { IfOk result (λ v. has_float (view v) ≡ false) }
    ensures depth { IfOk result (λ v. depth (view v) ≤ 3) }
{
    params_data(alloc, params)
}

fn shape_member(alloc: Global, kind: MaskKind) -> Result<Map<String, Value>, AllocError>
    ensures { IfOk result (λ m. members_view m.entries ≡ shape_member kind) }
{
    let mut members = Map::new(alloc);
    let word = Value::String(String::from_str(alloc, kind.name())?);
    put(&mut members, alloc, "shape", word)?;
    Ok(members)
}

fn shape_data(alloc: Global, shape: &Shape) -> Result<Value, AllocError>
    ensures { IfOk result (λ v. view v ≡ shape_data shape.now) }
{
    let kind = kind_of(shape);
    let beside = shape_member(alloc, kind)?;
    data_beside(alloc, kind.row(), shape_parts(shape).as_slice(), beside)
}

fn mask_data(alloc: Global, mask: &Option<Shape>) -> Result<Value, AllocError>
    ensures { IfOk result (λ v. view v ≡ mask_data mask.now) }
{
    match mask {
        None => Ok(Value::Null),
        Some(shape) => shape_data(alloc, shape),
    }
}

fn blend_members(alloc: Global, mask: Value, mode: Mode) -> Result<Map<String, Value>, AllocError>
    ensures { IfOk result (λ m. members_view m.entries ≡ blend_members (view mask) mode) }
{
    let mut members = Map::new(alloc);
    let word = Value::String(String::from_str(alloc, mode.name())?);
    put(&mut members, alloc, "mode", word)?;
    put(&mut members, alloc, "mask", mask)?;
    Ok(members)
}

fn blend_value_data(alloc: Global, blend: &Blend) -> Result<Value, AllocError>
    ensures { IfOk result (λ v. view v ≡ blend_value_data blend.now) }
{
    let mask = mask_data(alloc, &blend.mask)?;
    let beside = blend_members(alloc, mask, blend.mode)?;
    data_beside(alloc, &BLEND, &[natural(blend.opacity)], beside)
}

fn blend_data(alloc: Global, blend: Option<&Blend>) -> Result<Value, AllocError>
    ensures { IfOk result (λ v. view v ≡ blend_data (option_copied blend.entry)) }
{
    match blend {
        None => Ok(Value::Null),
        Some(blend) => blend_value_data(alloc, blend),
    }
}

/// The JSON form of a blend that is within its ranges, or null for none. Read, it gives the same again.
#[tactic(auto, using(crate::proofs::AgainLemmas::blend_again, crate::proofs::TextLemmas::blend_short, crate::proofs::TextLemmas::blend_exact, crate::proofs::TextLemmas::blend_depth))]
pub fn blend_to_json(alloc: Global, blend: Option<&Blend>) -> Result<Value, AllocError>
    requires within { IfSome (option_copied blend) IsBlendWithin }
    ensures value { IfOk result (λ v. view v ≡ blend_data (option_copied blend.entry)) }
    ensures again { IfOk result (λ v. blend_of (view v) ≡ Ok (option_copied blend.entry)) }
    ensures short { IfOk result (λ v. length (compact_text (view v)) ≤ 200) }
    ensures exact { IfOk result (λ v. has_float (view v) ≡ false) }
    ensures depth { IfOk result (λ v. depth (view v) ≤ 2) }
{
    blend_data(alloc, blend)
}
