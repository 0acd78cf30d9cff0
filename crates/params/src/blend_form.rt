//! A blend and its mask as parts of their rows: what a JSON value states, and the first number of it that
//! lies outside its range.
ghost use Rattle.std.specs.Prelude.{◌≡◌, IfSome, option_map};
ghost use Rattle.serde_json.specs.View.{view};
ghost use Rattle.params.specs.Ranges.{mask_from, blend_from, stated_mask, stated_blend, IsMaskKept, IsBlendKept};
ghost use Rattle.params.specs.Rules.{first_fault};
ghost use Rattle.params.specs.Seen.{mask_seen, blend_seen};
ghost use Rattle.params.specs.Stated.{mask_form, blend_form, null_or, mask_entries, blend_entries};

use crate::blending::{Blend, Mode, Shape, mode_named};
use crate::fault::ParamFault;
use crate::form::text_at;
use crate::from_parts::{natural_at, shape_from};
use crate::masks::{MaskKind, kind_of, mask_named};
use crate::parts::Parts;
use crate::row_fault::row_fault;
use crate::row_form::plain_form;
use crate::rows::BLEND;
use crate::to_parts::{natural, shape_parts};
use serde_json::Value;

/// What is stated for a mask: which it is, and its fields.
#[derive(Clone, Copy)]
pub(crate) struct StatedMask {
    pub kind: MaskKind,
    pub parts: Parts<'static>,
}

/// What is stated for a blend: its mode, its opacity and its mask.
#[derive(Clone, Copy)]
pub(crate) struct StatedBlend {
    pub mode: Mode,
    pub parts: Parts<'static>,
    pub mask: Option<StatedMask>,
}

fn mask_form(value: &Value) -> Option<StatedMask>
    ensures { option_map mask_seen result ≡ mask_form (view value.now) }
{
    let kind = mask_named(text_at(value, "shape")?)?;
    let parts = plain_form(&["shape"], kind.row(), value)?;
    Some(StatedMask { kind, parts })
}

fn mask_or_none(value: &Value) -> Option<Option<StatedMask>>
    ensures { option_map (option_map mask_seen) result ≡ null_or mask_form (view value.now) }
{
    if value.is_null() {
        return Some(None);
    }
    Some(Some(mask_form(value)?))
}

/// What a value states as a blend.
pub(crate) fn blend_form(value: &Value) -> Option<StatedBlend>
    ensures { option_map blend_seen result ≡ blend_form (view value.now) }
{
    let parts = plain_form(&["mask", "mode"], &BLEND, value)?;
    let mode = mode_named(text_at(value, "mode")?)?;
    let mask = mask_or_none(value.get("mask")?)?;
    Some(StatedBlend { mode, parts, mask })
}

/// What a mask states.
fn stated_mask(shape: &Shape) -> StatedMask
    ensures { mask_seen result ≡ stated_mask shape.now }
{
    StatedMask {
        kind: kind_of(shape),
        parts: shape_parts(shape),
    }
}

fn stated_masks(mask: &Option<Shape>) -> Option<StatedMask>
    ensures { option_map mask_seen result ≡ option_map stated_mask mask.now }
{
    match mask {
        None => None,
        Some(shape) => Some(stated_mask(shape)),
    }
}

/// What a blend states.
pub(crate) fn stated_blend(blend: &Blend) -> StatedBlend
    ensures { blend_seen result ≡ stated_blend blend.now }
{
    StatedBlend {
        mode: blend.mode,
        parts: Parts::of(&[natural(blend.opacity)]),
        mask: stated_masks(&blend.mask),
    }
}

#[tactic(auto, unfolding(crate::specs::Rules::first_fault))]
fn mask_fault(mask: &Option<StatedMask>) -> Result<(), ParamFault>
    ensures { result ≡ first_fault (mask_entries (option_map mask_seen mask.now)) }
{
    match mask {
        None => Ok(()),
        Some(mask) => row_fault(mask.kind.row(), mask.parts.as_slice()),
    }
}

/// The first number of a blend that lies outside its range: the opacity, then those of the mask.
pub(crate) fn blend_fault(blend: &StatedBlend) -> Result<(), ParamFault>
    ensures { result ≡ first_fault (blend_entries (blend_seen blend.now)) }
{
    row_fault(&BLEND, blend.parts.as_slice())?;
    mask_fault(&blend.mask)
}

fn mask_from(mask: &StatedMask) -> Shape
    requires { IsMaskKept (mask_seen mask.now) }
    ensures { result ≡ mask_from (mask_seen mask.now) }
{
    shape_from(mask.kind, mask.parts.as_slice())
}

fn masks_from(mask: &Option<StatedMask>) -> Option<Shape>
    requires { IfSome (option_map mask_seen mask.now) IsMaskKept }
    ensures { result ≡ option_map mask_from (option_map mask_seen mask.now) }
{
    match mask {
        None => None,
        Some(mask) => Some(mask_from(mask)),
    }
}

/// The blend of what was stated and held to its ranges.
pub(crate) fn blend_from(blend: &StatedBlend) -> Blend
    requires { IsBlendKept (blend_seen blend.now) }
    ensures { result ≡ blend_from (blend_seen blend.now) }
{
    Blend {
        opacity: natural_at(&BLEND, blend.parts.as_slice(), 0),
        mode: blend.mode,
        mask: masks_from(&blend.mask),
    }
}
