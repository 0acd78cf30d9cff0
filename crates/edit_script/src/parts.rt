//! The JSON forms of depths, filter arrays, boxes and views.
ghost use Rattle.std.specs.Prelude.{◌≡◌};
ghost use Rattle.serde_json.specs.View.{view};
ghost use Rattle.edit_script.specs.Parts.{depth_of, depth_form, cfa_named, cfa_name_form, cfa_form, name_of_cfa, sides_form, view_keys, view_at_keys, view_form};

use params::form::{has_only, integer, natural, natural_at, pair};
use px::{BoxSize, Cfa, Depth, SIDE, View};
use serde_json::Value;

/// How many pixels a view's window has at most.
const AREA: u64 = 786_432;

fn depth_of(bits: i64) -> Option<Depth>
    ensures { result ≡ depth_of bits }
{
    if bits == 8 {
        Some(Depth::Eight)
    } else if bits == 16 {
        Some(Depth::Sixteen)
    } else {
        None
    }
}

/// The depth that the number 8 or 16 says.
pub(crate) fn depth_form(value: &Value) -> Option<Depth>
    ensures { result ≡ depth_form (view value.now) }
{
    depth_of(integer(value)?)
}

fn cfa_named(name: &str) -> Option<Cfa>
    ensures { result ≡ cfa_named name.now }
{
    match name {
        "RGGB" => Some(Cfa::Rggb),
        "BGGR" => Some(Cfa::Bggr),
        "GRBG" => Some(Cfa::Grbg),
        "GBRG" => Some(Cfa::Gbrg),
        _ => None,
    }
}

fn cfa_name_form(value: &Value) -> Option<Cfa>
    ensures { result ≡ cfa_name_form (view value.now) }
{
    cfa_named(value.as_str()?)
}

/// The filter array of that name, or none where the value is null.
pub(crate) fn cfa_form(value: &Value) -> Option<Option<Cfa>>
    ensures { result ≡ cfa_form (view value.now) }
{
    if value.is_null() {
        return Some(None);
    }
    Some(Some(cfa_name_form(value)?))
}

/// A list of two sides, each from 1 to the longest.
#[tactic(auto, unfolding(crate::specs::Parts::sides_form))]
pub(crate) fn sides_form(value: &Value, longest: u32) -> Option<BoxSize>
    ensures { result ≡ sides_form longest (view value.now) }
{
    let (w, h) = pair(value)?;
    let w = natural(w, 1, longest)?;
    let h = natural(h, 1, longest)?;
    Some(BoxSize { w, h })
}

/// The view that the keys of an object say; what other keys it has doesn't matter.
#[tactic(auto, unfolding(crate::specs::Parts::view_at_keys))]
pub(crate) fn view_at_keys(value: &Value) -> Option<View>
    ensures { result ≡ view_at_keys (view value.now) }
{
    let factor = natural_at(value, "factor", 1, 64)?;
    let cx = natural_at(value, "cx", 0, 65_536)?;
    let cy = natural_at(value, "cy", 0, 65_536)?;
    let w = natural_at(value, "w", 1, SIDE)?;
    let h = natural_at(value, "h", 1, SIDE)?;
    if u64::from(w) * u64::from(h) > AREA {
        return None;
    }
    Some(View {
        factor,
        cx,
        cy,
        w,
        h,
    })
}

/// The view that an object says that has no other keys.
pub(crate) fn view_form(value: &Value) -> Option<View>
    ensures { result ≡ view_form (view value.now) }
{
    if !has_only(value, &["factor", "cx", "cy", "w", "h"]) {
        return None;
    }
    view_at_keys(value)
}
