//! The JSON form of a history's items, and their numbers.
ghost use Rattle.std.specs.Prelude.{◌≡◌};
ghost use Rattle.serde_json.specs.View.{view};
ghost use Rattle.params.specs.Ranges.{blend_fault};
ghost use Rattle.params.specs.Read.{params_of, blend_of};
ghost use Rattle.edit_script.specs.Item.{formed, blend_at, item_of, module_at, params_at, blend_in, item_at_keys, item_form};
ghost use Rattle.edit_script.specs.Reads.{IsFormed};

use crate::form_end::FormEnd;
use history::Item;
use params::form::{bool_or, has_only, natural_or, text_at};
use params::{
    Blend, Field, JsonEnd, Module, ParamFault, Params, blend_of_json, module_named, of_json,
};
use serde_json::Value;
use std::alloc::Global;

// A blend on a module that doesn't blend.
fn blend_fault() -> ParamFault
    ensures { result ≡ blend_fault }
{
    ParamFault {
        field: Field::Blend,
        at: 0,
        value: 0,
    }
}

fn blend_at(
    module: Module,
    blend: Result<Option<Blend>, ParamFault>,
) -> Result<Option<Blend>, ParamFault>
    ensures { result ≡ blend_at «module» blend }
{
    match blend {
        Ok(None) => Ok(None),
        _ => if module.blends() {
            blend
        } else {
            Err(blend_fault())
        },
    }
}

fn item_of(
    module: Module,
    instance: u8,
    enabled: bool,
    params: Result<Params, ParamFault>,
    blend: Result<Option<Blend>, ParamFault>,
) -> Result<Item, ParamFault>
    ensures { result ≡ item_of «module» instance enabled params blend }
{
    let params = params?;
    let blend = blend_at(module, blend)?;
    Ok(Item {
        instance,
        enabled,
        params,
        blend,
    })
}

/// The module that an object names.
pub(crate) fn module_at(value: &Value) -> Option<Module>
    ensures { result ≡ module_at (view value.now) }
{
    module_named(text_at(value, "module")?)
}

fn params_formed(
    alloc: Global,
    module: Module,
    version: u32,
    value: &Value,
) -> Result<Result<Params, ParamFault>, FormEnd>
    ensures { IsFormed (λ p. p) result (formed (params_of «module» version (view value.now))) }
{
    match of_json(alloc, module, version, value) {
        Ok(params) => Ok(Ok(params)),
        Err(JsonEnd::Form) => Err(FormEnd::Form),
        Err(JsonEnd::Param(fault)) => Ok(Err(fault)),
        Err(JsonEnd::Memory) => Err(FormEnd::Memory),
    }
}

fn params_at(
    alloc: Global,
    module: Module,
    version: u32,
    value: &Value,
) -> Result<Result<Params, ParamFault>, FormEnd>
    ensures { IsFormed (λ p. p) result (params_at «module» version (view value.now)) }
{
    match value.get("params") {
        Some(params) => params_formed(alloc, module, version, params),
        None => Err(FormEnd::Form),
    }
}

fn blend_formed(value: &Value) -> Option<Result<Option<Blend>, ParamFault>>
    ensures { result ≡ formed (blend_of (view value.now)) }
{
    match blend_of_json(value) {
        Ok(blend) => Some(Ok(blend)),
        Err(JsonEnd::Param(fault)) => Some(Err(fault)),
        Err(JsonEnd::Form) => None,
        Err(JsonEnd::Memory) => None,
    }
}

fn blend_in(value: &Value) -> Option<Result<Option<Blend>, ParamFault>>
    ensures { result ≡ blend_in (view value.now) }
{
    match value.get("blend") {
        None => Some(Ok(None)),
        Some(blend) => blend_formed(blend),
    }
}

/// The item that the keys of an object say, or the first number outside its range, if they have the
/// form; what other keys it has doesn't matter.
#[tactic(auto, unfolding(crate::specs::Item::item_at_keys))]
pub(crate) fn item_at_keys(
    alloc: Global,
    value: &Value,
) -> Result<Result<Item, ParamFault>, FormEnd>
    ensures { IsFormed (λ i. i) result (item_at_keys (view value.now)) }
{
    let module = module_at(value).ok_or(FormEnd::Form)?;
    let instance = natural_or(value, "instance", 0, 0, 255).ok_or(FormEnd::Form)?;
    let enabled = bool_or(value, "enabled", true).ok_or(FormEnd::Form)?;
    let version = natural_or(value, "version", 1, 0, 255).ok_or(FormEnd::Form)?;
    let params = params_at(alloc, module, version, value)?;
    let blend = blend_in(value).ok_or(FormEnd::Form)?;
    Ok(item_of(module, instance as u8, enabled, params, blend))
}

/// The item that an object says that has no other keys.
pub(crate) fn item_form(alloc: Global, value: &Value) -> Result<Result<Item, ParamFault>, FormEnd>
    ensures { IsFormed (λ i. i) result (item_form (view value.now)) }
{
    let keys = [
        "module", "instance", "enabled", "version", "params", "blend",
    ];
    if !has_only(value, &keys) {
        return Err(FormEnd::Form);
    }
    item_at_keys(alloc, value)
}
