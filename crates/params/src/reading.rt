//! Settings and blends, from JSON.
ghost use Rattle.std.specs.Prelude.{◌≡◌, IfOk, IfSome};
ghost use Rattle.serde_json.specs.View.{view};
ghost use Rattle.params.specs.Ranges.{IsWithin, IsBlendWithin, module_of};
ghost use Rattle.params.specs.Read.{newest_read, old_read, params_of, blend_of, IsReading};

use crate::blend_form::{blend_fault, blend_form, blend_from};
use crate::blending::Blend;
use crate::fault::JsonEnd;
use crate::from_parts::{old_from, params_from};
use crate::modules::Module;
use crate::old::{OldVersion, migrate, old_version};
use crate::part::numbers_of;
use crate::row_fault::row_fault;
use crate::row_form::row_form;
use crate::settings::Params;
use serde_json::Value;
use std::alloc::Global;

fn newest_read(alloc: Global, module: Module, value: &Value) -> Result<Params, JsonEnd>
    ensures { IsReading result (newest_read «module» (view value.now)) }
{
    let row = module.cells();
    let stated = row_form(alloc, row, value)?;
    let parts = numbers_of(alloc, stated.as_slice())?;
    row_fault(row, parts.as_slice())?;
    Ok(params_from(module, parts.as_slice()))
}

fn old_read(alloc: Global, old: OldVersion, value: &Value) -> Result<Params, JsonEnd>
    ensures { IsReading result (old_read old (view value.now)) }
{
    let row = old.row();
    let stated = row_form(alloc, row, value)?;
    let parts = numbers_of(alloc, stated.as_slice())?;
    row_fault(row, parts.as_slice())?;
    Ok(migrate(&old_from(old, parts.as_slice())))
}

fn params_read(
    alloc: Global,
    module: Module,
    version: u32,
    value: &Value,
) -> Result<Params, JsonEnd>
    ensures { IsReading result (params_of «module» version (view value.now)) }
{
    if version == module.newest() {
        return newest_read(alloc, module, value);
    }
    match old_version(module, version) {
        Some(old) => old_read(alloc, old, value),
        None => Err(JsonEnd::Form),
    }
}

/// Reads the settings of a version of a module. Settings of an old version become those of today that
/// mean the same. `Form` comes exactly where the module hasn't that version or the value hasn't the form
/// of its settings, and `Param` exactly where it has and a number lies outside its range; it has the
/// first such number, in the order of the fields. `Memory` is want of memory.
pub fn of_json(
    alloc: Global,
    module: Module,
    version: u32,
    value: &Value,
) -> Result<Params, JsonEnd>
    ensures value { IsReading result (params_of «module» version (view value.now)) }
    ensures within { IfOk result IsWithin }
    ensures module { IfOk result (λ p. module_of p ≡ «module») }
{
    params_read(alloc, module, version, value)
}

fn blend_read(value: &Value) -> Result<Option<Blend>, JsonEnd>
    ensures { result ≡ blend_of (view value.now) }
{
    if value.is_null() {
        return Ok(None);
    }
    let Some(stated) = blend_form(value) else {
        return Err(JsonEnd::Form);
    };
    blend_fault(&stated)?;
    Ok(Some(blend_from(&stated)))
}

/// Reads a blend, or none where the value is null. `Form` comes exactly where the value hasn't the form
/// of a blend, and `Param` exactly where it has and a number lies outside its range; it has the first
/// such number, in the order of the fields. No memory is taken.
pub fn blend_of_json(value: &Value) -> Result<Option<Blend>, JsonEnd>
    ensures value { result ≡ blend_of (view value.now) }
    ensures within { IfOk result (λ o. IfSome o IsBlendWithin) }
{
    blend_read(value)
}
