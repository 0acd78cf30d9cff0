ghost use Rattle.std.specs.Prelude.{◌≡◌, ◌↔◌, IsOk};
ghost use Rattle.std.specs.Option.{option_copied};
ghost use Rattle.params.specs.Ranges.{check_of, check_blend_of, IsWithin, IsBlendFit};

use crate::blend_form::{blend_fault, stated_blend};
use crate::blending::Blend;
use crate::fault::{Field, ParamFault};
use crate::modules::Module;
use crate::row_fault::row_fault;
use crate::settings::Params;
use crate::to_parts::parts_of;

/// Holds settings to their ranges: the fault is the first number, in the order of the fields, that lies
/// outside its range.
pub fn check(params: &Params) -> Result<(), ParamFault>
    ensures value { result ≡ check_of params.now }
    ensures within { IsOk result ↔ IsWithin params.now }
{
    row_fault(params.module().cells(), parts_of(params).as_slice())
}

/// Holds a blend at a module to its ranges. A blend on a module that doesn't blend is the field `Blend`
/// with the value 0; else the fault is the first number, in the order of the fields, that lies outside
/// its range.
#[tactic(auto, using(crate::proofs::Faults::fit_tells))]
pub fn check_blend(module: Module, blend: Option<&Blend>) -> Result<(), ParamFault>
    ensures value { result ≡ check_blend_of «module» (option_copied blend.entry) }
    ensures fit { IsOk result ↔ IsBlendFit «module» (option_copied blend.entry) }
{
    match blend {
        None => Ok(()),
        Some(blend) => if module.blends() {
            blend_fault(&stated_blend(blend))
        } else {
            Err(ParamFault {
                field: Field::Blend,
                at: 0,
                value: 0,
            })
        },
    }
}
