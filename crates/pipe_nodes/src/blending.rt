//! Outputs blended with their inputs.
ghost use Rattle.std.specs.Prelude.{◌≡◌, ℕ, List, Some, IfOk};
ghost use Rattle.params.specs.Ranges.{IsBlendWithin};
ghost use Rattle.px.specs.declared.kind.PlaneKind.TheVariants.{Rgb};
ghost use Rattle.px.specs.Area.{Covers};
ghost use Rattle.px.specs.Cut.{IsCutOf};
ghost use Rattle.px.specs.Picture.{Picture};
ghost use Rattle.pipe_nodes.specs.declared.active.Active.{Active};
ghost use Rattle.pipe_nodes.specs.Applied.{CanTrace, IsTracing};
ghost use Rattle.pipe_nodes.specs.Whole.{blended};

use crate::tracing::Tracing;
use masks::coverage;
use params::Blend;
use px::Plane;
use std::alloc::{AllocError, Global};

// A module's output laid over its input, in place: a region of what the blend makes of both.
pub(crate) fn lay_over(
    alloc: Global,
    blend: &Blend,
    tracing: &Tracing,
    input: &Plane,
    output: Plane,
) -> Result<Plane, AllocError>
    requires within { IsBlendWithin blend.now }
    requires input_rgb { input.now.kind ≡ Rgb }
    requires output_rgb { output.kind ≡ Rgb }
    requires wide { input.now.w ≡ output.w }
    requires high { input.now.h ≡ output.h }
    requires covers { Covers input.now.area output.area }
    requires traces { CanTrace tracing.now (input.now.w, input.now.h) }
    ensures shape { IfOk result (λ p. p ≡ record output { values = p.values }) }
    ensures cut { IfOk result (λ p. (source i m : Picture) (level : ℕ) (before : List Active) → IsTracing source level before (input.now.w, input.now.h) tracing.now → IsCutOf i input.now → IsCutOf m output → IsCutOf (blended source level before (Some blend.now) i m) p) }
{
    match &blend.mask {
        None => Ok(blend::blend(blend, input, output, None)),
        Some(shape) => {
            let cover = coverage(
                alloc,
                shape,
                &tracing.trace,
                tracing.w,
                tracing.h,
                output.region(),
            )?;
            Ok(blend::blend(blend, input, output, Some(&cover)))
        }
    }
}
