//! A module's output blended with its input, in place.
ghost use Rattle.std.specs.Prelude.{◌≡◌, ℕ, IfSome};
ghost use Rattle.std.specs.Option.{option_copied};
ghost use Rattle.params.specs.Ranges.{IsBlendWithin};
ghost use Rattle.px.specs.declared.kind.PlaneKind.TheVariants.{Rgb};
ghost use Rattle.px.specs.Area.{Covers};
ghost use Rattle.px.specs.Cut.{IsCutOf};
ghost use Rattle.px.specs.Picture.{Picture};
ghost use Rattle.blend.specs.Blending.{blended_picture, IsBlended, IsCoveredBy};

use crate::overlay::Overlay;
use params::Blend;
use px::{Cover, Plane, repaint_rows};

/// A module's output laid over its input, in place. In each channel, with the input's value i, the
/// output's value m and what the mode makes of them, B, the result is
/// `clamp(i + floor(alpha * (B - i) / 65536))` with `alpha = floor(opacity * coverage / 65536)`. Without
/// a cover each pixel is covered whole. Takes no memory.
pub fn blend(blend: &Blend, input: &Plane, output: Plane, cover: Option<&Cover>) -> Plane
    requires within { IsBlendWithin blend.now }
    requires input_rgb { input.now.kind ≡ Rgb }
    requires output_rgb { output.kind ≡ Rgb }
    requires wide { input.now.w ≡ output.w }
    requires high { input.now.h ≡ output.h }
    requires covers { Covers input.now.area output.area }
    requires covered { IfSome (option_copied cover) (λ c. Covers c.area output.area) }
    ensures pixels { IsBlended blend.now (option_copied cover.entry) input.now output result }
    ensures cut { (f : ℕ → ℕ → ℕ) (i m : Picture) → IsCoveredBy f (option_copied cover.entry) output.area → IsCutOf i input.now → IsCutOf m output → IsCutOf (blended_picture blend.now f i m) result }
{
    repaint_rows(
        output,
        &Overlay {
            blend,
            input,
            cover,
        },
    )
}
