ghost use Rattle.std.specs.Prelude.{◌≡◌, ◌≤◌, IfOk};
ghost use Rattle.params.specs.declared.settings.Params.TheVariants.{BoxBlur as blur_params};
ghost use Rattle.params.specs.Ranges.{IsWithin};
ghost use Rattle.px.specs.declared.kind.PlaneKind.TheVariants.{Rgb};
ghost use Rattle.px.specs.Area.{Covers, IsIn, grown};
ghost use Rattle.px.specs.Cut.{IsCutOf};
ghost use Rattle.px.specs.Picture.{Picture};
ghost use Rattle.local_modules.specs.Blurring.{blurred_picture};
ghost use Rattle.local_modules.specs.Radius.{radius_of};

use crate::boxes::{blur, blur_in_turn};
use crate::radius::radius_at;
use params::BoxBlur;
use px::{Plane, Region};
use std::alloc::{AllocError, Global};
use std::thread::Threads;

/// Box blur of a picture of a level, 0 to 8: each value the floor mean of the columns `x - R` to `x + R`
/// and the rows `y - R` to `y + R` that lie in the whole picture, over one region, by bands of rows side
/// by side. `R` is `ceil(radius / 2^level)`. The input covers the region grown by `R` within the picture.
pub fn box_blur<R: Threads + Sync>(
    rt: &R,
    alloc: Global,
    params: &BoxBlur,
    level: u8,
    input: &Plane,
    region: Region,
) -> Result<Plane, AllocError>
    requires within { IsWithin (blur_params params.now) }
    requires level { level ≤ 8 }
    requires rgb { input.now.kind ≡ Rgb }
    requires inside { IsIn region input.now.w input.now.h }
    requires covers { Covers input.now.area (grown region (radius_of params.now.radius level) input.now.w input.now.h) }
    ensures area { IfOk result (λ p. p.area ≡ region) }
    ensures cut { IfOk result (λ p. (q : Picture) → IsCutOf q input.now → IsCutOf (blurred_picture (radius_of params.now.radius level) q) p) }
{
    blur(rt, alloc, radius_at(params.radius, level), input, region)
}

/// The same region, its rows one after another, as a band of a run makes it.
pub fn box_blur_in_turn(
    alloc: Global,
    params: &BoxBlur,
    level: u8,
    input: &Plane,
    region: Region,
) -> Result<Plane, AllocError>
    requires within { IsWithin (blur_params params.now) }
    requires level { level ≤ 8 }
    requires rgb { input.now.kind ≡ Rgb }
    requires inside { IsIn region input.now.w input.now.h }
    requires covers { Covers input.now.area (grown region (radius_of params.now.radius level) input.now.w input.now.h) }
    ensures area { IfOk result (λ p. p.area ≡ region) }
    ensures cut { IfOk result (λ p. (q : Picture) → IsCutOf q input.now → IsCutOf (blurred_picture (radius_of params.now.radius level) q) p) }
{
    blur_in_turn(alloc, radius_at(params.radius, level), input, region)
}
