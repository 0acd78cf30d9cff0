ghost use Rattle.std.specs.Prelude.{◌≡◌};
ghost use Rattle.params.specs.Ranges.{IsWithin};
ghost use Rattle.px.specs.Area.{Fits};
ghost use Rattle.geometry.specs.Sides.{sides_after};

use crate::kept::kept_region;
use params::Params;

/// The sides after one module, of a picture of sides `w` and `h`: columns, then rows, 1 to `SIDE` each.
/// Orientation may swap them, a crop keeps a part, and the others change nothing.
pub fn roi_out(params: &Params, w: u32, h: u32) -> (u32, u32)
    requires within { IsWithin params.now }
    requires sides { Fits 0 0 w h }
    ensures sides { result ≡ sides_after params.now (w, h) }
    ensures valid { Fits 0 0 result.0 result.1 }
{
    match params {
        Params::Orientation(orientation) => { if orientation.swap { (h, w) } else { (w, h) } }
        Params::Crop(crop) => {
            let kept = kept_region(crop, w, h);
            (kept.w, kept.h)
        }
        _ => (w, h),
    }
}
