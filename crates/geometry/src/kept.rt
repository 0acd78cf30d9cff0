ghost use Rattle.std.specs.Prelude.{◌≡◌, ◌+◌, ◌-◌, ◌<◌, ◌≤◌};
ghost use Rattle.params.specs.Each.{IsCropWithin};
ghost use Rattle.px.specs.Area.{Fits, IsIn};
ghost use Rattle.geometry.specs.Sides.{kept_from, kept_to, kept_area};

use params::Crop;
use px::Region;

// The first column or row that a crop keeps of a side, and how many it keeps: at least one.
fn kept_of(from: u32, to: u32, side: u32) -> (u32, u32)
    requires from { from ≤ 65535 }
    requires to { to ≤ 65536 }
    requires some { 0 < side }
    requires within { side ≤ 16384 }
    ensures first { result.0 ≡ kept_from from side }
    ensures count { result.1 ≡ kept_to from to side - kept_from from side }
    ensures some { 0 < result.1 }
    ensures within { result.0 + result.1 ≤ side }
{
    let first = from * side / 65_536;
    let end = (to * side / 65_536).max(first + 1);
    (first, end - first)
}

// The region of a picture that a crop keeps.
pub(crate) fn kept_region(crop: &Crop, w: u32, h: u32) -> Region
    requires within { IsCropWithin crop.now }
    requires sides { Fits 0 0 w h }
    ensures region { result ≡ kept_area crop.now (w, h) }
    ensures valid { Fits result.x result.y result.w result.h }
    ensures inside { IsIn result w h }
{
    let (x, columns) = kept_of(crop.left, crop.right, w);
    let (y, rows) = kept_of(crop.top, crop.bottom, h);
    Region {
        x,
        y,
        w: columns,
        h: rows,
    }
}
