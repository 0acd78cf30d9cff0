//! The modules at work: the one place that knows which kernel is whose.
ghost use Rattle.std.specs.Prelude.{◌≡◌, ◌≤◌, IfOk, IfSome, IfNone};
ghost use Rattle.params.specs.Ranges.{IsWithin};
ghost use Rattle.params.specs.declared.settings.Params.TheVariants.{ToneCurve as curve_params};
ghost use Rattle.px.specs.declared.kind.PlaneKind.TheVariants.{Rgb};
ghost use Rattle.px.specs.Area.{Covers, IsIn, grown};
ghost use Rattle.px.specs.Cut.{IsCutOf};
ghost use Rattle.px.specs.Picture.{Picture};
ghost use Rattle.modules_colour.specs.Curving.{curved_picture};
ghost use Rattle.modules_raw.specs.Demosaic.{demosaiced_picture};
ghost use Rattle.pipe_nodes.specs.Applied.{CanApply, IsApplied};

use crate::piece::Piece;
use params::{Params, ToneCurve};
use px::{Plane, PlaneKind, Region};
use std::alloc::{AllocError, Global};

// A region behind a tone curve, by its tables.
fn tone_curve(
    alloc: Global,
    spare: Option<Plane>,
    piece: &Piece,
    settings: &ToneCurve,
    input: &Plane,
    region: Region,
) -> Result<Plane, AllocError>
    requires is { piece.now.params ≡ curve_params settings.now }
    requires rgb { input.now.kind ≡ Rgb }
    requires covers { Covers input.now.area region }
    ensures area { IfOk result (λ p. p.area ≡ region) }
    ensures cut { IfOk result (λ p. (q : Picture) → IsCutOf q input.now → IsCutOf (curved_picture settings.now q) p) }
{
    modules_colour::curve_in_turn(alloc, spare, piece.table(settings), input, region)
}

// A region of a mosaic made RGB, or none where the input is RGB already.
fn demosaic(
    alloc: Global,
    spare: Option<Plane>,
    input: &Plane,
    region: Region,
) -> Result<Option<Plane>, AllocError>
    requires inside { IsIn region input.now.w input.now.h }
    requires covers { Covers input.now.area (grown region 1 input.now.w input.now.h) }
    ensures area { IfOk result (λ made. IfSome made (λ o. o.area ≡ region)) }
    ensures cut { IfOk result (λ made. IfSome made (λ o. (q : Picture) → IsCutOf q input.now → IsCutOf (demosaiced_picture q) o)) }
    ensures same { IfOk result (λ made. IfNone made (input.now.kind ≡ Rgb)) }
{
    match input.kind() {
        PlaneKind::Mosaic(_) => {
            let made = modules_raw::demosaic_in_turn(alloc, spare, input, region)?;
            Ok(Some(made))
        }
        PlaneKind::Rgb => Ok(None),
    }
}

// A region of what a piece's module by itself makes of its input, a picture of that level, or none where it
// leaves the input as it is. A spare plane may lend it its memory.
pub(crate) fn apply(
    alloc: Global,
    spare: Option<Plane>,
    piece: &Piece,
    params: &Params,
    level: u8,
    input: &Plane,
    region: Region,
) -> Result<Option<Plane>, AllocError>
    requires own { piece.now.params ≡ params.now }
    requires within { IsWithin params.now }
    requires level { level ≤ 8 }
    requires can { CanApply params.now input.now region }
    ensures { IfOk result (IsApplied params.now level input.now region) }
{
    match params {
        Params::RawPrepare(raw) => {
            let made = modules_raw::raw_prepare_in_turn(alloc, spare, raw, input, region)?;
            Ok(Some(made))
        }
        Params::Temperature(balance) => {
            let made = modules_raw::temperature_in_turn(alloc, spare, balance, input, region)?;
            Ok(Some(made))
        }
        Params::Demosaic => demosaic(alloc, spare, input, region),
        Params::Orientation(turn) => {
            let made = modules_geometry::orientation_in_turn(alloc, spare, turn, input, region)?;
            Ok(Some(made))
        }
        Params::Crop(crop) => {
            let made = modules_geometry::crop_in_turn(alloc, spare, crop, input, region)?;
            Ok(Some(made))
        }
        Params::Exposure(exposure) => {
            let made = modules_colour::exposure_in_turn(alloc, spare, exposure, input, region)?;
            Ok(Some(made))
        }
        Params::ChannelMixer(mixer) => {
            let made = modules_colour::mixer_in_turn(alloc, spare, mixer, input, region)?;
            Ok(Some(made))
        }
        Params::ToneCurve(curve) => {
            let made = tone_curve(alloc, spare, piece, curve, input, region)?;
            Ok(Some(made))
        }
        Params::BoxBlur(blur) => {
            let made = local_modules::box_blur_in_turn(alloc, blur, level, input, region)?;
            Ok(Some(made))
        }
        Params::Sharpen(sharpen) => {
            let made = local_modules::sharpen_in_turn(alloc, sharpen, level, input, region)?;
            Ok(Some(made))
        }
    }
}
