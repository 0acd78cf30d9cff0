//! Settings of a type, from parts that were held to their row.
ghost use Rattle.std.specs.Prelude.{◌≡◌, ◌≤◌, length};
ghost use Rattle.params.specs.Form.{natural_of};
ghost use Rattle.params.specs.Seen.{seen, all_seen};
ghost use Rattle.params.specs.Stated.{part_at};
ghost use Rattle.params.specs.Table.{row_of, old_row_of, mask_row_of};
ghost use Rattle.params.specs.Ranges.{IsRowKept, IsNatural, IsSigned, AreInputs, IsU32, IsI32, AreU32, AreI32, naturals, matrix, flag_at, natural_at, signed_at, naturals_at, matrix_at, pairs_of, nodes_of, nodes_at, params_from, old_from, shape_from};

use crate::blending::Shape;
use crate::masks::MaskKind;
use crate::modules::Module;
use crate::nodes::Nodes20;
use crate::old::{OldParams, OldVersion};
use crate::part::{Numbers, Three};
use crate::row::Cell;
use crate::rows;
use crate::settings::{self, Params};

fn natural(value: i64) -> u32
    requires { IsU32 value }
    ensures { result ≡ natural_of value }
{
    value as u32
}

fn signed(value: i64) -> i32
    requires { IsI32 value }
    ensures { result ≡ value }
{
    value as i32
}

fn naturals(values: Three) -> [u32; 3]
    requires { AreU32 values }
    ensures { result ≡ naturals values }
{
    [natural(values.0), natural(values.1), natural(values.2)]
}

fn matrix(rows: (Three, Three, Three)) -> [i32; 9]
    requires { AreI32 rows }
    ensures { result ≡ matrix rows }
{
    let (red, green, blue) = rows;
    [
        signed(red.0),
        signed(red.1),
        signed(red.2),
        signed(green.0),
        signed(green.1),
        signed(green.2),
        signed(blue.0),
        signed(blue.1),
        signed(blue.2),
    ]
}

#[tactic(auto, using(crate::proofs::RowLemmas::part_there, crate::proofs::RowLemmas::part_past))]
fn part_at<'a>(parts: &[Numbers<'a>], at: usize) -> Numbers<'a>
    ensures { seen result ≡ part_at (all_seen parts.now) at }
{
    if at < parts.len() {
        parts[at]
    } else {
        Numbers::Flag(false)
    }
}

fn flag_at(parts: &[Numbers<'_>], at: usize) -> bool
    ensures { result ≡ flag_at (all_seen parts.now) at }
{
    match part_at(parts, at) {
        Numbers::Flag(flag) => flag,
        _ => false,
    }
}

pub(crate) fn natural_at(row: &[Cell], parts: &[Numbers<'_>], at: usize) -> u32
    requires kept { IsRowKept row.now (all_seen parts.now) }
    requires cell { IsNatural row.now at }
    ensures { result ≡ natural_at (all_seen parts.now) at }
{
    match part_at(parts, at) {
        Numbers::One(value) => natural(value),
        _ => 0,
    }
}

fn signed_at(row: &[Cell], parts: &[Numbers<'_>], at: usize) -> i32
    requires kept { IsRowKept row.now (all_seen parts.now) }
    requires cell { IsSigned row.now at }
    ensures { result ≡ signed_at (all_seen parts.now) at }
{
    match part_at(parts, at) {
        Numbers::One(value) => signed(value),
        _ => 0,
    }
}

fn naturals_at(row: &[Cell], parts: &[Numbers<'_>], at: usize) -> [u32; 3]
    requires kept { IsRowKept row.now (all_seen parts.now) }
    requires cell { IsNatural row.now at }
    ensures { result ≡ naturals_at (all_seen parts.now) at }
{
    match part_at(parts, at) {
        Numbers::Three(values) => naturals(values),
        _ => [0, 0, 0],
    }
}

fn matrix_at(row: &[Cell], parts: &[Numbers<'_>], at: usize) -> [i32; 9]
    requires kept { IsRowKept row.now (all_seen parts.now) }
    requires cell { IsSigned row.now at }
    ensures { result ≡ matrix_at (all_seen parts.now) at }
{
    match part_at(parts, at) {
        Numbers::Nine(rows) => matrix(rows),
        _ => [0, 0, 0, 0, 0, 0, 0, 0, 0],
    }
}

fn nodes_of(pairs: &[(i64, i64)]) -> Nodes20
    requires inputs { AreInputs pairs.now }
    requires few { length pairs.now ≤ 20 }
    ensures { result ≡ nodes_of pairs.now }
{
    let mut nodes = Nodes20::none();
    for pair in pairs {
        nodes.push((natural(pair.0), natural(pair.1)));
    }
    nodes
}

#[tactic(auto, using(crate::proofs::KeptLemmas::nodes_back))]
fn nodes_in(part: &Numbers<'_>) -> Nodes20
    requires inputs { AreInputs (pairs_of (seen part.now)) }
    requires few { length (pairs_of (seen part.now)) ≤ 20 }
    ensures { result ≡ nodes_of (pairs_of (seen part.now)) }
{
    match part {
        Numbers::Pairs(pairs) => nodes_of(pairs),
        Numbers::Nodes(nodes) => Nodes20::few(nodes),
        _ => Nodes20::none(),
    }
}

fn nodes_at(row: &[Cell], parts: &[Numbers<'_>], at: usize) -> Nodes20
    requires { IsRowKept row.now (all_seen parts.now) }
    ensures { result ≡ nodes_at (all_seen parts.now) at }
{
    nodes_in(&part_at(parts, at))
}

/// The settings of a module whose fields hold the parts.
pub(crate) fn params_from(module: Module, parts: &[Numbers<'_>]) -> Params
    requires { IsRowKept (row_of «module») (all_seen parts.now) }
    ensures { result ≡ params_from «module» (all_seen parts.now) }
{
    match module {
        Module::RawPrepare => Params::RawPrepare(settings::RawPrepare {
            black: naturals_at(&rows::RAW_PREPARE, parts, 0),
            white: natural_at(&rows::RAW_PREPARE, parts, 1),
        }),
        Module::Temperature => Params::Temperature(settings::Temperature {
            mul: naturals_at(&rows::TEMPERATURE, parts, 0),
        }),
        Module::Demosaic => Params::Demosaic,
        Module::Orientation => Params::Orientation(settings::Orientation {
            swap: flag_at(parts, 0),
            flip_x: flag_at(parts, 1),
            flip_y: flag_at(parts, 2),
        }),
        Module::Crop => Params::Crop(settings::Crop {
            left: natural_at(&rows::CROP, parts, 0),
            top: natural_at(&rows::CROP, parts, 1),
            right: natural_at(&rows::CROP, parts, 2),
            bottom: natural_at(&rows::CROP, parts, 3),
        }),
        Module::Exposure => Params::Exposure(settings::Exposure {
            black: signed_at(&rows::EXPOSURE, parts, 0),
            gain: natural_at(&rows::EXPOSURE, parts, 1),
            stops: signed_at(&rows::EXPOSURE, parts, 2),
        }),
        Module::ChannelMixer => Params::ChannelMixer(settings::ChannelMixer {
            rows: matrix_at(&rows::CHANNEL_MIXER, parts, 0),
        }),
        Module::ToneCurve => Params::ToneCurve(settings::ToneCurve {
            red: nodes_at(&rows::TONE_CURVE, parts, 0),
            green: nodes_at(&rows::TONE_CURVE, parts, 1),
            blue: nodes_at(&rows::TONE_CURVE, parts, 2),
        }),
        Module::BoxBlur => Params::BoxBlur(settings::BoxBlur {
            radius: natural_at(&rows::BOX_BLUR, parts, 0),
        }),
        Module::Sharpen => Params::Sharpen(settings::Sharpen {
            radius: natural_at(&rows::SHARPEN, parts, 0),
            amount: natural_at(&rows::SHARPEN, parts, 1),
        }),
    }
}

/// The settings of an old version whose fields hold the parts.
pub(crate) fn old_from(old: OldVersion, parts: &[Numbers<'_>]) -> OldParams
    requires { IsRowKept (old_row_of old) (all_seen parts.now) }
    ensures { result ≡ old_from old (all_seen parts.now) }
{
    match old {
        OldVersion::Exposure1 => OldParams::Exposure1 {
            black: signed_at(&rows::EXPOSURE_1, parts, 0),
            gain: natural_at(&rows::EXPOSURE_1, parts, 1),
        },
        OldVersion::ToneCurve1 => OldParams::ToneCurve1 {
            nodes: nodes_at(&rows::TONE_CURVE_1, parts, 0),
        },
    }
}

/// The mask whose fields hold the parts.
pub(crate) fn shape_from(kind: MaskKind, parts: &[Numbers<'_>]) -> Shape
    requires { IsRowKept (mask_row_of kind) (all_seen parts.now) }
    ensures { result ≡ shape_from kind (all_seen parts.now) }
{
    match kind {
        MaskKind::Gradient => Shape::Gradient {
            ax: natural_at(&rows::GRADIENT, parts, 0),
            ay: natural_at(&rows::GRADIENT, parts, 1),
            dx: signed_at(&rows::GRADIENT, parts, 2),
            dy: signed_at(&rows::GRADIENT, parts, 3),
            slope: natural_at(&rows::GRADIENT, parts, 4),
        },
        MaskKind::Ellipse => Shape::Ellipse {
            cx: natural_at(&rows::ELLIPSE, parts, 0),
            cy: natural_at(&rows::ELLIPSE, parts, 1),
            ux: signed_at(&rows::ELLIPSE, parts, 2),
            uy: signed_at(&rows::ELLIPSE, parts, 3),
            a: natural_at(&rows::ELLIPSE, parts, 4),
            b: natural_at(&rows::ELLIPSE, parts, 5),
            feather: natural_at(&rows::ELLIPSE, parts, 6),
        },
    }
}
