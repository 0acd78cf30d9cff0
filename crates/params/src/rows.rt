//! The table: a row for each version of a module's settings, for a blend and for each mask, its fields in
//! the order of the checks.

use crate::fault::Field;
use crate::row::{Cell, Layout, Tie};

macro_rules! cell {
    ($field:ident, $layout:ident, $low:expr, $high:expr) => {
        cell!($field, $layout, $low, $high, Tie::Free)
    };
    ($field:ident, $layout:ident, $low:expr, $high:expr, $tie:expr) => {
        Cell {
            field: Field::$field,
            layout: Layout::$layout,
            low: $low,
            high: $high,
            tie: $tie,
        }
    };
}

pub(crate) const RAW_PREPARE: [Cell; 2] = [
    cell!(Black, Three, 0, 65_535),
    cell!(White, One, 1, 65_535, Tie::Above(0)),
];

pub(crate) const TEMPERATURE: [Cell; 1] = [cell!(Mul, Three, 0, 32_768)];

pub(crate) const DEMOSAIC: [Cell; 0] = [];

pub(crate) const ORIENTATION: [Cell; 3] = [
    cell!(Swap, Flag, 0, 1),
    cell!(FlipX, Flag, 0, 1),
    cell!(FlipY, Flag, 0, 1),
];

pub(crate) const CROP: [Cell; 4] = [
    cell!(Left, One, 0, 65_535),
    cell!(Top, One, 0, 65_535),
    cell!(Right, One, 1, 65_536, Tie::Above(0)),
    cell!(Bottom, One, 1, 65_536, Tie::Above(1)),
];

pub(crate) const EXPOSURE_1: [Cell; 2] = [
    cell!(Black, One, -65_535, 65_535),
    cell!(Gain, One, 0, 65_536),
];

pub(crate) const EXPOSURE: [Cell; 3] = [
    cell!(Black, One, -65_535, 65_535),
    cell!(Gain, One, 0, 65_536),
    cell!(Stops, One, -4, 4),
];

pub(crate) const CHANNEL_MIXER: [Cell; 1] = [cell!(Rows, Nine, -32_768, 32_768)];

pub(crate) const TONE_CURVE_1: [Cell; 1] = [cell!(Nodes, Pairs, 0, 1_048_575)];

pub(crate) const TONE_CURVE: [Cell; 3] = [
    cell!(Red, Pairs, 0, 1_048_575),
    cell!(Green, Pairs, 0, 1_048_575),
    cell!(Blue, Pairs, 0, 1_048_575),
];

pub(crate) const BOX_BLUR: [Cell; 1] = [cell!(Radius, One, 1, 64)];

pub(crate) const SHARPEN: [Cell; 2] = [cell!(Radius, One, 1, 64), cell!(Amount, One, 0, 16_384)];

pub(crate) const BLEND: [Cell; 1] = [cell!(Opacity, One, 0, 65_536)];

pub(crate) const GRADIENT: [Cell; 5] = [
    cell!(Ax, One, 0, 65_536),
    cell!(Ay, One, 0, 65_536),
    cell!(Dx, One, -1_024, 1_024),
    cell!(Dy, One, -1_024, 1_024, Tie::NotBothZero(2)),
    cell!(Slope, One, 1, 65_536),
];

pub(crate) const ELLIPSE: [Cell; 7] = [
    cell!(Cx, One, 0, 65_536),
    cell!(Cy, One, 0, 65_536),
    cell!(Ux, One, -1_024, 1_024),
    cell!(Uy, One, -1_024, 1_024, Tie::NotBothZero(2)),
    cell!(A, One, 1, 65_536),
    cell!(B, One, 1, 65_536),
    cell!(Feather, One, 1, 65_536),
];
