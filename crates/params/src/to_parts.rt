//! Settings as the parts of their row.
ghost use Rattle.std.specs.Prelude.{◌≡◌, length};
ghost use Rattle.params.specs.Seen.{seen, parts_seen};
ghost use Rattle.params.specs.Table.{one as the_one, three as the_three, nine};
ghost use Rattle.params.specs.Ranges.{natural, wide_three, wide_nine, parts_of, old_parts_of, shape_parts, IsSized};

use crate::blending::Shape;
use crate::old::OldParams;
use crate::part::Numbers;
use crate::parts::Parts;
use crate::settings::Params;

pub(crate) fn natural(value: u32) -> Numbers<'static>
    ensures { seen result ≡ natural value }
{
    Numbers::One(i64::from(value))
}

fn signed(value: i32) -> Numbers<'static>
    ensures { seen result ≡ the_one value }
{
    Numbers::One(i64::from(value))
}

fn naturals(values: &[u32; 3]) -> Numbers<'static>
    ensures value { seen result ≡ the_three (wide_three values.now) }
    ensures sized { length values.now ≡ 3 }
{
    Numbers::Three((
        i64::from(values[0]),
        i64::from(values[1]),
        i64::from(values[2]),
    ))
}

fn matrix(rows: &[i32; 9]) -> Numbers<'static>
    ensures value { seen result ≡ nine (wide_nine rows.now) }
    ensures sized { length rows.now ≡ 9 }
{
    Numbers::Nine((
        (i64::from(rows[0]), i64::from(rows[1]), i64::from(rows[2])),
        (i64::from(rows[3]), i64::from(rows[4]), i64::from(rows[5])),
        (i64::from(rows[6]), i64::from(rows[7]), i64::from(rows[8])),
    ))
}

/// The settings, in the order of their row.
pub(crate) fn parts_of<'a>(params: &'a Params) -> Parts<'a>
    ensures value { parts_seen result ≡ parts_of params.now }
    ensures sized { IsSized params.now }
{
    match params {
        Params::RawPrepare(raw) => Parts::of(&[naturals(&raw.black), natural(raw.white)]),
        Params::Temperature(temperature) => Parts::of(&[naturals(&temperature.mul)]),
        Params::Demosaic => Parts::of(&[]),
        Params::Orientation(orientation) => Parts::of(&[
            Numbers::Flag(orientation.swap),
            Numbers::Flag(orientation.flip_x),
            Numbers::Flag(orientation.flip_y),
        ]),
        Params::Crop(crop) => Parts::of(&[
            natural(crop.left),
            natural(crop.top),
            natural(crop.right),
            natural(crop.bottom),
        ]),
        Params::Exposure(exposure) => Parts::of(&[
            signed(exposure.black),
            natural(exposure.gain),
            signed(exposure.stops),
        ]),
        Params::ChannelMixer(mixer) => Parts::of(&[matrix(&mixer.rows)]),
        Params::ToneCurve(curve) => Parts::of(&[
            Numbers::Nodes(curve.red.as_slice()),
            Numbers::Nodes(curve.green.as_slice()),
            Numbers::Nodes(curve.blue.as_slice()),
        ]),
        Params::BoxBlur(blur) => Parts::of(&[natural(blur.radius)]),
        Params::Sharpen(sharpen) => {
            Parts::of(&[natural(sharpen.radius), natural(sharpen.amount)])
        }
    }
}

/// Settings of an old version, in the order of their row.
pub(crate) fn old_parts_of<'a>(old: &'a OldParams) -> Parts<'a>
    ensures { parts_seen result ≡ old_parts_of old.now }
{
    match old {
        OldParams::Exposure1 { black, gain } => Parts::of(&[signed(*black), natural(*gain)]),
        OldParams::ToneCurve1 { nodes } => Parts::of(&[Numbers::Nodes(nodes.as_slice())]),
    }
}

/// A mask, in the order of its row.
pub(crate) fn shape_parts(shape: &Shape) -> Parts<'static>
    ensures { parts_seen result ≡ shape_parts shape.now }
{
    match shape {
        Shape::Gradient {
            ax,
            ay,
            dx,
            dy,
            slope,
        } => Parts::of(&[
            natural(*ax),
            natural(*ay),
            signed(*dx),
            signed(*dy),
            natural(*slope),
        ]),
        Shape::Ellipse {
            cx,
            cy,
            ux,
            uy,
            a,
            b,
            feather,
        } => Parts::of(&[
            natural(*cx),
            natural(*cy),
            signed(*ux),
            signed(*uy),
            natural(*a),
            natural(*b),
            natural(*feather),
        ]),
    }
}
