ghost use Rattle.std.specs.Prelude.{◌≡◌, IfOk, IsOk};

use crate::modules::Module;
use crate::nodes::Nodes20;
use std::alloc::{AllocError, Global};

/// Raw preparation: `black` for red, green and blue, each 0 to 65,535; `white` 1 to 65,535 and above
/// each black. Black becomes 0, and white 65,535.
#[derive(Clone, Copy, Debug, PartialEq, Eq, Hash)]
pub struct RawPrepare {
    pub black: [u32; 3],
    pub white: u32,
}

/// Multipliers for red, green and blue in 1/4096, each 0 to 32,768.
#[derive(Clone, Copy, Debug, PartialEq, Eq, Hash)]
pub struct Temperature {
    pub mul: [u32; 3],
}

/// The sides swapped, then mirrored in x and in y.
#[derive(Clone, Copy, Debug, PartialEq, Eq, Hash)]
pub struct Orientation {
    pub swap: bool,
    pub flip_x: bool,
    pub flip_y: bool,
}

/// The part that stays, in 1/65,536 of the sides: `left` and `top` 0 to 65,535, `right` and `bottom` 1
/// to 65,536, left below right and top below bottom.
#[derive(Clone, Copy, Debug, PartialEq, Eq, Hash)]
pub struct Crop {
    pub left: u32,
    pub top: u32,
    pub right: u32,
    pub bottom: u32,
}

/// `black` -65,535 to 65,535 is taken away, then the value is multiplied by `gain` in 1/4096, 0 to
/// 65,536, and by 2 to the power `stops`, -4 to 4.
#[derive(Clone, Copy, Debug, PartialEq, Eq, Hash)]
pub struct Exposure {
    pub black: i32,
    pub gain: u32,
    pub stops: i32,
}

/// A matrix in 1/4096, row by row, a row for each channel that comes out: each entry -32,768 to 32,768.
#[derive(Clone, Copy, Debug, PartialEq, Eq, Hash)]
pub struct ChannelMixer {
    pub rows: [i32; 9],
}

/// A curve for each channel, through 2 to 20 nodes, each number 0 to 1,048,575, whose first numbers
/// rise.
#[derive(Clone, Copy, Debug, PartialEq, Eq, Hash)]
pub struct ToneCurve {
    pub red: Nodes20,
    pub green: Nodes20,
    pub blue: Nodes20,
}

/// The mean of the square of `radius` source pixels to each side, 1 to 64.
#[derive(Clone, Copy, Debug, PartialEq, Eq, Hash)]
pub struct BoxBlur {
    pub radius: u32,
}

/// What a box blur of `radius`, 1 to 64, takes away is added `amount` times in 1/4096, 0 to 16,384.
#[derive(Clone, Copy, Debug, PartialEq, Eq, Hash)]
pub struct Sharpen {
    pub radius: u32,
    pub amount: u32,
}

/// The settings of one module. Demosaic has none. They own no memory.
#[derive(Clone, Copy, Debug, PartialEq, Eq, Hash)]
pub enum Params {
    RawPrepare(RawPrepare),
    Temperature(Temperature),
    Demosaic,
    Orientation(Orientation),
    Crop(Crop),
    Exposure(Exposure),
    ChannelMixer(ChannelMixer),
    ToneCurve(ToneCurve),
    BoxBlur(BoxBlur),
    Sharpen(Sharpen),
}

impl Params {
    ghost use Rattle.params.specs.Ranges.{module_of};

    /// The module whose settings these are.
    pub fn module(&self) -> Module
        ensures value { result ≡ module_of self.now }
    {
        match self {
            Params::RawPrepare(_) => Module::RawPrepare,
            Params::Temperature(_) => Module::Temperature,
            Params::Demosaic => Module::Demosaic,
            Params::Orientation(_) => Module::Orientation,
            Params::Crop(_) => Module::Crop,
            Params::Exposure(_) => Module::Exposure,
            Params::ChannelMixer(_) => Module::ChannelMixer,
            Params::ToneCurve(_) => Module::ToneCurve,
            Params::BoxBlur(_) => Module::BoxBlur,
            Params::Sharpen(_) => Module::Sharpen,
        }
    }
}

/// The same settings once more. Settings own no memory, so this never fails: `*params` is the same.
pub fn copy(_alloc: Global, params: &Params) -> Result<Params, AllocError>
    ensures value { IfOk result (λ p. p ≡ params.now) }
    ensures ok { IsOk result }
{
    Ok(*params)
}
