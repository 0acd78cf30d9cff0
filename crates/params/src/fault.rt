ghost use Rattle.std.specs.Prelude.{◌≡◌, Some};
ghost use Rattle.params.specs.Names.{name_of_field};
ghost use Rattle.params.specs.declared.fault.JsonEnd.TheVariants.{Param, Memory};

use std::alloc::{AllocError, AllocFailed};
use std::fmt;
use thiserror::Error;

/// A field of a module's settings, of a blend or of a mask, by its key in scripts. `Blend` stands for a
/// blend as a whole, where its module doesn't blend.
#[derive(Clone, Copy, Debug, PartialEq, Eq, Hash)]
pub enum Field {
    Black,
    White,
    Mul,
    Swap,
    FlipX,
    FlipY,
    Left,
    Top,
    Right,
    Bottom,
    Gain,
    Stops,
    Rows,
    Nodes,
    Red,
    Green,
    Blue,
    Radius,
    Amount,
    Opacity,
    Ax,
    Ay,
    Dx,
    Dy,
    Slope,
    Cx,
    Cy,
    Ux,
    Uy,
    A,
    B,
    Feather,
    Blend,
}

impl Field {
    /// The field's key in scripts, and `blend` for `Blend`.
    pub fn name(self) -> &'static str
        ensures value { result.now ≡ name_of_field self }
    {
        match self {
            Field::Black => "black",
            Field::White => "white",
            Field::Mul => "mul",
            Field::Swap => "swap",
            Field::FlipX => "flip_x",
            Field::FlipY => "flip_y",
            Field::Left => "left",
            Field::Top => "top",
            Field::Right => "right",
            Field::Bottom => "bottom",
            Field::Gain => "gain",
            Field::Stops => "stops",
            Field::Rows => "rows",
            Field::Nodes => "nodes",
            Field::Red => "red",
            Field::Green => "green",
            Field::Blue => "blue",
            Field::Radius => "radius",
            Field::Amount => "amount",
            Field::Opacity => "opacity",
            Field::Ax => "ax",
            Field::Ay => "ay",
            Field::Dx => "dx",
            Field::Dy => "dy",
            Field::Slope => "slope",
            Field::Cx => "cx",
            Field::Cy => "cy",
            Field::Ux => "ux",
            Field::Uy => "uy",
            Field::A => "a",
            Field::B => "b",
            Field::Feather => "feather",
            Field::Blend => "blend",
        }
    }
}

impl fmt::Display for Field {
    ghost output = { λ field. Some (name_of_field field) };

    fn fmt<W: fmt::Write>(&self, f: &mut fmt::Formatter<W>) -> fmt::Result {
        f.write_str(self.name())
    }
}

/// A number of the settings that lies outside its range: its field, its place in the field's list
/// counted from 0 (0 where the field isn't a list), and the number.
#[derive(Clone, Copy, Debug, PartialEq, Eq, Hash, Error)]
#[error("{field} {value}")]
pub struct ParamFault {
    pub field: Field,
    pub at: u32,
    pub value: i64,
}

/// Why a JSON value isn't settings or a blend: it hasn't their form, or it has and a number lies outside
/// its range, or memory ran out.
#[derive(Debug, Drop, Error)]
pub enum JsonEnd {
    #[error("form")]
    Form,
    #[error("param {0}")]
    Param(ParamFault),
    #[error("out of memory")]
    Memory,
}

impl From<ParamFault> for JsonEnd {
    ghost from_gives = { λ fault end. end ≡ Param fault };

    fn from(fault: ParamFault) -> JsonEnd {
        JsonEnd::Param(fault)
    }
}

impl From<AllocError> for JsonEnd {
    ghost from_gives = { λ _ end. end ≡ Memory };

    fn from(_refused: AllocError) -> JsonEnd {
        JsonEnd::Memory
    }
}

impl<T: Drop> From<AllocFailed<T>> for JsonEnd {
    ghost from_gives = { λ _ end. end ≡ Memory };

    fn from(_refused: AllocFailed<T>) -> JsonEnd {
        JsonEnd::Memory
    }
}
