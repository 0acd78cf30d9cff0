//! The kinds of drawn masks, and what is known of each.
ghost use Rattle.std.specs.Prelude.{◌≡◌, IsTrue};
ghost use Rattle.params.specs.Ranges.{kind_of};
ghost use Rattle.params.specs.Stated.{mask_named, is_plain};
ghost use Rattle.params.specs.Table.{name_of_mask, mask_row_of};

use crate::blending::Shape;
use crate::row::Cell;
use crate::rows::{ELLIPSE, GRADIENT};

/// Which mask a shape is.
#[derive(Clone, Copy)]
pub(crate) enum MaskKind {
    Gradient,
    Ellipse,
}

impl MaskKind {
    /// The fields of such a mask.
    pub fn row(self) -> &'static [Cell]
        ensures value { result.now ≡ mask_row_of self }
        ensures plain { IsTrue (is_plain result.now) }
    {
        match self {
            MaskKind::Gradient => &GRADIENT,
            MaskKind::Ellipse => &ELLIPSE,
        }
    }

    /// The name that scripts give such a mask.
    pub fn name(self) -> &'static str
        ensures { result.now ≡ name_of_mask self }
    {
        match self {
            MaskKind::Gradient => "gradient",
            MaskKind::Ellipse => "ellipse",
        }
    }
}

/// The kind of mask of that name, if there is one.
pub(crate) fn mask_named(name: &str) -> Option<MaskKind>
    ensures { result ≡ mask_named name.now }
{
    match name {
        "gradient" => Some(MaskKind::Gradient),
        "ellipse" => Some(MaskKind::Ellipse),
        _ => None,
    }
}

/// Which mask the shape is.
pub(crate) fn kind_of(shape: &Shape) -> MaskKind
    ensures { result ≡ kind_of shape.now }
{
    match shape {
        Shape::Gradient { .. } => MaskKind::Gradient,
        Shape::Ellipse { .. } => MaskKind::Ellipse,
    }
}
