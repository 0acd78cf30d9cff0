//! Pictures, regions of pictures and the planes that hold them.
//!
//! A *picture* is a definition: a kind, two sides and a value for each column, row and channel. A
//! *plane* is what the program holds: the values of one region of a picture, row by row. Every plane
//! is made by one of the few builders here, so that loops, places and threads stand in one crate.
#![tactic(auto)]

mod banding;
mod copying;
mod cover;
mod covering;
mod depth;
mod editing;
mod kind;
mod means;
mod number;
mod painting;
mod plane;
mod region;
mod row_editor;
mod row_painter;
mod trace;
mod view;

pub use banding::{BandFiller, fill_bands, paint_bands};
pub use cover::Cover;
pub use covering::paint_cover;
pub use depth::Depth;
pub use editing::{repaint, repaint_rows};
pub use kind::{Cfa, Colour, PlaneKind};
pub use means::box_mean;
pub use number::{clamp_small, clamp_top, join_floor, mul_floor, part_floor, scale_floor};
pub use painting::{paint, paint_in_turn};
pub use plane::Plane;
pub use region::Region;
pub use row_editor::RowEditor;
pub use row_painter::{ByPixel, ByValue, RowPainter};
pub use trace::Trace;
pub use view::{BoxSize, View};

/// The greatest value of a sample. White stands at `WHITE`; what is above it is kept for later
/// modules.
pub const TOP: u32 = 1_048_575;

/// The value of white: what a sample of the greatest brightness is read as, and written from.
pub const WHITE: u32 = 65_535;

/// Full cover of a pixel by a mask; also the greatest opacity.
pub const FULL_COVER: u32 = 65_536;

/// The longest side of a picture, in pixels.
pub const SIDE: u32 = 16_384;
