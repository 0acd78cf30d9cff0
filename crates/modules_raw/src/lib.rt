//! Sources, their levels, and the modules that make a camera's mosaic a picture.
//!
//! Each kernel makes a region of its module's output from a plane that covers what the region needs, and
//! gives that cut of the output of the whole picture, whatever else the plane holds.
#![tactic(auto)]

mod balancing;
mod channel_map;
mod demosaicing;
mod edges;
mod in_turn;
mod levelling;
mod levels;
mod mapping;
mod mosaic_rows;
mod preparing;
mod source;

pub use balancing::{temperature, temperature_in_turn};
pub use demosaicing::{demosaic, demosaic_in_turn};
pub use levelling::level;
pub use levels::{level_of_preview, level_of_thumbnail, level_sides};
pub use preparing::{raw_prepare, raw_prepare_in_turn};
pub use source::Source;
