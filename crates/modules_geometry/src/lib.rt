//! The modules that move pixels: orientation and crop.
//!
//! Each kernel makes a region of its module's output from a plane that covers what the region needs, and
//! gives that cut of the whole output, whatever else the plane holds.
#![tactic(auto)]

mod moved_rows;
mod moving;

pub use moving::{crop, crop_in_turn, orientation, orientation_in_turn};
