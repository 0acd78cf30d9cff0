//! The modules that change the colour of each pixel by itself.
//!
//! Each kernel makes a region of its module's output from a plane that covers that region, and gives
//! that cut of the whole output, whatever else the plane holds.
#![tactic(auto)]

mod channel_table;
mod curve_table;
mod curving;
mod exposing;
mod migrating;
mod mixing;
mod steps;

pub use curve_table::CurveTable;
pub use curving::{curve, curve_in_turn};
pub use exposing::{exposure, exposure_in_turn};
pub use migrating::migrate_same;
pub use mixing::{mixer, mixer_in_turn};
