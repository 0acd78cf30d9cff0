//! The modules that look at a pixel's neighbourhood: box blur and sharpen.
//!
//! Each kernel makes a region of its module's output from a plane that covers that region, grown by the
//! radius within the picture, and gives that cut of the whole output, whatever else the plane holds. A
//! mean is kept by running sums, so the time doesn't grow with the radius.
#![tactic(auto)]

mod blurring;
mod boxes;
mod columns;
mod dividing;
mod filling;
mod lines;
mod radius;
mod sharpening;

pub use blurring::{box_blur, box_blur_in_turn};
pub use radius::radius_at;
pub use sharpening::{sharpen, sharpen_in_turn};
