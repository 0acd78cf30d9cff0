//! Places and regions behind a list of modules: which sides come out, from which pixel of the input a
//! pixel comes, and which region of its input a module needs for a region of its output.
//!
//! Only orientation and crop change sides and places. Nothing here takes memory.
#![tactic(auto)]

mod kept;
mod module_trace;
mod needed;
mod placing;
mod sides;

pub use needed::roi_back;
pub use placing::Geometry;
pub use sides::roi_out;
