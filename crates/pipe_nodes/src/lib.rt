//! The pieces of a pixelpipe: what is active in a history, what a list of module instances makes of a
//! source picture, and the plain run that makes it, over whole pictures and without caches.
#![tactic(auto)]

mod active;
mod apply;
mod bands;
mod blending;
mod counting;
mod course;
mod gather;
mod input;
mod legs;
mod making;
mod piece;
mod prefix;
mod regions;
mod render;
mod run;
mod scaling;
mod show;
mod staged;
mod steps;
mod tracing;
mod windowing;

pub use active::Active;
pub use counting::active_count;
pub use gather::actives;
pub use piece::{Piece, commit};
pub use prefix::Prefix;
pub use run::{developed_bytes, uncached};
pub use show::{Show, Window};
pub use staged::Staged;
pub use steps::Steps;
pub use windowing::{needed_region, window_of};
