//! Masks: how far each pixel of a region is covered by a shape that was drawn on the source.
//!
//! A mask keeps its place in the source whatever crops and turns come before the module that it
//! belongs to: each pixel is traced back to the pixel of the input from which it comes.
#![tactic(auto)]

mod covering;
mod edge;
mod ellipse;
mod gradient;
mod guess;
mod lines;
mod places;

pub use covering::coverage;
