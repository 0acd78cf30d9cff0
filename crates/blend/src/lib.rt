//! Blending: a module's output laid over its input, by a mode, an opacity and a mask's cover.
#![tactic(auto)]

mod blending;
mod laying;
mod modes;
mod overlay;

pub use blending::blend;
