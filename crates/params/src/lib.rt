//! The settings of the modules, of blending and of masks, by a table with a row for each version of a
//! module, for a blend and for each mask: their types and ranges, the first value that lies outside its
//! range, and their JSON form both ways.
#![tactic(auto)]

mod blend_form;
mod blending;
mod checks;
mod curve;
mod fault;
pub mod form;
mod from_parts;
mod masks;
mod modules;
mod nodes;
mod old;
mod part;
mod parts;
mod reading;
mod row;
mod row_data;
mod row_fault;
mod row_form;
mod rows;
mod rules;
mod settings;
mod to_parts;
mod writing;

pub use blending::{Blend, Mode, Shape, mode_named};
pub use checks::{check, check_blend};
pub use fault::{Field, JsonEnd, ParamFault};
pub use modules::{MODULES, Module, module_named};
pub use nodes::Nodes20;
pub use old::{OldParams, check_old, migrate};
pub use reading::{blend_of_json, of_json};
pub use settings::{
    BoxBlur, ChannelMixer, Crop, Exposure, Orientation, Params, RawPrepare, Sharpen, Temperature,
    ToneCurve, copy,
};
pub use writing::{blend_to_json, to_json};
