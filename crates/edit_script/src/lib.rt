//! Edit scripts: the settings of a session, the history that it opens with and the steps by which a
//! picture is developed, read from JSON and written as JSON.
//!
//! The form is this project's own. A script is an object (RFC 8259) with `steps`, a list, and, where they
//! are not at their defaults, `settings` and `history`. No object has other keys than these, a key
//! without a default has to stand, and a number is a whole one, written without a point or an exponent.
//!
//! | Object | Keys |
//! |---|---|
//! | `settings` | `cfa` "RGGB", "BGGR", "GRBG", "GBRG" or null (null); `depth` 8 or 16 (8); `preview_side` 64 to 720 (720); `workers` 1 to 4 (2); `stage_entries` 1 to 64 (16); `stage_pixels` 0 to 33,554,432 (8,388,608); `mip_slots` 1 to 4 (4); `undo_depth` 1 to 64 (32); `view` (factor 1, the middle, 720 by 480); `second`, a view or null (null) |
//! | `history` (the start history) | `items`, a list; `end` 0 to 65,535; `order`, a list of pairs of a module's name and an instance |
//! | an item | `module`, by its name; `instance` 0 to 255 (0); `enabled` (true); `params`; `blend`, or null (null) |
//! | a view | `factor` 1 to 64; `cx`, `cy` 0 to 65,536; `w`, `h` 1 to 16,384, with a product of at most 786,432 |
//!
//! | A step's `do` | Other keys |
//! |---|---|
//! | "set" | those of an item |
//! | "select" | `end` 0 to 65,535 |
//! | "compress", "undo", "redo", "settle" | none |
//! | "add", "move" | `module`, `instance`, `place` 0 to 65,535 |
//! | "delete" | `module`, `instance` |
//! | "view", "second" | those of a view |
//! | "export" | `box`, null or a list of two sides of 1 to 16,384 (null); `depth` 8 or 16 (8) |
//! | "thumbnail" | `box`, a list of two sides of 1 to 720 |
#![tactic(auto)]

mod faults;
mod form_end;
mod history_form;
mod item_data;
mod item_form;
mod opening;
mod part_data;
mod parts;
mod reading;
mod settings_form;
mod step_data;
mod step_form;
mod writing;

pub use edit_steps::{Reason, Script, ScriptEnd, ScriptFault, Settings, Step};
pub use reading::read;
pub use writing::write;
