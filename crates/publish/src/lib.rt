//! What a session puts of its journal: a file for each job that was done, and the manifest.
#![tactic(auto)]

mod listing;
mod names;
mod put_end;
mod putting;

pub use listing::manifest;
pub use names::file_name;
pub use put_end::PutEnd;
pub use putting::{put_file, write_all};
