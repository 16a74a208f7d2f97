//! Project files: the project that the bytes of one say, or its first bad line.
#![tactic(auto)]

mod checks;
mod csv;
mod keys;
mod libraries;
mod lookups;
mod pairs;
mod parts;
mod paths;
mod tables;
mod values;

pub use csv::{is_path, read_csv_project};
pub use tables::read_toml_project;
