//! The generated project: its files as texts and as a tree in memory, by the number of its packages. Also the lines with the
//! counts of its builds and tests.
#![tactic(auto)]

mod files;
mod lines;
mod numbers;
mod puts;
mod tree;

pub use files::{edited_package, generated_files, package_path, package_text};
pub use lines::{Counts, count_lines};
pub use tree::GeneratedTree;
