//! Builds and tests the generated project, with the same functions as any project, over a tree and a disk in memory. The
//! project is built over an empty disk. Then one file is edited, and the project is built again and tested.
#![tactic(auto)]

mod building;
mod options;
mod running;
mod saying;
mod second_build;
mod sources;

pub use options::{GenerateOptions, GeneratedSaid};
pub use running::run_generated;
