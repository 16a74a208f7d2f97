//! The build of a graph over a store of records, with up to 64 children at once. Stale files are compiled, each once all its
//! dependencies are made. Each artefact is committed before the next start.
//!
//! A run over a disk opens the store and builds a graph over its records.
#![tactic(auto)]

mod building;
mod builds;
mod checks;
mod commits;
mod ends;
mod notes;
mod requests;
mod starts;
mod statuses;

pub use building::{BuildOptions, Kept, build_kept, build_over};
pub use builds::build_statuses;
