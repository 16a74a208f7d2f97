//! The sources of a project: what is read of a tree, or why nothing is compiled.
//! The runs of tests that a project which was read has, and how long the names of its tests are: as long as its texts at the
//! most.
#![tactic(auto)]

mod asking;
mod laws;
mod linking;
mod planning;
mod projects;
mod query;
mod reading;
mod scanning;
mod stops;
mod texts;

pub use laws::laws_of_bench_sizes;
pub use linking::ReadProject;
pub use planning::planned_runs;
pub use query::{Query, QueryKind, select_tests};
pub use reading::read_project;
pub use stops::ReadStop;
