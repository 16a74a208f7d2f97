//! The test benches of a project and their cases.
#![tactic(auto)]

mod architectures;
mod bench;
mod called;
mod files;
mod laws;
mod names;
mod numbers;
mod paths;
mod scanning;
mod steps;

pub use laws::laws_of_benches;
pub use scanning::benches;
