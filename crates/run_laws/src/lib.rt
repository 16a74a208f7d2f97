//! The laws of runs that build.
//!
//! - Clean builds: their results for a closed part of a graph, and the records of these results.
//! - Journals of builds: their requests, artefacts, commits and statuses, compared with settled and clean builds.
//! - Runs: how long a record stays acknowledged from any disk, and what a stop leaves.
#![tactic(auto)]

mod journals;
mod laws;
mod runs;

pub use journals::{laws_of_journals, laws_of_whole_builds};
pub use laws::laws_of_clean_builds;
pub use runs::{laws_of_runs, laws_of_stops};
