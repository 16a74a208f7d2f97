//! The plan of a build, and the schedulers of builds and tests.
//!
//! - The plan says which files of a graph are fresh or stale by the records of a store, and which are checked later.
//! - `BuildScheduler` decides which file is checked or started next while up to 64 children run.
//! - `TestScheduler` decides which run of tests is started next while up to 64 children run.
#![tactic(auto)]

mod build_scheduler;
mod lists;
mod plans;
mod step;
mod test_scheduler;

pub use build_scheduler::BuildScheduler;
pub use plans::{Need, Needs, plan};
pub use step::BuildStep;
pub use test_scheduler::TestScheduler;
