//! Tests of built files.
//!
//! - The loop that runs tests with up to 64 children at once. Runs are started in order, and the end of each is kept.
//! - A build over a disk, followed by the tests of the built files.
//! - Laws of tests that follow a build: they start over the libraries of a clean build, also in each run of a history.
#![tactic(auto)]

mod announcing;
mod build_and_test;
mod ends;
mod histories;
mod laws;
mod names;
mod recorder;
mod recording;
mod requests;
mod results;
mod runs;
mod starts;

pub use announcing::announce_long_runs;
pub use build_and_test::{Tested, test_over};
pub use histories::laws_of_histories;
pub use laws::laws_of_libraries;
pub use recorder::{NoRecorder, PassRecorder};
pub use runs::run_tests;
