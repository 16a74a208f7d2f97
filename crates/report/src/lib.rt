//! The output and the outcome of a run.
//!
//! - The texts of a build, of the files of a graph, of refusals and of limits, the outcome of a build, and the exit status.
//! - The verdicts of tests as text and as JUnit XML, and the outcome of tests.
//! - The output and the outcome of a build together with the tests that followed it.
//! - The list of the tests of a project, and the export that editors and scripts read.
#![tactic(auto)]

mod answer;
mod exit_status;
mod export;
mod faults;
mod file_listing;
mod laws;
mod puts;
mod report;
mod said;
mod tally;
mod test_listing;
mod texts;
mod xml;

pub use answer::tests_outcome;
pub use exit_status::exit_status_of;
pub use export::{export_json, laws_of_exports};
pub use file_listing::list_files;
pub use laws::laws_of_values;
pub use report::{build_outcome, build_text, limit_text, refusal_text, warning_text};
pub use said::{RunSaid, TestWords, said_of_run};
pub use tally::{Tally, tally_of};
pub use test_listing::list_tests;
pub use texts::test_text;
pub use xml::junit;
