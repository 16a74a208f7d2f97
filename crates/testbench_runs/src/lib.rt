//! What runs of tests are, as definitions: the runs of benches, what a simulator is asked for each, and which verdicts its
//! exit gives.
//! The runs of tests that benches have.
//! The verdicts of test cases, read from the results text that a simulator left.
#![tactic(auto)]

mod ends;
mod jobs;
mod laws;
mod lines;
mod listing;
mod names;
mod runs;
mod starts;
mod table;

pub use ends::{RunEnd, RunList, SHOWN_LIMIT, TestEnd, Verdict, VerdictList};
pub use jobs::BenchJob;
pub use laws::laws_of_runs;
pub use listing::list_runs;
pub use names::{Names, set_of};
pub use runs::{TestRun, TestRunList};
pub use table::verdicts;
