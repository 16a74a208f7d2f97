//! The verdicts on test cases, and the ends of runs.

use base::{Items, Text, TextList};

/// The most bytes of a run's output that are shown.
pub const SHOWN_LIMIT: usize = 4_096;

/// The verdict on a test case.
#[derive(Clone, Copy, Debug, PartialEq, Eq)]
pub enum Verdict {
    Passed,
    Failed,
    /// It was never started.
    Skipped,
}

/// The verdicts of cases, in their order.
pub type VerdictList = Items<Verdict>;

/// The end of a run: the full names of its cases, a verdict for each, and the first 4,096 bytes that its child printed.
/// The output of a run that was never started is empty.
#[derive(Drop)]
pub struct RunEnd {
    pub names: TextList,
    pub verdicts: VerdictList,
    pub output: Text,
}

/// The ends of runs, in the order of the runs.
pub type RunList = Items<RunEnd>;

/// The ends of all runs, in their order.
#[derive(Drop)]
pub struct TestEnd {
    pub runs: RunList,
}
