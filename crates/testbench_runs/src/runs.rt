//! Runs of tests.

use base::{Items, Text, TextList};

/// A run of tests: the cases of a bench that one child of the simulator runs. `library`, `bench` and `architecture`
/// have at most 4,194,304 bytes each. There are at most 65,536 cases, whose names have at most 4,194,304 bytes
/// together.
#[derive(Drop)]
pub struct TestRun {
    pub library: Text,
    pub bench: Text,
    pub architecture: Text,
    /// The names of the cases without the names of library and bench; empty if `whole` is true.
    pub cases: TextList,
    /// Whether the bench names no case itself; the run then is of the one case `all`.
    pub whole: bool,
    /// Whether all cases of the bench run in this one simulation.
    pub same_sim: bool,
    /// The path of the bench's file: at most 1,024 bytes.
    pub path: Text,
}

/// The runs of tests, in the order in which they are started.
pub type TestRunList = Items<TestRun>;
