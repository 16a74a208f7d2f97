//! The job that a simulator is given.

use base::{Built, Text, TextList};

/// The job that a simulator is given: a bench with its architecture, and the names of the cases to run. With them come
/// the configuration for the bench, the path for the results, and all built files of the project in compile order. A
/// bench that names no case itself has an empty list of cases. Each text has fewer than 2^32 bytes, and there are fewer
/// than 2^32 cases.
#[derive(Drop)]
pub struct BenchJob {
    pub library: Text,
    pub bench: Text,
    pub architecture: Text,
    pub cases: TextList,
    pub runner_cfg: Text,
    pub results: Text,
    pub built: Built,
}
