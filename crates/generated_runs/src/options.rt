//! The options of a run of the generated project, and its result.

use base::Text;
use base_outcomes::Outcome;

/// How many packages are generated beside the bench, how many children run at once at most, and whether the answer is the
/// same if tests fail.
#[derive(Clone, Copy, Debug, PartialEq, Eq)]
pub struct GenerateOptions {
    pub packages: u32,
    pub slots: u32,
    pub exit_0: bool,
}

/// The answer, and the text to put.
#[derive(Drop)]
pub struct GeneratedSaid {
    pub outcome: Outcome,
    pub text: Text,
}
