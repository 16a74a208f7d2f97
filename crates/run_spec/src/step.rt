//! What a build, or runs of tests, do next.

/// The next step.
#[derive(Clone, Copy, Debug, PartialEq, Eq)]
pub enum Step {
    /// The file, or the run, at this position is to be started.
    Start(u32),
    /// Nothing can be started, and some child runs: its end is to be waited for.
    Wait,
    /// Nothing can be started, and no child runs.
    Finished,
}
