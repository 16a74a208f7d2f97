//! What a build does next.

use run_spec::Step;

/// The next step of a build.
#[derive(Clone, Copy, Debug, PartialEq, Eq)]
pub enum BuildStep {
    /// All that the file at this position depends on is made: whether its record is current over that is to be looked up.
    Check(u32),
    /// No file is to be checked: the next step with the children.
    Run(Step),
}
