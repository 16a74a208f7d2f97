//! The outcome of runs of tests.

ghost use Rattle.std.specs.Prelude.{◌≡◌};
ghost use Rattle.report.specs.Counts.{tests_outcome};

use crate::tally::have_all_passed;
use base_outcomes::Outcome;
use testbench_runs::TestEnd;

/// The outcome of runs of tests: `TestsFailed` if some case has not passed and `exit_0` is false, otherwise `Done`. Without
/// cases the outcome is `Done`.
pub fn tests_outcome(end: &TestEnd, exit_0: bool) -> Outcome
    ensures { result ≡ tests_outcome end.now.runs exit_0 }
{
    if exit_0 || have_all_passed(end.runs.as_slice()) {
        Outcome::Done
    } else {
        Outcome::TestsFailed
    }
}
