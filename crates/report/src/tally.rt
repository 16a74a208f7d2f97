//! How many cases there are of each verdict.

ghost use Rattle.std.specs.Prelude.{◌≡◌, ◌<◌, ◌≤◌, ◌^◌, if◌then◌else◌};
ghost use Rattle.std.specs.List.{list_all};
ghost use Rattle.testbench_runs.specs.Verdicts.{is_passed_verdict};
ghost use Rattle.report.specs.Counts.{all_verdicts, has_run_passed, have_all_passed, is_failed_verdict, is_skipped_verdict, tally};

use testbench_runs::{RunEnd, Verdict};

/// How many cases there are, and how many of these have each verdict. A sum over lists has room in 128 bits, however many
/// of them there are.
#[derive(Clone, Copy)]
pub struct Tally {
    pub total: u128,
    pub passed: u128,
    pub failed: u128,
    pub skipped: u128,
}

fn is_passed(verdict: Verdict) -> bool
    ensures { result ≡ is_passed_verdict verdict }
{
    matches!(verdict, Verdict::Passed)
}

fn is_failed(verdict: Verdict) -> bool
    ensures { result ≡ is_failed_verdict verdict }
{
    matches!(verdict, Verdict::Failed)
}

fn is_skipped(verdict: Verdict) -> bool
    ensures { result ≡ is_skipped_verdict verdict }
{
    matches!(verdict, Verdict::Skipped)
}

fn one_if(is: bool) -> u128
    ensures value { result ≡ (if is then 1 else 0) }
    ensures small { result ≤ 1 }
{
    if is { 1 } else { 0 }
}

/// How many of the verdicts of a run there are of each kind.
fn run_tally(verdicts: &[Verdict]) -> Tally
    ensures counts { result ≡ tally verdicts.now }
    ensures total { result.total < 2 ^ 64 }
    ensures passed { result.passed ≤ result.total }
    ensures failed { result.failed ≤ result.total }
    ensures skipped { result.skipped ≤ result.total }
{
    let mut passed = 0;
    let mut failed = 0;
    let mut skipped = 0;
    for i in 0..verdicts.len() {
        let verdict = verdicts[i];
        passed += one_if(is_passed(verdict));
        failed += one_if(is_failed(verdict));
        skipped += one_if(is_skipped(verdict));
    }
    Tally {
        total: verdicts.len() as u128,
        passed,
        failed,
        skipped,
    }
}

/// How many of the verdicts of all runs there are of each kind.
pub fn tally_of(runs: &[RunEnd]) -> Tally
    ensures { result ≡ tally (all_verdicts runs.now) }
{
    let mut total = 0;
    let mut passed = 0;
    let mut failed = 0;
    let mut skipped = 0;
    for i in 0..runs.len() {
        let counts = run_tally(runs[i].verdicts.as_slice());
        total += counts.total;
        passed += counts.passed;
        failed += counts.failed;
        skipped += counts.skipped;
    }
    Tally {
        total,
        passed,
        failed,
        skipped,
    }
}

/// Whether all cases of a run have passed.
pub fn has_run_passed(run: &RunEnd) -> bool
    ensures { result ≡ has_run_passed run.now }
{
    run.verdicts
        .as_slice()
        .iter()
        .all(|verdict| is_passed(*verdict))
}

/// Whether all cases of all runs have passed.
pub fn have_all_passed(runs: &[RunEnd]) -> bool
    ensures { result ≡ have_all_passed runs.now }
{
    runs.iter().all(|run| has_run_passed(run))
}
