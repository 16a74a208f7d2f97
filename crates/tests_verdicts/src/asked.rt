//! The preconditions of test runs on their runs and on a store, as tests at run time.

ghost use Rattle.std.specs.Prelude.{◌≡◌, ◌≤◌, ◌<◌, ℕ, All, IfOk, IsTrue, length, sum_by};
ghost use Rattle.base.specs.declared.limits.TheConstants.{TEXT_LIMIT};
ghost use Rattle.outside.specs.Records.{IsRecorded};
ghost use Rattle.run_scheduler.specs.declared.plans.Need.TheVariants.{Fresh};
ghost use Rattle.testbench_runs.specs.Runs.{FitsRun};

use base::{CASE_LIMIT, Graph, NoMemory, PATH_LIMIT, TEXT_LIMIT, Text};
use outside::Records;
use run_scheduler::{Need, plan};
use std::alloc::Global;
use testbench_runs::{TestRun, TestRunList};

/// Whether names have at most 4,194,304 bytes together.
fn are_short(names: &[Text]) -> bool
    ensures { IsTrue result → sum_by (λ name. length name) names.now ≤ TEXT_LIMIT }
{
    let mut left = TEXT_LIMIT;
    for name in names {
        let size = name.bytes().len();
        if size > left {
            return false;
        }
        left -= size;
    }
    true
}

/// Whether a text has at most `limit` bytes.
fn is_short(text: &Text, limit: usize) -> bool
    ensures { IsTrue result → length text.now ≤ limit }
{
    text.bytes().len() <= limit
}

/// Whether a run is within the size limits of runs.
fn fits(run: &TestRun) -> bool
    ensures { IsTrue result → FitsRun run.now }
{
    if !is_short(&run.library, TEXT_LIMIT) {
        return false;
    }
    if !is_short(&run.bench, TEXT_LIMIT) {
        return false;
    }
    if !is_short(&run.architecture, TEXT_LIMIT) {
        return false;
    }
    if !is_short(&run.path, PATH_LIMIT) {
        return false;
    }
    let cases = run.cases.as_slice();
    if cases.len() > CASE_LIMIT {
        return false;
    }
    are_short(cases)
}

fn each_fits(runs: &[TestRun]) -> bool
    ensures { IsTrue result → All FitsRun runs.now }
{
    for run in runs {
        if !fits(run) {
            return false;
        }
    }
    true
}

/// Whether each run has the size of one.
pub(super) fn all_fit(runs: &TestRunList) -> bool
    ensures { IsTrue result → All FitsRun runs.now }
{
    each_fits(runs.as_slice())
}

fn is_fresh(need: &Need) -> bool
    ensures { IsTrue result → need.now ≡ Fresh }
{
    match need {
        Need::Fresh => true,
        Need::Stale => false,
        Need::Later => false,
    }
}

/// Whether each of these needs is met.
fn all_fresh(needs: &[Need]) -> bool
    ensures { IsTrue result → All (λ need. need ≡ Fresh) needs.now }
{
    for need in needs {
        if !is_fresh(need) {
            return false;
        }
    }
    true
}

/// Whether each file of a graph has a record of what would be asked for it now.
pub(super) fn are_recorded<K: Records>(
    alloc: Global,
    graph: &Graph,
    store: &K,
) -> Result<bool, NoMemory>
    requires { K.is_over store.now graph.now }
    ensures { IfOk result (λ are. IsTrue are → (position : ℕ) → position < length graph.now →
        IsRecorded (K.latest_of store.now) graph.now position) }
{
    let needs = plan(alloc, graph, store)?;
    Ok(all_fresh(needs.as_slice()))
}
