//! From the tests of a project that patterns select to the runs that carry them out.

ghost use Rattle.std.specs.Prelude.{◌≡◌, ◌≤◌, length, All, IfOk};
ghost use Rattle.testbench_runs.specs.Runs.{FitsRun, test_runs};
ghost use Rattle.project_reading.specs.Sources.{IsReadProject};
ghost use Rattle.project_reading.specs.Queries.{chosen};

use crate::{Query, ReadProject, laws_of_bench_sizes, select_tests};
use base::{CASE_LIMIT, NoMemory};
use std::alloc::Global;
use testbench_runs::{TestRunList, laws_of_runs, list_runs};

/// The runs of the tests of a project that patterns select, in the order in which they are started. There are at most
/// 65,536, and each is within the limits of a run.
pub fn planned_runs(
    alloc: Global,
    query: &Query,
    read: &ReadProject,
) -> Result<TestRunList, NoMemory>
    requires read { IsReadProject query.now read.now }
    ensures runs { IfOk result (λ runs. runs ≡ test_runs read.now.project.files
        (chosen query.now.patterns read.now.tests)) }
    ensures few { IfOk result (λ runs. length runs ≤ CASE_LIMIT) }
    ensures fits { IfOk result (λ runs. All FitsRun runs) }
{
    laws_of_bench_sizes();
    laws_of_runs();
    let tests = select_tests(alloc, &read.tests, &query.patterns)?;
    let runs = list_runs(alloc, &read.project, &tests)?;
    Ok(runs)
}
