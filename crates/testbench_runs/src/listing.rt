//! The runs of tests that benches have.

ghost use Rattle.std.specs.Prelude.{◌≡◌, ◌++◌, ◌∷◌, [], map, IfOk, OnOk};
ghost use Rattle.testbench_runs.specs.Runs.{bench_runs, path_at, run_with, test_runs};

use crate::{TestRun, TestRunList};
use base::{NoMemory, Project, Text, TextList};
use base_outcomes::{Bench, TestCase, Tests};
use std::alloc::Global;

/// The path of the file of a bench.
fn path_of(alloc: Global, project: &Project, bench: &Bench) -> Result<Text, NoMemory>
    ensures { IfOk result (λ path. path ≡ path_at project.now.files bench.now.file) }
{
    let file = bench.file as u64;
    if file < project.files.len() {
        return project.files.get(file).name.path.copy(alloc);
    }
    Ok(Text::new(alloc))
}

/// A run of some cases of a bench.
fn run_with(
    alloc: Global,
    project: &Project,
    bench: &Bench,
    cases: TextList,
) -> Result<TestRun, NoMemory>
    ensures { IfOk result (λ run. run ≡ run_with project.now.files bench.now cases) }
{
    Ok(TestRun {
        library: bench.library.copy(alloc)?,
        bench: bench.name.copy(alloc)?,
        architecture: bench.architecture.copy(alloc)?,
        cases,
        whole: bench.whole,
        same_sim: bench.same_sim,
        path: path_of(alloc, project, bench)?,
    })
}

/// The names of all cases of a bench.
fn names_of(alloc: Global, bench: &Bench) -> Result<TextList, NoMemory>
    ensures { IfOk result (λ names. names ≡ map (λ test. test.name) bench.now.cases) }
{
    let mut names = TextList::new(alloc);
    for test in bench.cases.as_slice() {
        names.push(test.name.copy(alloc)?)?;
    }
    Ok(names)
}

/// The name of one case.
fn name_of(alloc: Global, test: &TestCase) -> Result<TextList, NoMemory>
    ensures { IfOk result (λ names. names ≡ test.now.name ∷ []) }
{
    let mut names = TextList::new(alloc);
    names.push(test.name.copy(alloc)?)?;
    Ok(names)
}

/// Adds a run for each case of a bench.
fn push_cases(
    alloc: Global,
    project: &Project,
    bench: &Bench,
    runs: &mut TestRunList,
) -> Result<(), NoMemory>
    ensures { OnOk result (runs.new ≡ runs.old ++
        map (λ test. run_with project.now.files bench.now (test.name ∷ [])) bench.now.cases) }
{
    for test in bench.cases.as_slice() {
        let cases = name_of(alloc, test)?;
        runs.push(run_with(alloc, project, bench, cases)?)?;
    }
    Ok(())
}

/// Adds the runs of a bench.
#[tactic(auto, unfolding(crate::specs::Runs::bench_runs))]
fn push_runs(
    alloc: Global,
    project: &Project,
    bench: &Bench,
    runs: &mut TestRunList,
) -> Result<(), NoMemory>
    ensures { OnOk result (runs.new ≡ runs.old ++ bench_runs project.now.files bench.now) }
{
    if bench.whole {
        let none = TextList::new(alloc);
        runs.push(run_with(alloc, project, bench, none)?)?;
        return Ok(());
    }
    if bench.same_sim {
        let names = names_of(alloc, bench)?;
        runs.push(run_with(alloc, project, bench, names)?)?;
        return Ok(());
    }
    push_cases(alloc, project, bench, runs)?;
    Ok(())
}

/// The runs of benches, in the order in which they are started:
///
/// - A bench that names no case itself has one run without cases.
/// - A bench whose cases run in one simulation has one run with all of them.
/// - Any other bench has one run for each case.
pub fn list_runs(alloc: Global, project: &Project, tests: &Tests) -> Result<TestRunList, NoMemory>
    ensures { IfOk result (λ runs. runs ≡ test_runs project.now.files tests.now) }
{
    let mut runs = TestRunList::new(alloc);
    for bench in tests.as_slice() {
        push_runs(alloc, project, bench, &mut runs)?;
    }
    Ok(runs)
}
