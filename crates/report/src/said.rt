//! The text of a run, its report, and its outcome.

ghost use Rattle.std.specs.Prelude.{◌≡◌, ◌++◌, IfOk, Some, None, if◌then◌else◌, length};
ghost use Rattle.report.specs.Texts.{shown_bytes, build_text};
ghost use Rattle.report.specs.Junit.{junit};
ghost use Rattle.report.specs.TestTexts.{test_text};
ghost use Rattle.report.specs.Said.{run_said, said_of_build, said_of_tests};

use crate::{build_outcome, build_text, junit, test_text, tests_outcome};
use base::{Graph, NoMemory, Text};
use base_outcomes::Outcome;
use run_spec::FileStatusList;
use std::alloc::Global;
use testbench_runs::{TestEnd, TestRunList};

/// How a run reports its tests. `verbose` shows the outputs of all runs, and `quiet`, which overrides it, shows no output. With
/// `exit_0` the outcome is the same whether the tests pass or not. With `report` a report in JUnit XML is made.
#[derive(Clone, Copy, Debug, PartialEq, Eq)]
pub struct TestWords {
    pub verbose: bool,
    pub quiet: bool,
    pub exit_0: bool,
    pub report: bool,
}

/// The output and the outcome of a run.
#[derive(Drop)]
pub struct RunSaid {
    pub outcome: Outcome,
    /// The text that is printed.
    pub text: Text,
    /// The report of tests as JUnit XML, if it is wanted and tests were run.
    pub report: Option<Text>,
}

/// The text of the warnings, and then the text of a build.
fn build_part(
    alloc: Global,
    warnings: Text,
    graph: &Graph,
    statuses: &FileStatusList,
) -> Result<Text, NoMemory>
    requires { length statuses.now ≡ length graph.now }
    ensures { IfOk result (λ text.
        text ≡ warnings ++ build_text shown_bytes graph.now statuses.now) }
{
    let mut text = warnings.into_vec();
    text.extend_from_slice(build_text(alloc, graph, statuses)?.bytes())?;
    Ok(Text::from_vec(text))
}

/// The output and the outcome of a build without tests.
fn said_of_build(
    alloc: Global,
    warnings: Text,
    graph: &Graph,
    statuses: &FileStatusList,
) -> Result<RunSaid, NoMemory>
    requires { length statuses.now ≡ length graph.now }
    ensures { IfOk result (λ said. said ≡ said_of_build warnings graph.now statuses.now) }
{
    let text = build_part(alloc, warnings, graph, statuses)?;
    let outcome = build_outcome(alloc, graph, statuses)?;
    Ok(RunSaid {
        outcome,
        text,
        report: None,
    })
}

/// The report, if it is wanted.
fn report_of(
    alloc: Global,
    wanted: bool,
    runs: &TestRunList,
    end: &TestEnd,
) -> Result<Option<Text>, NoMemory>
    ensures { IfOk result (λ report.
        report ≡ (if wanted then Some (junit runs.now end.now.runs) else None)) }
{
    if wanted {
        Ok(Some(junit(alloc, runs, end)?))
    } else {
        Ok(None)
    }
}

/// The text of the warnings, and then the texts of a build and of tests.
fn whole_text(
    alloc: Global,
    warnings: Text,
    graph: &Graph,
    statuses: &FileStatusList,
    words: TestWords,
    end: &TestEnd,
) -> Result<Text, NoMemory>
    requires { length statuses.now ≡ length graph.now }
    ensures { IfOk result (λ text.
        text ≡ (warnings ++ build_text shown_bytes graph.now statuses.now)
        ++ test_text words.verbose words.quiet end.now.runs) }
{
    let mut text = build_part(alloc, warnings, graph, statuses)?.into_vec();
    text.extend_from_slice(test_text(alloc, end, words.verbose, words.quiet)?.bytes())?;
    Ok(Text::from_vec(text))
}

/// The output and the outcome of a build and of the tests that followed it.
fn said_of_tests(
    alloc: Global,
    warnings: Text,
    graph: &Graph,
    statuses: &FileStatusList,
    runs: &TestRunList,
    words: TestWords,
    end: &TestEnd,
) -> Result<RunSaid, NoMemory>
    requires { length statuses.now ≡ length graph.now }
    ensures { IfOk result (λ said.
        said ≡ said_of_tests warnings graph.now statuses.now runs.now words end.now) }
{
    let text = whole_text(alloc, warnings, graph, statuses, words, end)?;
    let report = report_of(alloc, words.report, runs, end)?;
    Ok(RunSaid {
        outcome: tests_outcome(end, words.exit_0),
        text,
        report,
    })
}

/// The output and the outcome of a run, by the statuses of its build and the ends of its tests, if tests were run. The text has
/// the warnings, the build, and the tests, in this order. If tests were run and the report is wanted, there is one. The outcome
/// is that of the tests, or, if no tests were run, that of the build.
pub fn said_of_run(
    alloc: Global,
    warnings: Text,
    graph: &Graph,
    statuses: &FileStatusList,
    runs: &TestRunList,
    words: TestWords,
    tests: &Option<TestEnd>,
) -> Result<RunSaid, NoMemory>
    requires { length statuses.now ≡ length graph.now }
    ensures { IfOk result (λ said.
        said ≡ run_said warnings graph.now statuses.now runs.now words tests.now) }
{
    match tests {
        None => said_of_build(alloc, warnings, graph, statuses),
        Some(end) => said_of_tests(alloc, warnings, graph, statuses, runs, words, end),
    }
}
