//! The answer and the text of a run of the generated project.

ghost use Rattle.std.specs.Prelude.{◌≡◌, ◌≤◌, ◌<◌, ◌^◌, ◌++◌, ℕ, List, Err, length, count_by, IfOk, OnOk};
ghost use Rattle.std.specs.List.{list_all};
ghost use Rattle.base.specs.declared.child.Event.{Event};
ghost use Rattle.outside.specs.Records.{Record};
ghost use Rattle.run_spec.specs.Statuses.{is_compiled};
ghost use Rattle.report.specs.Texts.{shown_bytes, build_text, warning_text};
ghost use Rattle.run_build.specs.Ran.{is_made};
ghost use Rattle.project_reading.specs.Reading.{SourceReading, Found};
ghost use Rattle.project_reading.specs.Sources.{LeadsTo};
ghost use Rattle.project_reading.specs.declared.stops.ReadStop.TheVariants as why;
ghost use Rattle.generated_runs.specs.Said.{IsAnswer, refusal_said, limit_said, statuses_said, counted_said, tested_said, second_said, generated_said};

use crate::options::{GenerateOptions, GeneratedSaid};
use base::{NoMemory, Text};
use base_outcomes::{Limit, Outcome, Refusal};
use generated_project::{Counts, count_lines};
use project_reading::{ReadProject, ReadStop};
use report::{
    build_outcome, build_text, limit_text, refusal_text, tally_of, tests_outcome, warning_text,
};
use run_spec::{FileStatus, FileStatusList};
use run_tests::Tested;
use std::alloc::Global;
use testbench_runs::TestEnd;

fn is_compiled(status: &FileStatus) -> bool
    ensures { result ≡ is_compiled status.now }
{
    matches!(status, FileStatus::Compiled)
}

fn is_made(status: &FileStatus) -> bool
    ensures { result ≡ is_made status.now }
{
    match status {
        FileStatus::Fresh => true,
        FileStatus::Compiled => true,
        FileStatus::Refused { code: _, output: _ } => false,
        FileStatus::Skipped => false,
        FileStatus::Left => false,
    }
}

/// Whether all files of a build are made.
pub fn are_made(statuses: &[FileStatus]) -> bool
    ensures { result ≡ list_all is_made statuses.now }
{
    statuses.iter().all(|status| is_made(status))
}

/// How many files a build compiled.
pub fn compiled_count(statuses: &[FileStatus]) -> u64
    ensures { result ≡ count_by is_compiled statuses.now }
{
    let mut count = 0;
    for status in statuses {
        if is_compiled(status) {
            count += 1;
        }
    }
    count
}

fn refusal_said(alloc: Global, reason: Refusal) -> Result<GeneratedSaid, NoMemory>
    ensures said { IfOk result (λ said. said ≡ refusal_said reason) }
    ensures plain { IfOk result (λ said. IsAnswer said.outcome) }
{
    let text = refusal_text(alloc, &reason)?;
    Ok(GeneratedSaid {
        outcome: Outcome::Refused(reason),
        text,
    })
}

fn limit_said(alloc: Global, limit: Limit, number: u64) -> Result<GeneratedSaid, NoMemory>
    ensures said { IfOk result (λ said. said ≡ limit_said limit number) }
    ensures plain { IfOk result (λ said. IsAnswer said.outcome) }
{
    Ok(GeneratedSaid {
        outcome: Outcome::OverLimit(limit),
        text: limit_text(alloc, limit, number)?,
    })
}

/// The answer and the text if the sources give nothing to build, before their edit or after it.
pub fn stop_said(alloc: Global, stop: ReadStop) -> Result<GeneratedSaid, NoMemory>
    requires { stop ≡ why.Failed → ⊥ }
    ensures first { (options : GenerateOptions) (found edited : SourceReading) →
        (events later : List Event) → LeadsTo found (Err stop) →
        IfOk result (λ said. said ≡ generated_said options found edited events later) }
    ensures edited { (options : GenerateOptions) (compiled : ℕ) (records : List Record) →
        (found : SourceReading) (events : List Event) → LeadsTo found (Err stop) →
        IfOk result (λ said. said ≡ second_said options compiled records found events) }
    ensures none { OnOk result ((found : SourceReading) (read : ReadProject) →
        LeadsTo found (Err stop) → found ≡ Found read → ⊥) }
    ensures plain { IfOk result (λ said. IsAnswer said.outcome) }
{
    match stop {
        ReadStop::Refused(reason) => refusal_said(alloc, reason),
        ReadStop::Over(limit, number) => limit_said(alloc, limit, number),
        ReadStop::Failed => Err(NoMemory),
        ReadStop::NoMemory => Err(NoMemory),
    }
}

/// The text of a build with these statuses, after that of warnings.
fn statuses_text(
    alloc: Global,
    read: &ReadProject,
    statuses: &FileStatusList,
) -> Result<Text, NoMemory>
    requires { length statuses.now ≡ length read.now.graph }
    ensures { IfOk result (λ text.
        text ≡ warning_text read.now.project.files read.now.warnings
        ++ build_text shown_bytes read.now.graph statuses.now) }
{
    let mut text = warning_text(alloc, &read.project, &read.warnings)?.into_vec();
    text.extend_from_slice(build_text(alloc, &read.graph, statuses)?.bytes())?;
    Ok(Text::from_vec(text))
}

/// The answer and the text of a build with these statuses.
pub fn statuses_said(
    alloc: Global,
    read: &ReadProject,
    statuses: &FileStatusList,
) -> Result<GeneratedSaid, NoMemory>
    requires { length statuses.now ≡ length read.now.graph }
    ensures said { IfOk result (λ said. said ≡ statuses_said read.now statuses.now) }
    ensures plain { IfOk result (λ said. IsAnswer said.outcome) }
{
    let text = statuses_text(alloc, read, statuses)?;
    let outcome = build_outcome(alloc, &read.graph, statuses)?;
    Ok(GeneratedSaid { outcome, text })
}

/// The answer of the tests, and the lines with the counts. `first` and `second` are how many files each build compiled.
fn counted_said(
    alloc: Global,
    options: GenerateOptions,
    first: u64,
    second: u64,
    end: &TestEnd,
) -> Result<GeneratedSaid, NoMemory>
    ensures said { IfOk result (λ said. said ≡ counted_said options first second end.now) }
    ensures plain { IfOk result (λ said. IsAnswer said.outcome) }
{
    let cases = tally_of(end.runs.as_slice());
    let counts = Counts {
        files: options.packages as u64 + 1,
        first,
        second,
        passed: cases.passed,
        total: cases.total,
    };
    let text = count_lines(alloc, counts)?;
    let outcome = tests_outcome(end, options.exit_0);
    Ok(GeneratedSaid { outcome, text })
}

/// The answer and the text after the second build: those of the tests, or those of this build if no test was run. `first` is
/// how many files the first build compiled.
pub fn tested_said(
    alloc: Global,
    options: GenerateOptions,
    first: u64,
    read: &ReadProject,
    tested: &Tested,
) -> Result<GeneratedSaid, NoMemory>
    requires { length tested.now.statuses ≡ length read.now.graph }
    ensures said { IfOk result (λ said.
        said ≡ tested_said options first read.now tested.now.statuses tested.now.tests) }
    ensures plain { IfOk result (λ said. IsAnswer said.outcome) }
{
    match &tested.tests {
        None => statuses_said(alloc, read, &tested.statuses),
        Some(end) => counted_said(
            alloc,
            options,
            first,
            compiled_count(tested.statuses.as_slice()),
            end,
        ),
    }
}
