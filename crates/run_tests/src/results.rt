//! The ends of runs.

ghost use Rattle.std.specs.Prelude.{◌≡◌, map, take, IfOk};
ghost use Rattle.std.specs.List.{list_all};
ghost use Rattle.testbench_runs.specs.Verdicts.{ended_run, is_passed_verdict, unstarted_run};

use crate::names::case_names;
use base::{Exit, NoMemory, Text, TextList};
use std::alloc::Global;
use testbench_runs::{RunEnd, SHOWN_LIMIT, TestRun, TestRunList, Verdict, VerdictList, verdicts};

/// The verdict of a case that wasn't started, for each name.
fn all_skipped(alloc: Global, names: &TextList) -> Result<VerdictList, NoMemory>
    ensures { IfOk result (λ list. list ≡ map (λ name. Verdict.Skipped) names.now) }
{
    let mut list = VerdictList::new(alloc);
    for _ in names.as_slice() {
        list.push(Verdict::Skipped)?;
    }
    Ok(list)
}

/// The first bytes of an output, at most `limit`.
fn first_bytes(limit: usize, output: &[u8]) -> &[u8]
    ensures { result.now ≡ take limit output.now }
{
    &output[..limit.min(output.len())]
}

/// The first bytes of an output, as many as are shown.
fn shown_output(alloc: Global, output: &[u8]) -> Result<Text, NoMemory>
    ensures { IfOk result (λ text. text ≡ take SHOWN_LIMIT output.now) }
{
    Text::from_slice(alloc, first_bytes(SHOWN_LIMIT, output))
}

/// The end of a run that was never started.
fn unstarted_run(alloc: Global, run: &TestRun) -> Result<RunEnd, NoMemory>
    ensures { IfOk result (λ end. end ≡ unstarted_run run.now) }
{
    let names = case_names(alloc, run)?;
    let verdicts = all_skipped(alloc, &names)?;
    Ok(RunEnd {
        names,
        verdicts,
        output: Text::new(alloc),
    })
}

/// The end of a run whose child has ended.
pub(crate) fn ended_run(alloc: Global, run: &TestRun, exit: &Exit) -> Result<RunEnd, NoMemory>
    ensures { IfOk result (λ end. end ≡ ended_run run.now exit.now) }
{
    let names = case_names(alloc, run)?;
    let told = verdicts(alloc, &run.cases, run.whole, exit.code, &exit.results)?;
    let output = shown_output(alloc, exit.output.bytes())?;
    Ok(RunEnd {
        names,
        verdicts: told,
        output,
    })
}

fn is_passed(verdict: &Verdict) -> bool
    ensures { result ≡ is_passed_verdict verdict.now }
{
    match verdict {
        Verdict::Passed => true,
        Verdict::Failed | Verdict::Skipped => false,
    }
}

fn are_passed(verdicts: &[Verdict]) -> bool
    ensures { result ≡ list_all is_passed_verdict verdicts.now }
{
    verdicts.iter().all(|verdict| is_passed(verdict))
}

/// Whether all cases of a run have passed.
pub(crate) fn has_passed(end: &RunEnd) -> bool
    ensures { result ≡ list_all is_passed_verdict end.now.verdicts }
{
    are_passed(end.verdicts.as_slice())
}

/// The ends of runs before the first start.
pub(crate) fn unstarted_runs(alloc: Global, runs: &TestRunList) -> Result<Vec<RunEnd>, NoMemory>
    ensures { IfOk result (λ found. found.items ≡ map unstarted_run runs.now) }
{
    let mut found = Vec::new(alloc);
    for run in runs.as_slice() {
        found.push(unstarted_run(alloc, run)?)?;
    }
    Ok(found)
}
