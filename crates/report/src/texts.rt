//! The text of the verdicts of runs of tests.

ghost use Rattle.std.specs.Prelude.{◌≡◌, ◌++◌, IfOk, OnOk};
ghost use Rattle.std.specs.List.{flat_map};
ghost use Rattle.report.specs.TestTexts.{case_line, case_lines, count_line, no_tests, run_text, shows_output, summary, summary_line, test_text, verdict_line, verdict_word};

use crate::puts::{put, put_count, put_shown};
use crate::tally::{Tally, has_run_passed, have_all_passed, tally_of};
use base::{NoMemory, Text};
use std::alloc::Global;
use testbench_runs::{RunEnd, SHOWN_LIMIT, TestEnd, Verdict};

#[tactic(auto, unfolding(crate::specs::TestTexts::verdict_word))]
fn put_verdict(out: &mut Vec<u8>, verdict: Verdict) -> Result<(), NoMemory>
    ensures { OnOk result (out.new.items ≡ out.old.items ++ verdict_word verdict) }
{
    match verdict {
        Verdict::Passed => put(out, b"pass "),
        Verdict::Failed => put(out, b"fail "),
        Verdict::Skipped => put(out, b"skip "),
    }
}

fn put_case(out: &mut Vec<u8>, name: &[u8], verdict: Verdict) -> Result<(), NoMemory>
    ensures { OnOk result (out.new.items ≡ out.old.items ++ case_line name.now verdict) }
{
    put_verdict(out, verdict)?;
    put(out, name)?;
    put(out, b"\n")?;
    Ok(())
}

/// Puts the lines of cases that have a verdict.
fn put_cases(out: &mut Vec<u8>, names: &[Text], verdicts: &[Verdict]) -> Result<(), NoMemory>
    ensures { OnOk result (out.new.items ≡ out.old.items ++ case_lines names.now verdicts.now) }
{
    let count = names.len().min(verdicts.len());
    for i in 0..count {
        let name = names[i].bytes();
        put_case(out, name, verdicts[i])?;
    }
    Ok(())
}

fn shows_output(verbose: bool, quiet: bool, run: &RunEnd) -> bool
    ensures { result ≡ shows_output verbose quiet run.now }
{
    !quiet && (verbose || !has_run_passed(run))
}

fn put_run(out: &mut Vec<u8>, verbose: bool, quiet: bool, run: &RunEnd) -> Result<(), NoMemory>
    ensures { OnOk result (out.new.items ≡ out.old.items ++ run_text verbose quiet run.now) }
{
    if shows_output(verbose, quiet, run) {
        put_shown(out, SHOWN_LIMIT, run.output.bytes())?;
    }
    put_cases(out, run.names.as_slice(), run.verdicts.as_slice())?;
    Ok(())
}

fn put_runs(out: &mut Vec<u8>, verbose: bool, quiet: bool, runs: &[RunEnd]) -> Result<(), NoMemory>
    ensures { OnOk result
        (out.new.items ≡ out.old.items ++ flat_map (run_text verbose quiet) runs.now) }
{
    for run in runs {
        put_run(out, verbose, quiet, run)?;
    }
    Ok(())
}

/// Puts how many cases of all have a verdict.
#[tactic(auto, unfolding(crate::specs::TestTexts::count_line))]
fn put_count_line(
    alloc: Global,
    out: &mut Vec<u8>,
    verdict: Verdict,
    count: u128,
    total: u128,
) -> Result<(), NoMemory>
    ensures { OnOk result (out.new.items ≡ out.old.items ++ count_line verdict count total) }
{
    put_verdict(out, verdict)?;
    put_count(alloc, out, count)?;
    put(out, b" of ")?;
    put_count(alloc, out, total)?;
    put(out, b"\n")?;
    Ok(())
}

#[tactic(auto, unfolding(crate::specs::TestTexts::summary_line))]
fn put_summary_line(out: &mut Vec<u8>) -> Result<(), NoMemory>
    ensures { OnOk result (out.new.items ≡ out.old.items ++ summary_line) }
{
    put(out, b"==== Summary\n")
}

#[tactic(auto, unfolding(crate::specs::TestTexts::verdict_line))]
fn put_verdict_line(out: &mut Vec<u8>, all: bool) -> Result<(), NoMemory>
    ensures { OnOk result (out.new.items ≡ out.old.items ++ verdict_line all) }
{
    if all {
        return put(out, b"All passed!\n");
    }
    put(out, b"Some failed!\n")
}

fn put_summary(alloc: Global, out: &mut Vec<u8>, counts: &Tally, all: bool) -> Result<(), NoMemory>
    ensures { OnOk result (out.new.items ≡ out.old.items ++ summary counts.now all) }
{
    put_summary_line(out)?;
    put_count_line(alloc, out, Verdict::Passed, counts.passed, counts.total)?;
    put_count_line(alloc, out, Verdict::Failed, counts.failed, counts.total)?;
    put_count_line(alloc, out, Verdict::Skipped, counts.skipped, counts.total)?;
    put_verdict_line(out, all)?;
    Ok(())
}

#[tactic(auto, unfolding(crate::specs::TestTexts::no_tests))]
fn no_tests(alloc: Global) -> Result<Text, NoMemory>
    ensures { IfOk result (λ text. text ≡ no_tests) }
{
    Ok(Text::from_slice(alloc, b"No tests were run!\n")?)
}

/// The text of runs of tests. For each run, in order, it has:
///
/// - what the run printed, up to 4,096 bytes, if `quiet` is false and either `verbose` is true or a case of the run has not passed,
/// - a line for each case, with the verdict and the full name.
///
/// After the runs it has the number of cases with each verdict, and whether all have passed. Without cases the text says only
/// that no tests were run. A name without a verdict, or a verdict without a name, has no line. Time and memory are in proportion
/// to the bytes of the text.
pub fn test_text(alloc: Global, end: &TestEnd, verbose: bool, quiet: bool) -> Result<Text, NoMemory>
    ensures { IfOk result (λ text. text ≡ test_text verbose quiet end.now.runs) }
{
    let runs = end.runs.as_slice();
    let counts = tally_of(runs);
    if counts.total == 0 {
        return no_tests(alloc);
    }
    let mut text = Vec::new(alloc);
    put_runs(&mut text, verbose, quiet, runs)?;
    put_summary(alloc, &mut text, &counts, have_all_passed(runs))?;
    Ok(Text::from_vec(text))
}
