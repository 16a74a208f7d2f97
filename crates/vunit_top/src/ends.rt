//! What a run puts, and what it then answers.

ghost use Rattle.std.specs.Prelude.{◌≡◌, ◌≤◌, ◌++◌, ℕ, List, [], length, IfOk};
ghost use Rattle.report.specs.Outcomes.{build_outcome};
ghost use Rattle.vunit_top.specs.Said.{Says, IsSaid, build_said};
ghost use Rattle.report.specs.Texts.{shown_bytes, build_text, refusal_text, limit_text, files_list, usage_text};
ghost use Rattle.report.specs.Listing.{tests_list};
ghost use Rattle.vunit_top.specs.Ends.{OutCauses, ReportCauses, Writes};

use base::{Graph, NoMemory, Text};
use base_outcomes::{Limit, Outcome, OutsideObject, Refusal, Tests};
use outside::{ReportFault, Reports, Sink, SinkFault};
use report::{build_outcome, build_text, limit_text, list_files, list_tests, refusal_text};
use run_spec::FileStatusList;
use std::alloc::Global;

/// What is put where the words aren't a command line of the program.
static USAGE: [u8; 141] =
    *b"usage: vunit_run [-lfkmvq] [--compile] [--fail-fast] [--clean] [--exit-0] [-x FILE] [-p N] [--export-json FILE] [--generate N] [PATTERN ...]\n";

/// Puts a text, and answers.
pub fn say<O: Sink>(text: &[u8], answer: Outcome, out: &mut O) -> Outcome
    requires { IsSaid answer }
    ensures answer { IsSaid result → result ≡ answer }
    ensures said { O.tells →
        Says result (record { outcome = answer; text = text.now })
        (O.contents out.old) (O.contents out.new) }
    ensures cause { OutCauses result (O.failed_puts out.old) (O.failed_puts out.new) }
    ensures stand { O.failed_puts out.old ≤ O.failed_puts out.new }
{
    match out.put(text) {
        Ok(()) => answer,
        Err(SinkFault::Failed) => Outcome::OutsideFault(OutsideObject::Out),
    }
}

/// Puts the usage text.
#[tactic(auto, unfolding(report::specs::Texts::usage_text))]
pub fn say_usage<O: Sink>(out: &mut O) -> Outcome
    ensures answer { IsSaid result → result ≡ Outcome.BadWords }
    ensures said { O.tells →
        Says result (record { outcome = Outcome.BadWords; text = usage_text })
        (O.contents out.old) (O.contents out.new) }
    ensures cause { OutCauses result (O.failed_puts out.old) (O.failed_puts out.new) }
    ensures stand { O.failed_puts out.old ≤ O.failed_puts out.new }
{
    say(&USAGE, Outcome::BadWords, out)
}

/// Puts the text of a refusal that isn't the compiler's.
pub fn say_refusal<O: Sink>(alloc: Global, refusal: Refusal, out: &mut O) -> Outcome
    ensures answer { IsSaid result → result ≡ Outcome.Refused refusal }
    ensures said { O.tells →
        Says result (record { outcome = Outcome.Refused refusal; text = refusal_text refusal })
        (O.contents out.old) (O.contents out.new) }
    ensures cause { OutCauses result (O.failed_puts out.old) (O.failed_puts out.new) }
    ensures stand { O.failed_puts out.old ≤ O.failed_puts out.new }
{
    match refusal_text(alloc, &refusal) {
        Ok(text) => say(text.bytes(), Outcome::Refused(refusal), out),
        Err(_) => Outcome::NoMemory,
    }
}

/// Puts that a quantity is over this limit.
pub fn say_limit<O: Sink>(alloc: Global, limit: Limit, number: u64, out: &mut O) -> Outcome
    ensures answer { IsSaid result → result ≡ Outcome.OverLimit limit }
    ensures said { O.tells →
        Says result (record { outcome = Outcome.OverLimit limit; text = limit_text limit number })
        (O.contents out.old) (O.contents out.new) }
    ensures cause { OutCauses result (O.failed_puts out.old) (O.failed_puts out.new) }
    ensures stand { O.failed_puts out.old ≤ O.failed_puts out.new }
{
    match limit_text(alloc, limit, number) {
        Ok(text) => say(text.bytes(), Outcome::OverLimit(limit), out),
        Err(_) => Outcome::NoMemory,
    }
}

/// Puts the files of a graph, in compile order.
pub fn say_files<O: Sink>(alloc: Global, graph: &Graph, out: &mut O) -> Outcome
    ensures answer { IsSaid result → result ≡ Outcome.Done }
    ensures said { O.tells →
        Says result (record { outcome = Outcome.Done; text = files_list graph.now })
        (O.contents out.old) (O.contents out.new) }
    ensures cause { OutCauses result (O.failed_puts out.old) (O.failed_puts out.new) }
    ensures stand { O.failed_puts out.old ≤ O.failed_puts out.new }
{
    match list_files(alloc, graph) {
        Ok(text) => say(text.bytes(), Outcome::Done, out),
        Err(_) => Outcome::NoMemory,
    }
}

/// Puts a list of tests.
pub fn say_tests<O: Sink>(alloc: Global, tests: &Tests, out: &mut O) -> Outcome
    ensures answer { IsSaid result → result ≡ Outcome.Done }
    ensures said { O.tells →
        Says result (record { outcome = Outcome.Done; text = tests_list tests.now })
        (O.contents out.old) (O.contents out.new) }
    ensures cause { OutCauses result (O.failed_puts out.old) (O.failed_puts out.new) }
    ensures stand { O.failed_puts out.old ≤ O.failed_puts out.new }
{
    match list_tests(alloc, tests) {
        Ok(text) => say(text.bytes(), Outcome::Done, out),
        Err(_) => Outcome::NoMemory,
    }
}

/// Writes a report to the file of a path.
pub fn write_report<R: Reports>(path: &Text, text: &[u8], reports: &mut R) -> Outcome
    ensures answer { IsSaid result → result ≡ Outcome.Done }
    ensures said { (put : List ℕ) →
        Says result (record { outcome = Outcome.Done; text = [] }) put put }
    ensures writes { R.tells →
        Writes result path.now text.now (R.report reports.old) (R.report reports.new) }
    ensures cause { ReportCauses result
        (R.failed_reports reports.old) (R.failed_reports reports.new) }
    ensures stand { R.failed_reports reports.old ≤ R.failed_reports reports.new }
{
    match reports.write(path, text) {
        Ok(()) => Outcome::Done,
        Err(ReportFault::Failed) => Outcome::OutsideFault(OutsideObject::Report),
    }
}

/// The text of a build with these statuses, after that of warnings.
fn whole_text(
    alloc: Global,
    warnings: Text,
    graph: &Graph,
    statuses: &FileStatusList,
) -> Result<Text, NoMemory>
    requires { length statuses.now ≡ length graph.now }
    ensures { IfOk result (λ text.
        text ≡ warnings ++ build_text shown_bytes graph.now statuses.now) }
{
    let mut text = warnings.into_vec();
    text.extend_from_slice(build_text(alloc, graph, statuses)?.bytes())?;
    Ok(Text::from_vec(text))
}

/// Puts the text of warnings and of a build with these statuses.
pub fn say_build<O: Sink>(
    alloc: Global,
    warnings: Text,
    graph: &Graph,
    statuses: &FileStatusList,
    out: &mut O,
) -> Outcome
    requires { length statuses.now ≡ length graph.now }
    ensures answer { IsSaid result → result ≡ build_outcome graph.now statuses.now }
    ensures said { O.tells →
        Says result (build_said warnings graph.now statuses.now)
        (O.contents out.old) (O.contents out.new) }
    ensures cause { OutCauses result (O.failed_puts out.old) (O.failed_puts out.new) }
    ensures stand { O.failed_puts out.old ≤ O.failed_puts out.new }
{
    match (
        whole_text(alloc, warnings, graph, statuses),
        build_outcome(alloc, graph, statuses),
    ) {
        (Ok(text), Ok(answer)) => say(text.bytes(), answer, out),
        _ => Outcome::NoMemory,
    }
}
