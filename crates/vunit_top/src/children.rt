//! The program as a child of another run of it.

ghost use Rattle.std.specs.Prelude.{◌≡◌, ◌≤◌, ◌⊎◌, ℕ, List, [], Option, None, Some};
ghost use Rattle.child_test_request.specs.Reading.{bench_at};
ghost use Rattle.child_tools.specs.Benches.{bench_answer, simulation};
ghost use Rattle.child_lines.specs.Ends.{bad_request};
ghost use Rattle.child_tools.specs.Answers.{analysis};
ghost use Rattle.outside.specs.Reports.{HasWritten};
ghost use Rattle.outside.specs.FaultCounts.{RunFaultCounts, with_input, with_output, with_reports};
ghost use Rattle.vhdl_spec.specs.Scans.{Finding, IsScanner};
ghost use Rattle.vunit_top.specs.Ends.{OutCauses, WritesFirst, WritesResults};
ghost use Rattle.vunit_top.specs.Said.{Results, Says, IsSaid, IsAccounted, child_results, child_said, exit_said, left_results};

use crate::ends::say;
use base::{Exit, MaybeText, Text};
use base_outcomes::{Outcome, OutsideObject};
use child_lines::bad_request;
use child_tools::{analyse, bench_job, run_job};
use outside::{ReportFault, Reports, Sink, SinkFault, Source, SourceFault, TakeEnd};
use std::alloc::Global;
use testbench_runs::BenchJob;

/// The most bytes that a child takes.
const INPUT_BYTES: u64 = 2147483648;

/// Puts the output of a child, if there is any, and answers its code. What was written before stays.
fn say_exit<O: Sink>(exit: &Exit, out: &mut O) -> Outcome
    ensures answer { IsSaid result → result ≡ (exit_said exit.now).outcome }
    ensures said { O.tells →
        Says result (exit_said exit.now) (O.contents out.old) (O.contents out.new) }
    ensures silent { exit.now.output ≡ [] → out.new ≡ out.old }
    ensures cause { OutCauses result (O.failed_puts out.old) (O.failed_puts out.new) }
    ensures stand { O.failed_puts out.old ≤ O.failed_puts out.new }
    ensures stays { (path text : List ℕ) (old new : List ℕ → Option (List ℕ)) →
        HasWritten path text old new → WritesFirst result path text old new }
{
    let text = exit.output.bytes();
    if text.is_empty() {
        return Outcome::Child(exit.code);
    }
    match out.put(text) {
        Ok(()) => Outcome::Child(exit.code),
        Err(SinkFault::Failed) => Outcome::OutsideFault(OutsideObject::Out),
    }
}

/// Answers that the input is not a valid request.
fn say_bad_request<O: Sink>(alloc: Global, out: &mut O) -> Outcome
    ensures answer { IsSaid result → result ≡ (exit_said bad_request).outcome }
    ensures said { O.tells →
        Says result (exit_said bad_request) (O.contents out.old) (O.contents out.new) }
    ensures silent { bad_request.output ≡ [] → out.new ≡ out.old }
    ensures cause { OutCauses result (O.failed_puts out.old) (O.failed_puts out.new) }
    ensures stand { O.failed_puts out.old ≤ O.failed_puts out.new }
{
    match bad_request(alloc) {
        Ok(exit) => say_exit(&exit, out),
        Err(_) => Outcome::NoMemory,
    }
}

/// Answers the input of a compiler child.
fn answer_source<O: Sink>(alloc: Global, input: &[u8], out: &mut O) -> Outcome
    ensures answer { (scan : List ℕ → Finding) → IsScanner scan →
        IsSaid result → result ≡ (exit_said (analysis scan input.now)).outcome }
    ensures said { (scan : List ℕ → Finding) → IsScanner scan → O.tells →
        Says result (exit_said (analysis scan input.now))
        (O.contents out.old) (O.contents out.new) }
    ensures silent { (scan : List ℕ → Finding) → IsScanner scan →
        (analysis scan input.now).output ≡ [] → out.new ≡ out.old }
    ensures cause { OutCauses result (O.failed_puts out.old) (O.failed_puts out.new) }
    ensures stand { O.failed_puts out.old ≤ O.failed_puts out.new }
{
    match analyse(alloc, input) {
        Ok(exit) => say_exit(&exit, out),
        Err(_) => Outcome::NoMemory,
    }
}

/// Takes the input of a compiler child, puts what it gives, and answers its code.
pub fn run_as_compiler<I: Source, O: Sink>(alloc: Global, input: &mut I, out: &mut O) -> Outcome
    ensures answer { (scan : List ℕ → Finding) → IsScanner scan → I.tells →
        IsSaid result → result ≡ (child_said (analysis scan) (I.left input.old)).outcome }
    ensures said { (scan : List ℕ → Finding) → IsScanner scan → I.tells → O.tells →
        Says result (child_said (analysis scan) (I.left input.old))
        (O.contents out.old) (O.contents out.new) }
    ensures silent { (scan : List ℕ → Finding) → IsScanner scan → I.tells →
        (child_said (analysis scan) (I.left input.old)).text ≡ [] → out.new ≡ out.old }
    ensures counted { (others : RunFaultCounts) → IsAccounted result
        (with_output O.Sink out.old (with_input I.Source input.old others))
        (with_output O.Sink out.new (with_input I.Source input.new others)) }
{
    match input.take(alloc, INPUT_BYTES) {
        Ok(TakeEnd::Got(source)) => answer_source(alloc, source.bytes(), out),
        Ok(TakeEnd::TooLong) => say(b"bad request\n", Outcome::Child(2), out),
        Err(SourceFault::NoMemory) => Outcome::NoMemory,
        Err(SourceFault::Failed) => Outcome::OutsideFault(OutsideObject::Input),
    }
}

/// Writes the results of a simulator child, puts its output, and answers its code.
fn leave_results<O: Sink, R: Reports>(
    exit: &Exit,
    path: &Text,
    text: &Text,
    out: &mut O,
    reports: &mut R,
) -> Outcome
    ensures answer { IsSaid result → result ≡ (exit_said exit.now).outcome }
    ensures said { O.tells →
        Says result (exit_said exit.now) (O.contents out.old) (O.contents out.new) }
    ensures silent { exit.now.output ≡ [] → out.new ≡ out.old }
    ensures writes { R.tells →
        let results : Results = record { path = path.now; text = text.now } in
        WritesResults (Some results) result (R.report reports.old) (R.report reports.new) }
    ensures counted { (others : RunFaultCounts) → IsAccounted result
        (with_output O.Sink out.old (with_reports R.Reports reports.old others))
        (with_output O.Sink out.new (with_reports R.Reports reports.new others)) }
{
    match reports.write(path, text.bytes()) {
        Ok(()) => say_exit(exit, out),
        Err(ReportFault::Failed) => Outcome::OutsideFault(OutsideObject::Report),
    }
}

/// Writes the results of a simulator child, if it has any, puts its output, and answers its code.
fn leave_exit<O: Sink, R: Reports>(
    exit: &Exit,
    task: &BenchJob,
    out: &mut O,
    reports: &mut R,
) -> Outcome
    ensures answer { IsSaid result → result ≡ (exit_said exit.now).outcome }
    ensures said { O.tells →
        Says result (exit_said exit.now) (O.contents out.old) (O.contents out.new) }
    ensures silent { exit.now.output ≡ [] → out.new ≡ out.old }
    ensures writes { R.tells →
        WritesResults (left_results (Some task.now) exit.now.results) result
        (R.report reports.old) (R.report reports.new) }
    ensures counted { (others : RunFaultCounts) → IsAccounted result
        (with_output O.Sink out.old (with_reports R.Reports reports.old others))
        (with_output O.Sink out.new (with_reports R.Reports reports.new others)) }
{
    match &exit.results {
        MaybeText::Given(text) => leave_results(exit, &task.results, text, out, reports),
        MaybeText::Nothing => say_exit(exit, out),
    }
}

/// Answers a bench job.
fn answer_task<O: Sink, R: Reports>(
    alloc: Global,
    task: &BenchJob,
    out: &mut O,
    reports: &mut R,
) -> Outcome
    ensures answer { IsSaid result → result ≡ (exit_said (bench_answer task.now)).outcome }
    ensures said { O.tells →
        Says result (exit_said (bench_answer task.now)) (O.contents out.old) (O.contents out.new) }
    ensures silent { (bench_answer task.now).output ≡ [] → out.new ≡ out.old }
    ensures writes { R.tells →
        WritesResults (left_results (Some task.now) (bench_answer task.now).results) result
        (R.report reports.old) (R.report reports.new) }
    ensures counted { (others : RunFaultCounts) → IsAccounted result
        (with_output O.Sink out.old (with_reports R.Reports reports.old others))
        (with_output O.Sink out.new (with_reports R.Reports reports.new others)) }
{
    match run_job(alloc, task) {
        Ok(exit) => leave_exit(&exit, task, out, reports),
        Err(_) => Outcome::NoMemory,
    }
}

/// Answers the input of a simulator child.
#[tactic(auto, unfolding(child_tools::specs::Benches::simulation))]
fn answer_bench<O: Sink, R: Reports>(
    alloc: Global,
    input: &[u8],
    out: &mut O,
    reports: &mut R,
) -> Outcome
    ensures answer { IsSaid result → result ≡ (exit_said (simulation input.now)).outcome }
    ensures said { O.tells →
        Says result (exit_said (simulation input.now)) (O.contents out.old) (O.contents out.new) }
    ensures silent { (simulation input.now).output ≡ [] → out.new ≡ out.old }
    ensures writes { R.tells →
        WritesResults (left_results (bench_at input.now) (simulation input.now).results) result
        (R.report reports.old) (R.report reports.new) }
    ensures counted { (others : RunFaultCounts) → IsAccounted result
        (with_output O.Sink out.old (with_reports R.Reports reports.old others))
        (with_output O.Sink out.new (with_reports R.Reports reports.new others)) }
{
    match bench_job(alloc, input) {
        Ok(Some(task)) => answer_task(alloc, &task, out, reports),
        Ok(None) => say_bad_request(alloc, out),
        Err(_) => Outcome::NoMemory,
    }
}

/// Takes the input of a simulator child, writes its results, puts what it gives, and answers its code.
pub fn run_as_simulator<I: Source, O: Sink, R: Reports>(
    alloc: Global,
    input: &mut I,
    out: &mut O,
    reports: &mut R,
) -> Outcome
    ensures answer { I.tells →
        IsSaid result → result ≡ (child_said simulation (I.left input.old)).outcome }
    ensures said { I.tells → O.tells →
        Says result (child_said simulation (I.left input.old))
        (O.contents out.old) (O.contents out.new) }
    ensures silent { I.tells →
        (child_said simulation (I.left input.old)).text ≡ [] → out.new ≡ out.old }
    ensures writes { I.tells → R.tells →
        WritesResults (child_results (I.left input.old)) result
        (R.report reports.old) (R.report reports.new) }
    ensures placed { (result ≡ Outcome.OutsideFault OutsideObject.Tree)
        ⊎ (result ≡ Outcome.OutsideFault OutsideObject.Input) → reports.new ≡ reports.old }
    ensures counted { (others : RunFaultCounts) → IsAccounted result
        (with_output O.Sink out.old (with_reports R.Reports reports.old
        (with_input I.Source input.old others)))
        (with_output O.Sink out.new (with_reports R.Reports reports.new
        (with_input I.Source input.new others))) }
{
    match input.take(alloc, INPUT_BYTES) {
        Ok(TakeEnd::Got(request)) => answer_bench(alloc, request.bytes(), out, reports),
        Ok(TakeEnd::TooLong) => say(b"bad request\n", Outcome::Child(2), out),
        Err(SourceFault::NoMemory) => Outcome::NoMemory,
        Err(SourceFault::Failed) => Outcome::OutsideFault(OutsideObject::Input),
    }
}
