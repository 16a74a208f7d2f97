//! A run: a build, then the tests of what was built, and the answer and the text for both.

ghost use Rattle.std.specs.Prelude.{◌≡◌, ◌≤◌, ◌++◌, [], ℕ, List, All, length, true, false, IfOk};
ghost use Rattle.outside.specs.Disks.{added_since};
ghost use Rattle.outside.specs.FaultCounts.{RunFaultCounts, with_build, with_output, with_reports};
ghost use Rattle.run_spec.specs.ChildJournal.{since};
ghost use Rattle.run_spec.specs.JournalParts.{is_given};
ghost use Rattle.report.specs.Texts.{warning_text};
ghost use Rattle.vhdl_spec.specs.Scans.{Finding};
ghost use Rattle.run_spec.specs.Faults.{Explains};
ghost use Rattle.run_build.specs.Building.{has_risen};
ghost use Rattle.run_build.specs.Orders.{order_by};
ghost use Rattle.project_reading.specs.Sources.{IsReadProject};
ghost use Rattle.run_spec.specs.TestJournal.{TestPlan};
ghost use Rattle.testbench_runs.specs.Runs.{FitsRun, test_runs};
ghost use Rattle.report.specs.Said.{run_said};
ghost use Rattle.vunit_top.specs.Acts.{RunsTests, of_each, seen};
ghost use Rattle.vunit_top.specs.Ends.{ReportCauses, WritesLast, WritesReport};
ghost use Rattle.vunit_top.specs.Reading.{Runs, chosen, testing_with, testing_of};
ghost use Rattle.vunit_top.specs.Runs.{RunsBy, run_of};
ghost use Rattle.vunit_top.specs.Said.{IsAccounted, IsSaid, Said, SaysRun, fault_outcome, plain_run};

use crate::words::RunOptions;
use base::{CASE_LIMIT, Graph, MaybeText, NoMemory, SLOT_LIMIT, Text};
use base_outcomes::{Outcome, OutsideObject};
use outside::{Disk, Procs, ReportFault, Reports, Sink, SinkFault};
use project_reading::{Query, ReadProject, planned_runs};
use report::{RunSaid, TestWords, said_of_run, warning_text};
use run_spec::RunFault;
use run_tests::{Tested, test_over};
use std::alloc::Global;
use store::RequestStore;
use testbench_runs::TestRunList;

/// The answer of a run after a fault of its build or of its tests.
pub fn fault_outcome(fault: RunFault) -> Outcome
    ensures { result ≡ fault_outcome fault }
{
    match fault {
        RunFault::NoMemory => Outcome::NoMemory,
        RunFault::StartFailed => Outcome::OutsideFault(OutsideObject::Start),
        RunFault::ChildLost => Outcome::OutsideFault(OutsideObject::Child),
        RunFault::DiskFailed => Outcome::OutsideFault(OutsideObject::Disk),
    }
}

/// Writes a report, if there is one, to the file of a path, if it has one, and answers.
fn write_last<R: Reports>(
    answer: Outcome,
    path: &MaybeText,
    report: &Option<Text>,
    reports: &mut R,
) -> Outcome
    requires { IsSaid answer }
    ensures answer { IsSaid result → result ≡ answer }
    ensures says { (put text : List ℕ) →
        SaysRun result (record { outcome = answer; text = text }) put (put ++ text) }
    ensures writes { R.tells →
        WritesReport path.now report.now result (R.report reports.old) (R.report reports.new) }
    ensures unwritten { is_given path.now ≡ false → reports.new ≡ reports.old }
    ensures cause { ReportCauses result
        (R.failed_reports reports.old) (R.failed_reports reports.new) }
    ensures stand { R.failed_reports reports.old ≤ R.failed_reports reports.new }
{
    match (path, report) {
        (MaybeText::Given(path), Some(text)) => write_text(answer, path, text, reports),
        _ => answer,
    }
}

/// Writes a text to the file of a path, and answers.
fn write_text<R: Reports>(answer: Outcome, path: &Text, text: &Text, reports: &mut R) -> Outcome
    requires { IsSaid answer }
    ensures answer { IsSaid result → result ≡ answer }
    ensures says { (put text : List ℕ) →
        SaysRun result (record { outcome = answer; text = text }) put (put ++ text) }
    ensures writes { R.tells →
        WritesLast result path.now text.now (R.report reports.old) (R.report reports.new) }
    ensures cause { ReportCauses result
        (R.failed_reports reports.old) (R.failed_reports reports.new) }
    ensures stand { R.failed_reports reports.old ≤ R.failed_reports reports.new }
{
    match reports.write(path, text.bytes()) {
        Ok(()) => answer,
        Err(ReportFault::Failed) => Outcome::OutsideFault(OutsideObject::Report),
    }
}

/// Puts what a run says, and then writes its report, if it has one, to the file of a path, if one is given.
fn put_said<O: Sink, R: Reports>(
    said: RunSaid,
    path: &MaybeText,
    out: &mut O,
    reports: &mut R,
) -> Outcome
    requires { IsSaid said.outcome }
    ensures answer { IsSaid result → result ≡ said.outcome }
    ensures says { O.tells →
        SaysRun result (plain_run said) (O.contents out.old) (O.contents out.new) }
    ensures writes { R.tells →
        WritesReport path.now said.report result (R.report reports.old) (R.report reports.new) }
    ensures unwritten { is_given path.now ≡ false → reports.new ≡ reports.old }
    ensures counted { (others : RunFaultCounts) → IsAccounted result
        (with_output O.Sink out.old (with_reports R.Reports reports.old others))
        (with_output O.Sink out.new (with_reports R.Reports reports.new others)) }
{
    let RunSaid {
        outcome,
        text,
        report,
    } = said;
    match out.put(text.bytes()) {
        Ok(()) => write_last(outcome, path, &report, reports),
        Err(SinkFault::Failed) => Outcome::OutsideFault(OutsideObject::Out),
    }
}

/// Puts the text of a build and of its tests, and then writes their report, if they have one and a path is given.
fn say_tested<O: Sink, R: Reports>(
    alloc: Global,
    warnings: Text,
    graph: &Graph,
    tested: &Tested,
    runs: &TestRunList,
    words: TestWords,
    path: &MaybeText,
    out: &mut O,
    reports: &mut R,
) -> Outcome
    requires { length tested.now.statuses ≡ length graph.now }
    ensures answer { let said = run_said warnings graph.now tested.now.statuses runs.now words
        tested.now.tests in
        IsSaid result → result ≡ said.outcome }
    ensures says { O.tells →
        let said = run_said warnings graph.now tested.now.statuses runs.now words
        tested.now.tests in
        SaysRun result (plain_run said) (O.contents out.old) (O.contents out.new) }
    ensures writes { R.tells →
        let said = run_said warnings graph.now tested.now.statuses runs.now words
        tested.now.tests in
        WritesReport path.now said.report result (R.report reports.old) (R.report reports.new) }
    ensures unwritten { is_given path.now ≡ false → reports.new ≡ reports.old }
    ensures counted { (others : RunFaultCounts) → IsAccounted result
        (with_output O.Sink out.old (with_reports R.Reports reports.old others))
        (with_output O.Sink out.new (with_reports R.Reports reports.new others)) }
{
    match said_of_run(
        alloc,
        warnings,
        graph,
        &tested.statuses,
        runs,
        words,
        &tested.tests,
    ) {
        Ok(said) => put_said(said, path, out, reports),
        Err(_) => Outcome::NoMemory,
    }
}

/// What a run with tests needs beside its graph: the text of warnings, and the runs of the tests that are selected.
#[derive(Drop)]
struct Planned {
    warnings: Text,
    runs: TestRunList,
}

/// What a run with tests needs of the project that was read, for a query.
fn plan_runs(alloc: Global, read: &ReadProject, query: &Query) -> Result<Planned, NoMemory>
    requires { IsReadProject query.now read.now }
    ensures warnings { IfOk result (λ planned.
        planned.warnings ≡ warning_text read.now.project.files read.now.warnings) }
    ensures runs { IfOk result (λ planned. planned.runs
        ≡ test_runs read.now.project.files (chosen query.now.patterns read.now.tests)) }
    ensures few { IfOk result (λ planned. length planned.runs ≤ CASE_LIMIT) }
    ensures fits { IfOk result (λ planned. All FitsRun planned.runs) }
{
    let warnings = warning_text(alloc, &read.project, &read.warnings)?;
    let runs = planned_runs(alloc, query, read)?;
    Ok(Planned { warnings, runs })
}

/// Builds a graph over the records of a disk, runs tests over what was built, and puts the results of both.
fn test_planned<D: Disk, P: Procs, O: Sink, R: Reports>(
    alloc: Global,
    planned: Planned,
    read: &ReadProject,
    options: &RunOptions,
    disk: &mut D,
    procs: &mut P,
    out: &mut O,
    reports: &mut R,
) -> Outcome
    requires slots { (1 ≤ options.now.build.slots) × (options.now.build.slots ≤ SLOT_LIMIT) }
    requires idle { P.running procs.old ≡ [] }
    requires few { length planned.runs ≤ CASE_LIMIT }
    requires fits { All FitsRun planned.runs }
    ensures running { P.running procs.new ≡ [] }
    ensures same { P.answer procs.new ≡ P.answer procs.old }
    ensures kept { P.tells →
        (P.journal procs.new
        ≡ P.journal procs.old ++ since (P.journal procs.old) (P.journal procs.new)) }
    ensures ran { (scan : List ℕ → Finding) (words : List (List ℕ)) → D.tells → P.tells →
        let asked = testing_with options.now read.now planned.runs planned.warnings in
        RunsBy scan (P.answer procs.old) (Runs asked)
        (run_of words result
        (has_risen (D.failed_disk_calls disk.old) (D.failed_disk_calls disk.new))
        (since (P.journal procs.old) (P.journal procs.new))
        (added_since (D.moments disk.old) (D.moments disk.new)))
        (D.moments disk.old) (D.moments disk.new) }
    ensures runs { let asked = testing_with options.now read.now planned.runs planned.warnings in
        RunsTests (of_each D.tells P.tells O.tells R.tells) (P.answer procs.old) asked result
        (seen (P.journal procs.old) (D.moments disk.old) (D.failed_disk_calls disk.old)
        (O.contents out.old) (R.report reports.old))
        (seen (P.journal procs.new) (D.moments disk.new) (D.failed_disk_calls disk.new)
        (O.contents out.new) (R.report reports.new)) }
    ensures unwritten { is_given options.now.report ≡ false → reports.new ≡ reports.old }
    ensures counted { (others : RunFaultCounts) → IsAccounted result
        (with_build P.Procs D.Disk procs.old disk.old
        (with_output O.Sink out.old (with_reports R.Reports reports.old others)))
        (with_build P.Procs D.Disk procs.new disk.new
        (with_output O.Sink out.new (with_reports R.Reports reports.new others))) }
{
    let Planned { warnings, runs } = planned;
    match test_over::<RequestStore<'_>, D, P>(
        alloc,
        &read.graph,
        options.build,
        &runs,
        &read.project.simulator,
        options.fail_fast,
        disk,
        procs,
    ) {
        Ok(tested) => say_tested(
            alloc,
            warnings,
            &read.graph,
            &tested,
            &runs,
            options.words,
            &options.report,
            out,
            reports,
        ),
        Err(fault) => fault_outcome(fault),
    }
}

/// Builds the files of a project over the records of a disk, and runs the tests that the patterns select over what was built.
/// Puts the results of both.
pub fn test_project<D: Disk, P: Procs, O: Sink, R: Reports>(
    alloc: Global,
    read: &ReadProject,
    options: &RunOptions,
    disk: &mut D,
    procs: &mut P,
    out: &mut O,
    reports: &mut R,
) -> Outcome
    requires slots { (1 ≤ options.now.build.slots) × (options.now.build.slots ≤ SLOT_LIMIT) }
    requires idle { P.running procs.old ≡ [] }
    requires read { IsReadProject options.now.query read.now }
    ensures running { P.running procs.new ≡ [] }
    ensures same { P.answer procs.new ≡ P.answer procs.old }
    ensures kept { P.tells →
        (P.journal procs.new
        ≡ P.journal procs.old ++ since (P.journal procs.old) (P.journal procs.new)) }
    ensures ran { (scan : List ℕ → Finding) (words : List (List ℕ)) → D.tells → P.tells →
        RunsBy scan (P.answer procs.old) (Runs (testing_of options.now read.now))
        (run_of words result
        (has_risen (D.failed_disk_calls disk.old) (D.failed_disk_calls disk.new))
        (since (P.journal procs.old) (P.journal procs.new))
        (added_since (D.moments disk.old) (D.moments disk.new)))
        (D.moments disk.old) (D.moments disk.new) }
    ensures runs { RunsTests (of_each D.tells P.tells O.tells R.tells) (P.answer procs.old)
        (testing_of options.now read.now) result
        (seen (P.journal procs.old) (D.moments disk.old) (D.failed_disk_calls disk.old)
        (O.contents out.old) (R.report reports.old))
        (seen (P.journal procs.new) (D.moments disk.new) (D.failed_disk_calls disk.new)
        (O.contents out.new) (R.report reports.new)) }
    ensures unwritten { is_given options.now.report ≡ false → reports.new ≡ reports.old }
    ensures counted { (others : RunFaultCounts) → IsAccounted result
        (with_build P.Procs D.Disk procs.old disk.old
        (with_output O.Sink out.old (with_reports R.Reports reports.old others)))
        (with_build P.Procs D.Disk procs.new disk.new
        (with_output O.Sink out.new (with_reports R.Reports reports.new others))) }
{
    match plan_runs(alloc, read, &options.query) {
        Ok(planned) => test_planned(alloc, planned, read, options, disk, procs, out, reports),
        Err(_) => Outcome::NoMemory,
    }
}
