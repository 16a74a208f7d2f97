//! The top call: reads the command line and the sources, does the task that they give, and puts the result.
//!
//! Each step calls the next:
//!
//! 1. `run_vunit` reads the command line; it may be a compiler or a simulator instead, or generate a project.
//! 2. `run_setting` settles the task.
//! 3. `run_sources` reads the project.
//! 4. `run_task` lists, exports, builds or tests.
//! 5. `build_project` and `build_graph` build, and put the statuses of the files.

ghost use Rattle.std.specs.Prelude.{◌≡◌, ◌≤◌, ◌⊎◌, ◌++◌, [], ℕ, List, Option, Some, None, Ok, Err, false, IfOk};
ghost use Rattle.outside.specs.Disks.{added_since};
ghost use Rattle.outside.specs.FaultCounts.{RunFaultCounts, run_counts, with_build, with_output, with_reports, with_tree};
ghost use Rattle.run_spec.specs.ChildJournal.{since};
ghost use Rattle.run_spec.specs.Histories.{Order, work_over};
ghost use Rattle.run_spec.specs.JournalParts.{compile_part, test_part};
ghost use Rattle.run_spec.specs.Statuses.{statuses_of};
ghost use Rattle.report.specs.Outcomes.{build_outcome};
ghost use Rattle.report.specs.Texts.{warning_text};
ghost use Rattle.vhdl_spec.specs.Scans.{Finding, IsScanner};
ghost use Rattle.project_reading.specs.Asked.{AsksFirst, project_paths};
ghost use Rattle.project_reading.specs.Reading.{SourceReading, Found, project_reading};
ghost use Rattle.project_reading.specs.Sources.{IsReadProject, LeadsTo};
ghost use Rattle.base.specs.declared.child.MaybeText.{MaybeText};
ghost use Rattle.report.specs.Listing.{tests_list};
ghost use Rattle.report.specs.Export.{export_text};
ghost use Rattle.vunit_top.specs.Store.{records_in_image};
ghost use Rattle.vunit_top.specs.Acts.{Acts, of_each, seen};
ghost use Rattle.vunit_top.specs.Did.{Did, Keeps, AreSourcesTold, call_of};
ghost use Rattle.vunit_top.specs.Ends.{StopCounts, OutCauses, ReportCauses, Writes, WritesReport};
ghost use Rattle.run_build.specs.Orders.{order_by};
ghost use Rattle.vunit_top.specs.Reading.{Reading, Testing, Builds, Exports, Runs, HasSlots, full_reading, task_reading, setting_task, chosen, is_build, is_run, may_test, may_write, generates, query_of};
ghost use Rattle.run_build.specs.Building.{has_risen};
ghost use Rattle.vunit_top.specs.Runs.{RunsBy, run_of};
ghost use Rattle.vunit_top.specs.Said.{Said, Says, SaysRun, IsSaid, HasEnded, Causes, IsAccounted, order_of, plain_said, build_said};

use crate::children::{run_as_compiler, run_as_simulator};
use crate::ends::{
    say, say_build, say_files, say_limit, say_refusal, say_tests, say_usage, write_report,
};
use crate::generating::{generated_by, say_generated};
use crate::testing_run::test_project;
use crate::words::{Task, begins_with, query_of, task_of};
use base::{FILE_LIMIT, Graph, NoMemory, SLOT_LIMIT, Text, TextList};
use base_outcomes::{Limit, Outcome, OutsideObject, Refusal};
use outside::{Disk, Procs, Reports, Sink, Source, Tree};
use project_reading::{ReadProject, ReadStop, read_project, select_tests};
use report::{export_json, warning_text};
use run_build::{BuildOptions, build_over};
use run_spec::RunFault;
use std::alloc::Global;
use store::RequestStore;
use vunit_arguments::{ArgumentsFault, Setting, read_arguments};

/// Builds a graph over the records of a disk, and puts warnings and the statuses of its files.
fn build_graph<D: Disk, P: Procs, O: Sink>(
    alloc: Global,
    warnings: Text,
    graph: &Graph,
    options: BuildOptions,
    disk: &mut D,
    procs: &mut P,
    out: &mut O,
) -> Outcome
    requires slots { (1 ≤ options.slots) × (options.slots ≤ SLOT_LIMIT) }
    requires idle { P.running procs.old ≡ [] }
    ensures running { P.running procs.new ≡ [] }
    ensures same { P.answer procs.new ≡ P.answer procs.old }
    ensures kept { P.tells →
        (P.journal procs.new
        ≡ P.journal procs.old ++ since (P.journal procs.old) (P.journal procs.new)) }
    ensures no_tests { P.tells →
        test_part (since (P.journal procs.old) (P.journal procs.new)) ≡ [] }
    ensures ran { (scan : List ℕ → Finding) (words : List (List ℕ)) → D.tells → P.tells →
        RunsBy scan (P.answer procs.old) (Builds (order_by options graph.now) warnings)
        (run_of words result
        (has_risen (D.failed_disk_calls disk.old) (D.failed_disk_calls disk.new))
        (since (P.journal procs.old) (P.journal procs.new))
        (added_since (D.moments disk.old) (D.moments disk.new)))
        (D.moments disk.old) (D.moments disk.new) }
    ensures says { D.tells → P.tells → O.tells →
        let order = order_by options graph.now in
        let events = compile_part (since (P.journal procs.old) (P.journal procs.new)) in
        let statuses = statuses_of (work_over records_in_image order (D.moments disk.old).now) events in
        Says result (build_said warnings graph.now statuses)
        (O.contents out.old) (O.contents out.new) }
    ensures answers { D.tells → P.tells →
        let order = order_by options graph.now in
        let events = compile_part (since (P.journal procs.old) (P.journal procs.new)) in
        let statuses = statuses_of (work_over records_in_image order (D.moments disk.old).now) events in
        IsSaid result → result ≡ build_outcome graph.now statuses }
    ensures counted { (others : RunFaultCounts) → IsAccounted result
        (with_build P.Procs D.Disk procs.old disk.old (with_output O.Sink out.old others))
        (with_build P.Procs D.Disk procs.new disk.new (with_output O.Sink out.new others)) }
{
    match build_over::<RequestStore<'_>, D, P>(alloc, graph, options, disk, procs) {
        Ok(statuses) => say_build(alloc, warnings, graph, &statuses, out),
        Err(RunFault::NoMemory) => Outcome::NoMemory,
        Err(RunFault::StartFailed) => Outcome::OutsideFault(OutsideObject::Start),
        Err(RunFault::ChildLost) => Outcome::OutsideFault(OutsideObject::Child),
        Err(RunFault::DiskFailed) => Outcome::OutsideFault(OutsideObject::Disk),
    }
}

/// Builds the files of a project over the records of a disk, and puts its warnings and the statuses of its files.
fn build_project<D: Disk, P: Procs, O: Sink>(
    alloc: Global,
    read: &ReadProject,
    options: BuildOptions,
    disk: &mut D,
    procs: &mut P,
    out: &mut O,
) -> Outcome
    requires slots { (1 ≤ options.slots) × (options.slots ≤ SLOT_LIMIT) }
    requires idle { P.running procs.old ≡ [] }
    ensures running { P.running procs.new ≡ [] }
    ensures same { P.answer procs.new ≡ P.answer procs.old }
    ensures kept { P.tells →
        (P.journal procs.new
        ≡ P.journal procs.old ++ since (P.journal procs.old) (P.journal procs.new)) }
    ensures no_tests { P.tells →
        test_part (since (P.journal procs.old) (P.journal procs.new)) ≡ [] }
    ensures ran { (scan : List ℕ → Finding) (words : List (List ℕ)) → D.tells → P.tells →
        RunsBy scan (P.answer procs.old) (Builds (order_by options read.now.graph)
        (warning_text read.now.project.files read.now.warnings))
        (run_of words result
        (has_risen (D.failed_disk_calls disk.old) (D.failed_disk_calls disk.new))
        (since (P.journal procs.old) (P.journal procs.new))
        (added_since (D.moments disk.old) (D.moments disk.new)))
        (D.moments disk.old) (D.moments disk.new) }
    ensures says { D.tells → P.tells → O.tells →
        let order = order_by options read.now.graph in
        let warnings = warning_text read.now.project.files read.now.warnings in
        let events = compile_part (since (P.journal procs.old) (P.journal procs.new)) in
        let statuses = statuses_of (work_over records_in_image order (D.moments disk.old).now) events in
        Says result (build_said warnings read.now.graph statuses)
        (O.contents out.old) (O.contents out.new) }
    ensures answers { D.tells → P.tells →
        let order = order_by options read.now.graph in
        let events = compile_part (since (P.journal procs.old) (P.journal procs.new)) in
        let statuses = statuses_of (work_over records_in_image order (D.moments disk.old).now) events in
        IsSaid result → result ≡ build_outcome read.now.graph statuses }
    ensures counted { (others : RunFaultCounts) → IsAccounted result
        (with_build P.Procs D.Disk procs.old disk.old (with_output O.Sink out.old others))
        (with_build P.Procs D.Disk procs.new disk.new (with_output O.Sink out.new others)) }
{
    match warning_text(alloc, &read.project, &read.warnings) {
        Ok(warnings) => build_graph(alloc, warnings, &read.graph, options, disk, procs, out),
        Err(_) => Outcome::NoMemory,
    }
}

/// Puts the tests that one of these patterns matches.
fn list_chosen<O: Sink>(
    alloc: Global,
    read: &ReadProject,
    patterns: &TextList,
    out: &mut O,
) -> Outcome
    ensures answer { IsSaid result → result ≡ Outcome.Done }
    ensures said { O.tells →
        Says result
        (record { outcome = Outcome.Done; text = tests_list (chosen patterns.now read.now.tests) })
        (O.contents out.old) (O.contents out.new) }
    ensures cause { OutCauses result (O.failed_puts out.old) (O.failed_puts out.new) }
    ensures stand { O.failed_puts out.old ≤ O.failed_puts out.new }
{
    match select_tests(alloc, &read.tests, patterns) {
        Ok(tests) => say_tests(alloc, &tests, out),
        Err(_) => Outcome::NoMemory,
    }
}

/// The export of the sources with these tests.
fn export_of(alloc: Global, read: &ReadProject, patterns: &TextList) -> Result<Text, NoMemory>
    ensures { IfOk result (λ text. text ≡ export_text read.now.graph read.now.project.files
        (chosen patterns.now read.now.tests)) }
{
    let tests = select_tests(alloc, &read.tests, patterns)?;
    export_json(alloc, &read.graph, &read.project, &tests)
}

/// Writes the files and the tests that one of these patterns matches to the file of a path.
fn export_chosen<R: Reports>(
    alloc: Global,
    read: &ReadProject,
    path: &Text,
    patterns: &TextList,
    reports: &mut R,
) -> Outcome
    ensures answer { IsSaid result → result ≡ Outcome.Done }
    ensures said { (put : List ℕ) →
        Says result (record { outcome = Outcome.Done; text = [] }) put put }
    ensures writes { R.tells →
        Writes result path.now (export_text read.now.graph read.now.project.files
        (chosen patterns.now read.now.tests)) (R.report reports.old) (R.report reports.new) }
    ensures cause { ReportCauses result
        (R.failed_reports reports.old) (R.failed_reports reports.new) }
    ensures stand { R.failed_reports reports.old ≤ R.failed_reports reports.new }
{
    match export_of(alloc, read, patterns) {
        Ok(text) => write_report(path, text.bytes(), reports),
        Err(_) => Outcome::NoMemory,
    }
}

/// Does a task with the project that was read.
fn run_task<D: Disk, P: Procs, O: Sink, R: Reports>(
    alloc: Global,
    task: Task,
    read: &ReadProject,
    disk: &mut D,
    procs: &mut P,
    out: &mut O,
    reports: &mut R,
) -> Outcome
    requires slots { HasSlots task }
    requires idle { P.running procs.old ≡ [] }
    requires read { IsReadProject (query_of task) read.now }
    ensures running { P.running procs.new ≡ [] }
    ensures same { P.answer procs.new ≡ P.answer procs.old }
    ensures kept { P.tells →
        (P.journal procs.new
        ≡ P.journal procs.old ++ since (P.journal procs.old) (P.journal procs.new)) }
    ensures no_tests { P.tells → is_run task ≡ false →
        test_part (since (P.journal procs.old) (P.journal procs.new)) ≡ [] }
    ensures acts { (scan : List ℕ → Finding) (words : List (List ℕ)) →
        Acts (of_each D.tells P.tells O.tells R.tells)
        (of_each (disk.new ≡ disk.old) (procs.new ≡ procs.old) (out.new ≡ out.old)
        (reports.new ≡ reports.old))
        scan (P.answer procs.old) (task_reading task (Found read.now)) words result
        (seen (P.journal procs.old) (D.moments disk.old) (D.failed_disk_calls disk.old)
        (O.contents out.old) (R.report reports.old))
        (seen (P.journal procs.new) (D.moments disk.new) (D.failed_disk_calls disk.new)
        (O.contents out.new) (R.report reports.new)) }
    ensures unbuilt { is_build task ≡ false → (disk.new ≡ disk.old) × (procs.new ≡ procs.old) }
    ensures unwritten { may_write task ≡ false → reports.new ≡ reports.old }
    ensures counted { (others : RunFaultCounts) → IsAccounted result
        (with_build P.Procs D.Disk procs.old disk.old
        (with_output O.Sink out.old (with_reports R.Reports reports.old others)))
        (with_build P.Procs D.Disk procs.new disk.new
        (with_output O.Sink out.new (with_reports R.Reports reports.new others))) }
{
    match task {
        Task::ListFiles(_query) => say_files(alloc, &read.graph, out),
        Task::ListTests(query) => list_chosen(alloc, read, &query.patterns, out),
        Task::Export(path, query) => export_chosen(alloc, read, &path, &query.patterns, reports),
        Task::Build(options, _query) => build_project(alloc, read, options, disk, procs, out),
        Task::Run(options) => test_project(alloc, read, &options, disk, procs, out, reports),
    }
}

/// Puts why nothing is done with the sources.
fn say_stop<O: Sink>(alloc: Global, stop: ReadStop, out: &mut O) -> Outcome
    ensures rests { (task : Task) (found : SourceReading) → LeadsTo found (Err stop) →
        HasEnded result → order_of (task_reading task found) ≡ None }
    ensures silent { (task : Task) (found : SourceReading) → LeadsTo found (Err stop) →
        (path text : List ℕ) → task_reading task found ≡ Exports path text →
        out.new ≡ out.old }
    ensures says { O.tells → (task : Task) (found : SourceReading) → LeadsTo found (Err stop) →
        (what : Said) → plain_said (task_reading task found) ≡ Some what →
        Says result what (O.contents out.old) (O.contents out.new) }
    ensures answers { (task : Task) (found : SourceReading) → LeadsTo found (Err stop) →
        (what : Said) → plain_said (task_reading task found) ≡ Some what →
        IsSaid result → result ≡ what.outcome }
    ensures says_build { O.tells → (task : Task) (found : SourceReading) →
        LeadsTo found (Err stop) → (order : Order) (warnings : List ℕ) →
        task_reading task found ≡ Builds order warnings → (what : Said) →
        Says result what (O.contents out.old) (O.contents out.new) }
    ensures says_run { O.tells → (task : Task) (found : SourceReading) →
        LeadsTo found (Err stop) → (asked : Testing) →
        task_reading task found ≡ Runs asked → (what : Said) →
        SaysRun result what (O.contents out.old) (O.contents out.new) }
    ensures unwritten { (task : Task) (found : SourceReading) → LeadsTo found (Err stop) →
        (asked : Testing) → task_reading task found ≡ Runs asked →
        (path : MaybeText) (said : Option (List ℕ)) (reports : List ℕ → Option (List ℕ)) →
        WritesReport path said result reports reports }
    ensures writes { (task : Task) (found : SourceReading) → LeadsTo found (Err stop) →
        (path text : List ℕ) → task_reading task found ≡ Exports path text →
        (reports : List ℕ → Option (List ℕ)) → Writes result path text reports reports }
    ensures cause { (others : RunFaultCounts) (before now : ℕ) →
        StopCounts stop before now →
        Causes result
        (with_output O.Sink out.old (record others { tree = before }))
        (with_output O.Sink out.new (record others { tree = now })) }
    ensures stand { O.failed_puts out.old ≤ O.failed_puts out.new }
{
    match stop {
        ReadStop::Refused(reason) => say_refusal(alloc, reason, out),
        ReadStop::Over(limit, number) => say_limit(alloc, limit, number, out),
        ReadStop::Failed => Outcome::OutsideFault(OutsideObject::Tree),
        ReadStop::NoMemory => Outcome::NoMemory,
    }
}

/// Reads the project in a tree, and does a task with it.
fn run_sources<T: Tree, D: Disk, P: Procs, O: Sink, R: Reports>(
    alloc: Global,
    task: Task,
    tree: &mut T,
    disk: &mut D,
    procs: &mut P,
    out: &mut O,
    reports: &mut R,
) -> Outcome
    requires slots { HasSlots task }
    requires idle { P.running procs.old ≡ [] }
    ensures running { P.running procs.new ≡ [] }
    ensures same { P.answer procs.new ≡ P.answer procs.old }
    ensures sources { T.file tree.new ≡ T.file tree.old }
    ensures listed { T.listed tree.new ≡ T.listed tree.old }
    ensures tree_kept { T.kept tree.new ≡ T.kept tree.old }
    ensures asked { T.tells →
        let paths = project_paths (T.file tree.old) (T.listed tree.old) in
        (T.asked tree.new ≡ T.asked tree.old ++ paths)
        ⊎ (AsksFirst paths (T.asked tree.old) (T.asked tree.new)
        × (disk.new ≡ disk.old) × (procs.new ≡ procs.old)) }
    ensures kept { P.tells →
        (P.journal procs.new
        ≡ P.journal procs.old ++ since (P.journal procs.old) (P.journal procs.new)) }
    ensures no_tests { P.tells → is_run task ≡ false →
        test_part (since (P.journal procs.old) (P.journal procs.new)) ≡ [] }
    ensures acts { (scan : List ℕ → Finding) → IsScanner scan → T.tells →
        (words : List (List ℕ)) →
        let sources = project_reading scan (T.file tree.old) (T.listed tree.old) in
        Acts (of_each D.tells P.tells O.tells R.tells)
        (of_each (disk.new ≡ disk.old) (procs.new ≡ procs.old) (out.new ≡ out.old)
        (reports.new ≡ reports.old))
        scan (P.answer procs.old) (task_reading task (sources (query_of task))) words result
        (seen (P.journal procs.old) (D.moments disk.old) (D.failed_disk_calls disk.old)
        (O.contents out.old) (R.report reports.old))
        (seen (P.journal procs.new) (D.moments disk.new) (D.failed_disk_calls disk.new)
        (O.contents out.new) (R.report reports.new)) }
    ensures unbuilt { is_build task ≡ false → (disk.new ≡ disk.old) × (procs.new ≡ procs.old) }
    ensures unwritten { may_write task ≡ false → reports.new ≡ reports.old }
    ensures placed { (result ≡ Outcome.OutsideFault OutsideObject.Tree)
        ⊎ (result ≡ Outcome.OutsideFault OutsideObject.Input) →
        (disk.new ≡ disk.old) × (procs.new ≡ procs.old) × (reports.new ≡ reports.old) }
    ensures counted { (others : RunFaultCounts) → IsAccounted result
        (with_tree T.Tree tree.old (with_build P.Procs D.Disk procs.old disk.old
        (with_output O.Sink out.old (with_reports R.Reports reports.old others))))
        (with_tree T.Tree tree.new (with_build P.Procs D.Disk procs.new disk.new
        (with_output O.Sink out.new (with_reports R.Reports reports.new others)))) }
{
    let query = query_of(&task);
    match read_project(alloc, tree, query) {
        Ok(read) => run_task(alloc, task, &read, disk, procs, out, reports),
        Err(stop) => say_stop(alloc, stop, out),
    }
}

/// Does the task of a setting that does not generate a project.
fn run_setting<T: Tree, D: Disk, P: Procs, O: Sink, R: Reports>(
    alloc: Global,
    setting: Setting,
    tree: &mut T,
    disk: &mut D,
    procs: &mut P,
    out: &mut O,
    reports: &mut R,
) -> Outcome
    requires some { 1 ≤ setting.num_threads }
    requires plain { generates (setting_task setting) ≡ false }
    requires idle { P.running procs.old ≡ [] }
    ensures running { P.running procs.new ≡ [] }
    ensures same { P.answer procs.new ≡ P.answer procs.old }
    ensures sources { T.file tree.new ≡ T.file tree.old }
    ensures listed { T.listed tree.new ≡ T.listed tree.old }
    ensures tree_kept { T.kept tree.new ≡ T.kept tree.old }
    ensures asked { T.tells →
        let paths = project_paths (T.file tree.old) (T.listed tree.old) in
        (T.asked tree.new ≡ T.asked tree.old ++ paths)
        ⊎ (AsksFirst paths (T.asked tree.old) (T.asked tree.new)
        × (disk.new ≡ disk.old) × (procs.new ≡ procs.old)) }
    ensures kept { P.tells →
        (P.journal procs.new
        ≡ P.journal procs.old ++ since (P.journal procs.old) (P.journal procs.new)) }
    ensures no_tests { P.tells → may_test (setting_task setting) ≡ false →
        test_part (since (P.journal procs.old) (P.journal procs.new)) ≡ [] }
    ensures acts { (scan : List ℕ → Finding) → IsScanner scan →
        AreSourcesTold T.tells (setting_task setting) → (words : List (List ℕ)) →
        let sources = project_reading scan (T.file tree.old) (T.listed tree.old) in
        Acts (of_each D.tells P.tells O.tells R.tells)
        (of_each (disk.new ≡ disk.old) (procs.new ≡ procs.old) (out.new ≡ out.old)
        (reports.new ≡ reports.old))
        scan (P.answer procs.old) (full_reading (setting_task setting) sources) words result
        (seen (P.journal procs.old) (D.moments disk.old) (D.failed_disk_calls disk.old)
        (O.contents out.old) (R.report reports.old))
        (seen (P.journal procs.new) (D.moments disk.new) (D.failed_disk_calls disk.new)
        (O.contents out.new) (R.report reports.new)) }
    ensures words_alone { (r : Reading) → setting_task setting ≡ Err r →
        (tree.new ≡ tree.old) × (disk.new ≡ disk.old) × (procs.new ≡ procs.old)
        × (reports.new ≡ reports.old) }
    ensures unbuilt { (task : Task) → setting_task setting ≡ Ok task → is_build task ≡ false →
        (disk.new ≡ disk.old) × (procs.new ≡ procs.old) }
    ensures unwritten { (task : Task) → setting_task setting ≡ Ok task → may_write task ≡ false →
        reports.new ≡ reports.old }
    ensures placed { (result ≡ Outcome.OutsideFault OutsideObject.Tree)
        ⊎ (result ≡ Outcome.OutsideFault OutsideObject.Input) →
        (disk.new ≡ disk.old) × (procs.new ≡ procs.old) × (reports.new ≡ reports.old) }
    ensures counted { (others : RunFaultCounts) → IsAccounted result
        (with_tree T.Tree tree.old (with_build P.Procs D.Disk procs.old disk.old
        (with_output O.Sink out.old (with_reports R.Reports reports.old others))))
        (with_tree T.Tree tree.new (with_build P.Procs D.Disk procs.new disk.new
        (with_output O.Sink out.new (with_reports R.Reports reports.new others)))) }
{
    if setting.num_threads > SLOT_LIMIT as u64 {
        return say_limit(alloc, Limit::Slots, SLOT_LIMIT as u64, out);
    }
    if setting.generate > 0 {
        return say_limit(alloc, Limit::Files, FILE_LIMIT as u64, out);
    }
    let task = task_of(setting);
    run_sources(alloc, task, tree, disk, procs, out, reports)
}

/// Runs the program: reads the command line and the sources, and does the task that they give.
///
/// `words` are the arguments of the command line, without the program's name:
///
/// - `child-analyse` as the first argument: the program is a child, the built-in compiler.
/// - `child-bench` as the first argument: the program is a child, the built-in simulator.
/// - `--files`: puts the files of the project in the tree, in compile order.
/// - `--list`: puts the tests that one of the patterns matches.
/// - `--export-json`: writes these files and these tests to a file, as JSON.
/// - `--compile`: builds the files in compile order.
/// - `--generate`: builds and tests a generated project in memory, and does nothing else.
/// - Otherwise builds the files. If all are made, runs the tests that one of the patterns matches, over exactly these files.
///
/// A build starts nothing for a file whose text, name, command and dependencies are those of its record on the disk. It
/// compiles each other file once, and commits what a compiler has made before the next start. After a refusal it compiles
/// nothing more. With `-k` it goes on, except for the dependents of a refused file. With `--clean` no record counts, and the
/// store is emptied before the first start. With `--minimal` only the files that the matching tests need are listed or built.
///
/// At most as many compilers, and then simulators, run at once as `-p` gives. With `--fail-fast` no test starts after a test
/// has ended without passing. The results of the build and of the tests are put in one call. After that, with `-x`, the
/// results of the tests, if they were run, are written to a file as JUnit XML.
///
/// With `--generate` a project of the given size is made in memory, built over an empty disk in memory, edited, and built
/// again with its tests. How many files each build compiled is put.
///
/// The clauses below say what the call answers, by what each object answers. If an object tells nothing, the call is still
/// safe, its answer still has its cause, and no child runs when it returns.
pub fn run_vunit<I: Source, T: Tree, D: Disk, P: Procs, O: Sink, R: Reports>(
    alloc: Global,
    words: &TextList,
    input: &mut I,
    tree: &mut T,
    disk: &mut D,
    procs: &mut P,
    out: &mut O,
    reports: &mut R,
) -> Outcome
    requires { P.running procs.old ≡ [] }
    // What it did and said, by the arguments and the sources, if the tree tells all that the arguments need of it.
    ensures did { (scan : List ℕ → Finding) → IsScanner scan →
        Did (call_of I.Source T.Tree D.Disk P.Procs O.Sink R.Reports
        input.old tree.old disk.old procs.old out.old reports.old
        input.new tree.new disk.new procs.new out.new reports.new) scan words.now result }
    // What it leaves unchanged, by the arguments alone, whether or not the objects tell.
    ensures keeps { Keeps (call_of I.Source T.Tree D.Disk P.Procs O.Sink R.Reports
        input.old tree.old disk.old procs.old out.old reports.old
        input.new tree.new disk.new procs.new out.new reports.new) words.now result }
    // A fault is answered only where its count rose; after any other answer but out of memory all counts are unchanged.
    // No count falls.
    ensures counted { IsAccounted result
        (run_counts I.Source T.Tree D.Disk P.Procs O.Sink R.Reports
        input.old tree.old disk.old procs.old out.old reports.old)
        (run_counts I.Source T.Tree D.Disk P.Procs O.Sink R.Reports
        input.new tree.new disk.new procs.new out.new reports.new) }
    // No child runs at the return.
    ensures running { P.running procs.new ≡ [] }
{
    if begins_with(b"child-analyse", words) {
        return run_as_compiler(alloc, input, out);
    }
    if begins_with(b"child-bench", words) {
        return run_as_simulator(alloc, input, out, reports);
    }
    match read_arguments(alloc, words) {
        Ok(setting) => match generated_by(&setting) {
            Some(options) => say_generated(alloc, options, procs, out),
            None => run_setting(alloc, setting, tree, disk, procs, out, reports),
        },
        Err(ArgumentsFault::Bad) => say_usage(out),
        Err(ArgumentsFault::NoMemory) => Outcome::NoMemory,
    }
}
