//! Runs of tests over what a build left, and nothing but that.

ghost use Rattle.std.specs.Prelude.{◌≡◌, ◌<◌, ◌≤◌, ◌++◌, [], ℕ, Some, true, All, length, slice_get, IfOk};
ghost use Rattle.std.specs.List.{list_all};
ghost use Rattle.outside.specs.Records.{IsRecorded};
ghost use Rattle.outside.specs.FaultCounts.{NoBuildCountFell, build_counts, child_counts};
ghost use Rattle.run_spec.specs.declared.statuses.FileStatus.{FileStatus};
ghost use Rattle.run_spec.specs.ChildJournal.{since};
ghost use Rattle.run_spec.specs.JournalParts.{compile_part};
ghost use Rattle.run_build.specs.Ran.{is_made};
ghost use Rattle.run_spec.specs.Faults.{Explains, fault_of};
ghost use Rattle.run_build.specs.Building.{RestsOver, has_risen};
ghost use Rattle.run_build.specs.Orders.{order_by};
ghost use Rattle.testbench_runs.specs.Runs.{FitsRun};
ghost use Rattle.run_tests.specs.Requests.{borrowed_files};
ghost use Rattle.run_tests.specs.UnderWay.{tests_with};
ghost use Rattle.run_tests.specs.Tested.{RanBuilt, TestsOver};

use crate::{NoRecorder, announce_long_runs, run_tests};
use base::{CASE_LIMIT, Graph, SLOT_LIMIT, TextList};
use outside::{Disk, OpenRecords, Procs, Records};
use run_build::{BuildOptions, Kept, build_kept};
use run_spec::{FileStatus, FileStatusList, RunFault};
use std::alloc::Global;
use testbench_runs::{TestEnd, TestRunList};

/// The result of the build of a graph and of the tests that followed it.
#[derive(Drop)]
pub struct Tested {
    /// One status for each file, in order.
    pub statuses: FileStatusList,
    /// The end of each run of tests, in order; `None` if some file isn't made, since no test is started then.
    pub tests: Option<TestEnd>,
}

fn is_made(status: &FileStatus) -> bool
    ensures { result ≡ is_made status.now }
{
    match status {
        FileStatus::Fresh => true,
        FileStatus::Compiled => true,
        FileStatus::Refused { code: _, output: _ } => false,
        FileStatus::Skipped => false,
        FileStatus::Left => false,
    }
}

fn are_made(statuses: &[FileStatus]) -> bool
    ensures { result ≡ list_all is_made statuses.now }
{
    statuses.iter().all(|status| is_made(status))
}

/// Runs tests over the artefacts that the store of a build lends, where all files are made.
fn test_built<K: Records + Drop, P: Procs>(
    alloc: Global,
    graph: &Graph,
    kept: Kept<K>,
    runs: &TestRunList,
    simulator: &TextList,
    procs: &mut P,
    slots: u32,
    fail_fast: bool,
) -> Result<Tested, RunFault>
    requires slots { (1 ≤ slots) × (slots ≤ SLOT_LIMIT) }
    requires idle { P.running procs.old ≡ [] }
    requires few { length runs.now ≤ CASE_LIMIT }
    requires fits { All FitsRun runs.now }
    requires count { length kept.statuses ≡ length graph.now }
    requires recorded { (position : ℕ) (status : FileStatus) → slice_get kept.statuses position ≡ Some status →
        is_made status ≡ true → IsRecorded (K.latest_of kept.store) graph.now position }
    ensures running { P.running procs.new ≡ [] }
    ensures same { P.answer procs.new ≡ P.answer procs.old }
    ensures count { IfOk result (λ tested. length tested.statuses ≡ length graph.now) }
    ensures ran { let setting = tests_with runs.now simulator.now
        (borrowed_files (K.latest_of kept.store) graph.now) slots fail_fast in
        RanBuilt P.tells (P.answer procs.old) setting kept.statuses result
        (P.journal procs.old) (P.journal procs.new) }
    ensures fell { (disks : ℕ) → NoBuildCountFell
        (record { children = child_counts P.Procs procs.old; disks = disks })
        (record { children = child_counts P.Procs procs.new; disks = disks }) }
    ensures explains { (disks : ℕ) → Explains (fault_of result)
        (record { children = child_counts P.Procs procs.old; disks = disks })
        (record { children = child_counts P.Procs procs.new; disks = disks }) }
{
    let Kept { statuses, store } = kept;
    if !are_made(statuses.as_slice()) {
        return Ok(Tested {
            statuses,
            tests: None,
        });
    }
    let mut recorder = NoRecorder;
    match run_tests(
        alloc,
        graph,
        &store,
        runs,
        simulator,
        procs,
        slots,
        fail_fast,
        &mut recorder,
    ) {
        Ok(end) => Ok(Tested {
            statuses,
            tests: Some(end),
        }),
        Err(fault) => Err(fault),
    }
}

/// Opens the store of a disk, builds a graph over its records, and then runs tests, as `test_over` does.
fn test_opened<'g, K: Records + OpenRecords<'g> + Drop, D: Disk, P: Procs>(
    alloc: Global,
    graph: &'g Graph,
    options: BuildOptions,
    runs: &TestRunList,
    simulator: &TextList,
    fail_fast: bool,
    disk: &mut D,
    procs: &mut P,
) -> Result<Tested, RunFault>
    requires slots { (1 ≤ options.slots) × (options.slots ≤ SLOT_LIMIT) }
    requires idle { P.running procs.old ≡ [] }
    requires few { length runs.now ≤ CASE_LIMIT }
    requires fits { All FitsRun runs.now }
    ensures running { P.running procs.new ≡ [] }
    ensures same { P.answer procs.new ≡ P.answer procs.old }
    ensures count { IfOk result (λ tested. length tested.statuses ≡ length graph.now) }
    ensures follows { P.tells →
        (P.journal procs.new
        ≡ P.journal procs.old ++ since (P.journal procs.old) (P.journal procs.new)) }
    ensures told { D.tells → P.tells →
        TestsOver K.records_of (P.answer procs.old) (order_by options graph.now)
        (record { runs = runs.now; simulator = simulator.now; fail_fast = fail_fast }) result
        (has_risen (D.failed_disk_calls disk.old) (D.failed_disk_calls disk.new))
        (D.moments disk.old) (D.moments disk.new)
        (since (P.journal procs.old) (P.journal procs.new)) }
    // Unless `clean` is true, a build without commits writes nothing if the disk is at rest when it begins.
    ensures rests { D.tells → P.tells →
        RestsOver K.records_of K.is_resting (order_by options graph.now) result
        (D.moments disk.old) (D.moments disk.new)
        (compile_part (since (P.journal procs.old) (P.journal procs.new))) }
    ensures fell { NoBuildCountFell
        (build_counts P.Procs D.Disk procs.old disk.old)
        (build_counts P.Procs D.Disk procs.new disk.new) }
    ensures explains { Explains (fault_of result)
        (build_counts P.Procs D.Disk procs.old disk.old)
        (build_counts P.Procs D.Disk procs.new disk.new) }
{
    match build_kept::<K, D, P>(alloc, graph, options, disk, procs) {
        Ok(kept) => test_built(
            alloc,
            graph,
            kept,
            runs,
            simulator,
            procs,
            options.slots,
            fail_fast,
        ),
        Err(fault) => Err(fault),
    }
}

/// First announces the runs whose folder may have too long a name. Then opens the store of a disk and builds a graph over its
/// records, as `build_over` does. If all files are made, it runs tests over exactly the built files. The runs are started in
/// order, each as one child of the simulator, with as many children at once as the build has.
///
/// With `fail_fast` nothing more is started after the first run with a case that has not passed. After a fault nothing more is
/// started, and the first fault is returned. No child runs in the end.
pub fn test_over<'g, K: Records + OpenRecords<'g> + Drop, D: Disk, P: Procs>(
    alloc: Global,
    graph: &'g Graph,
    options: BuildOptions,
    runs: &TestRunList,
    simulator: &TextList,
    fail_fast: bool,
    disk: &mut D,
    procs: &mut P,
) -> Result<Tested, RunFault>
    requires slots { (1 ≤ options.slots) × (options.slots ≤ SLOT_LIMIT) }
    requires idle { P.running procs.old ≡ [] }
    requires few { length runs.now ≤ CASE_LIMIT }
    requires fits { All FitsRun runs.now }
    ensures running { P.running procs.new ≡ [] }
    ensures same { P.answer procs.new ≡ P.answer procs.old }
    ensures count { IfOk result (λ tested. length tested.statuses ≡ length graph.now) }
    ensures follows { P.tells →
        (P.journal procs.new
        ≡ P.journal procs.old ++ since (P.journal procs.old) (P.journal procs.new)) }
    ensures told { D.tells → P.tells →
        TestsOver K.records_of (P.answer procs.old) (order_by options graph.now)
        (record { runs = runs.now; simulator = simulator.now; fail_fast = fail_fast }) result
        (has_risen (D.failed_disk_calls disk.old) (D.failed_disk_calls disk.new))
        (D.moments disk.old) (D.moments disk.new)
        (since (P.journal procs.old) (P.journal procs.new)) }
    // Unless `clean` is true, a build without commits writes nothing if the disk is at rest when it begins.
    ensures rests { D.tells → P.tells →
        RestsOver K.records_of K.is_resting (order_by options graph.now) result
        (D.moments disk.old) (D.moments disk.new)
        (compile_part (since (P.journal procs.old) (P.journal procs.new))) }
    ensures fell { NoBuildCountFell
        (build_counts P.Procs D.Disk procs.old disk.old)
        (build_counts P.Procs D.Disk procs.new disk.new) }
    ensures explains { Explains (fault_of result)
        (build_counts P.Procs D.Disk procs.old disk.old)
        (build_counts P.Procs D.Disk procs.new disk.new) }
{
    announce_long_runs(alloc, runs, procs);
    test_opened::<K, D, P>(
        alloc, graph, options, runs, simulator, fail_fast, disk, procs,
    )
}
