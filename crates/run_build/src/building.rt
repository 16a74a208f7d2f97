//! A build over the records of a disk.

ghost use Rattle.std.specs.Prelude.{◌≡◌, ◌<◌, ◌≤◌, ◌++◌, [], ℕ, Some, true, false, length, slice_get, IfOk, OnOk};
ghost use Rattle.std.specs.List.{filter_map, list_all};
ghost use Rattle.base.specs.PresentGraph.{below};
ghost use Rattle.outside.specs.Counts.{StoreCounts};
ghost use Rattle.outside.specs.Disks.{Rests, reads_of};
ghost use Rattle.outside.specs.Records.{IsRecorded};
ghost use Rattle.outside.specs.FaultCounts.{NoBuildCountFell, build_counts};
ghost use Rattle.run_spec.specs.declared.statuses.FileStatus.{FileStatus};
ghost use Rattle.run_spec.specs.ChildJournal.{since};
ghost use Rattle.run_spec.specs.Histories.{work_over};
ghost use Rattle.run_spec.specs.JournalParts.{test_part};
ghost use Rattle.run_build.specs.Ran.{built_by, is_made};
ghost use Rattle.run_build.specs.Requests.{borrowed_at};
ghost use Rattle.run_spec.specs.Faults.{Explains, fault_of};
ghost use Rattle.run_build.specs.Building.{OpensStore, BuildsOver, RestsOver, has_risen, statuses_in};
ghost use Rattle.run_build.specs.Orders.{order_by};

use crate::build_statuses;
use base::{FILE_LIMIT, Graph, SLOT_LIMIT};
use outside::{Disk, OpenRecords, Procs, Records, StoreFault};
use run_spec::{FileStatusList, RunFault};
use std::alloc::Global;

/// How a graph is built: `slots` is the greatest number of children at once. With `keep_going` the build goes on after a refusal.
/// With `clean` it begins with an empty store.
#[derive(Clone, Copy, Debug, PartialEq, Eq)]
pub struct BuildOptions {
    pub slots: u32,
    pub keep_going: bool,
    pub clean: bool,
}

/// The result of a build: one status for each file of the graph, in order, and the store that has the records.
#[derive(Drop)]
pub struct Kept<K> {
    pub statuses: FileStatusList,
    pub store: K,
}

/// Opens the store of a disk for the build of a graph: with its records, or, if `clean` is true, empty.
fn open_store<'g, K: Records + OpenRecords<'g>, D: Disk>(
    alloc: Global,
    disk: &mut D,
    graph: &'g Graph,
    clean: bool,
) -> Result<K, StoreFault>
    ensures opens { D.tells →
        OpensStore K.records_of clean result (D.moments disk.old) (D.moments disk.new) }
    ensures rests { D.tells → clean ≡ false →
        K.is_resting (reads_of (D.moments disk.old).now) →
        Rests result (D.moments disk.old) (D.moments disk.new) }
    ensures in_step { D.tells →
        IfOk result (λ store. K.in_step store (D.moments disk.new).now) }
    ensures usable { IfOk result (λ store. K.broken store ≡ false) }
    ensures over { IfOk result (λ store. K.is_over store graph.now) }
    ensures cause { StoreCounts result (D.failed_disk_calls disk.old)
        (D.failed_disk_calls disk.new) }
{
    if clean {
        return K::open_empty(alloc, disk, graph);
    }
    K::open(alloc, disk, graph)
}

/// Opens the store of a disk, builds over its records, and keeps the store, which lends the artefacts of all files that are made.
pub fn build_kept<'g, K: Records + OpenRecords<'g> + Drop, D: Disk, P: Procs>(
    alloc: Global,
    graph: &'g Graph,
    options: BuildOptions,
    disk: &mut D,
    procs: &mut P,
) -> Result<Kept<K>, RunFault>
    requires slots { (1 ≤ options.slots) × (options.slots ≤ SLOT_LIMIT) }
    requires idle { P.running procs.old ≡ [] }
    ensures running { P.running procs.new ≡ [] }
    ensures same { P.answer procs.new ≡ P.answer procs.old }
    ensures count { IfOk result (λ kept. length kept.statuses ≡ length graph.now) }
    // For each file that is made, the store has a current record.
    ensures recorded { IfOk result (λ kept. (position : ℕ) (status : FileStatus) →
        slice_get kept.statuses position ≡ Some status → is_made status ≡ true →
        IsRecorded (K.latest_of kept.store) graph.now position) }
    // If all files are made, the files that the store lends are the built files.
    ensures borrowed { D.tells → P.tells → IfOk result (λ kept.
        list_all is_made kept.statuses ≡ true →
        filter_map (borrowed_at (K.latest_of kept.store) graph.now) (below (length graph.now))
        ≡ built_by (work_over K.records_of (order_by options graph.now) (D.moments disk.old).now)
        (since (P.journal procs.old) (P.journal procs.new))) }
    ensures follows { P.tells →
        (P.journal procs.new
        ≡ P.journal procs.old ++ since (P.journal procs.old) (P.journal procs.new)) }
    ensures no_tests { P.tells →
        test_part (since (P.journal procs.old) (P.journal procs.new)) ≡ [] }
    ensures told { D.tells → P.tells →
        BuildsOver K.records_of (P.answer procs.old) (order_by options graph.now) (statuses_in result)
        (has_risen (D.failed_disk_calls disk.old) (D.failed_disk_calls disk.new))
        (D.moments disk.old) (D.moments disk.new)
        (since (P.journal procs.old) (P.journal procs.new)) }
    // Unless `clean` is true, a build without commits writes nothing if the disk is at rest when it begins.
    ensures rests { D.tells → P.tells →
        RestsOver K.records_of K.is_resting (order_by options graph.now) result
        (D.moments disk.old) (D.moments disk.new)
        (since (P.journal procs.old) (P.journal procs.new)) }
    ensures fell { NoBuildCountFell
        (build_counts P.Procs D.Disk procs.old disk.old)
        (build_counts P.Procs D.Disk procs.new disk.new) }
    ensures explains { Explains (fault_of result)
        (build_counts P.Procs D.Disk procs.old disk.old)
        (build_counts P.Procs D.Disk procs.new disk.new) }
{
    prove!(graph.len() <= FILE_LIMIT as u64);
    match open_store::<K, D>(alloc, disk, graph, options.clean) {
        Ok(mut store) => match build_statuses(
            alloc,
            graph,
            &mut store,
            disk,
            procs,
            options.slots,
            options.keep_going,
        ) {
            Ok(statuses) => Ok(Kept { statuses, store }),
            Err(fault) => Err(fault),
        },
        Err(StoreFault::NoMemory) => Err(RunFault::NoMemory),
        Err(StoreFault::DiskFailed) => Err(RunFault::DiskFailed),
    }
}

/// Opens the store of a disk, and builds over its records.
pub fn build_over<'g, K: Records + OpenRecords<'g> + Drop, D: Disk, P: Procs>(
    alloc: Global,
    graph: &'g Graph,
    options: BuildOptions,
    disk: &mut D,
    procs: &mut P,
) -> Result<FileStatusList, RunFault>
    requires slots { (1 ≤ options.slots) × (options.slots ≤ SLOT_LIMIT) }
    requires idle { P.running procs.old ≡ [] }
    ensures running { P.running procs.new ≡ [] }
    ensures same { P.answer procs.new ≡ P.answer procs.old }
    ensures count { IfOk result (λ statuses. length statuses ≡ length graph.now) }
    ensures follows { P.tells →
        (P.journal procs.new
        ≡ P.journal procs.old ++ since (P.journal procs.old) (P.journal procs.new)) }
    ensures no_tests { P.tells →
        test_part (since (P.journal procs.old) (P.journal procs.new)) ≡ [] }
    ensures told { D.tells → P.tells →
        BuildsOver K.records_of (P.answer procs.old) (order_by options graph.now) result
        (has_risen (D.failed_disk_calls disk.old) (D.failed_disk_calls disk.new))
        (D.moments disk.old) (D.moments disk.new)
        (since (P.journal procs.old) (P.journal procs.new)) }
    // Unless `clean` is true, a build without commits writes nothing if the disk is at rest when it begins.
    ensures rests { D.tells → P.tells →
        RestsOver K.records_of K.is_resting (order_by options graph.now) result
        (D.moments disk.old) (D.moments disk.new)
        (since (P.journal procs.old) (P.journal procs.new)) }
    ensures fell { NoBuildCountFell
        (build_counts P.Procs D.Disk procs.old disk.old)
        (build_counts P.Procs D.Disk procs.new disk.new) }
    ensures explains { Explains (fault_of result)
        (build_counts P.Procs D.Disk procs.old disk.old)
        (build_counts P.Procs D.Disk procs.new disk.new) }
{
    match build_kept::<K, D, P>(alloc, graph, options, disk, procs) {
        Ok(
            Kept {
                statuses,
                store: _store,
            },
        ) => Ok(statuses),
        Err(fault) => Err(fault),
    }
}
