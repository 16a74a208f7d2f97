//! The way of an artefact into the store.

ghost use Rattle.std.specs.Prelude.{◌≡◌, ◌<◌, ◌≤◌, ◌∷◌, [], false, true, map, take, List, length, slice_get, All, Some};
ghost use Rattle.std.specs.Bool.{OnFalse};
ghost use Rattle.std.specs.Result.{is_ok};
ghost use Rattle.run_spec.specs.Types.{FileName, Entry};
ghost use Rattle.base.specs.Graphs.{IsGraph};
ghost use Rattle.outside.specs.Records.{HasLatest, deps_at, latest_built};
ghost use Rattle.outside.specs.Commits.{one_if};
ghost use Rattle.run_spec.specs.Commits.{record_at};
ghost use Rattle.run_build.specs.Commits.{latest_after, HoldsFirst};
ghost use Rattle.run_build.specs.Faults.{CountsCommit, is_disk_failed};

use base::{ARTEFACT_LIMIT, DiskFailed, FILE_LIMIT, Graph, NoMemory, Text};
use outside::{Disk, Records};
use run_spec::RunFault;
use std::alloc::Global;

/// Commits a record that is ready.
fn commit_ready<K: Records, D: Disk>(
    store: &mut K,
    disk: &mut D,
    prepared: K::Prepared,
) -> Result<(), RunFault>
    requires usable { K.broken store.old ≡ false }
    requires ready { K.is_ready store.old prepared }
    requires over { (graph : List Entry) × K.is_over store.old graph
        × (K.position_of prepared < length graph) }
    requires in_step { D.tells → K.in_step store.old (D.moments disk.old).now }
    ensures latest { (name : FileName) → K.latest_of store.new name ≡
        latest_after (take (one_if (is_ok result)) (K.record_of store.old prepared ∷ []))
        (K.latest_of store.old) name }
    ensures images { D.tells →
        HoldsFirst (one_if (is_ok result)) (K.broken store.new)
        (K.record_of store.old prepared ∷ []) K.records_of (D.moments disk.old)
        (D.moments disk.new) }
    ensures in_step { D.tells →
        OnFalse (K.broken store.new) (K.in_step store.new (D.moments disk.new).now) }
    ensures over { (graph : List Entry) (entry : Entry) → IsGraph graph →
        K.is_over store.old graph →
        slice_get graph (K.position_of prepared) ≡ Some entry →
        entry.name ≡ (K.record_of store.old prepared).asked.name →
        K.is_over store.new graph }
    ensures broken { K.broken store.new ≡ is_disk_failed result }
    ensures cause { CountsCommit result (D.failed_disk_calls disk.old)
        (D.failed_disk_calls disk.new) }
{
    match store.commit(disk, prepared) {
        Ok(()) => Ok(()),
        Err(DiskFailed) => Err(RunFault::DiskFailed),
    }
}

/// Commits what a compiler gave for the file at a position.
pub(crate) fn commit_made<K: Records, D: Disk>(
    alloc: Global,
    graph: &Graph,
    at: u32,
    artefact: &Text,
    store: &mut K,
    disk: &mut D,
) -> Result<(), RunFault>
    requires position { at < length graph.now }
    requires over { K.is_over store.old graph.now }
    requires artefact { length artefact.now ≤ ARTEFACT_LIMIT }
    requires built { All (HasLatest (K.latest_of store.old) graph.now) (deps_at graph.now at) }
    requires usable { K.broken store.old ≡ false }
    requires in_step { D.tells → K.in_step store.old (D.moments disk.old).now }
    ensures latest { let built = map (latest_built (K.latest_of store.old) graph.now)
        (deps_at graph.now at) in
        (name : FileName) → K.latest_of store.new name ≡
        latest_after (take (one_if (is_ok result)) (record_at graph.now at built artefact.now ∷ []))
        (K.latest_of store.old) name }
    ensures images { let built = map (latest_built (K.latest_of store.old) graph.now)
        (deps_at graph.now at) in
        D.tells → HoldsFirst (one_if (is_ok result)) (K.broken store.new)
        (record_at graph.now at built artefact.now ∷ []) K.records_of
        (D.moments disk.old) (D.moments disk.new) }
    ensures in_step { D.tells →
        OnFalse (K.broken store.new) (K.in_step store.new (D.moments disk.new).now) }
    ensures over { K.is_over store.new graph.now }
    ensures broken { K.broken store.new ≡ is_disk_failed result }
    ensures cause { CountsCommit result (D.failed_disk_calls disk.old)
        (D.failed_disk_calls disk.new) }
{
    prove!(graph.len() <= FILE_LIMIT as u64);
    match store.prepare(alloc, graph, at, artefact) {
        Ok(prepared) => commit_ready(store, disk, prepared),
        Err(NoMemory) => Err(RunFault::NoMemory),
    }
}
