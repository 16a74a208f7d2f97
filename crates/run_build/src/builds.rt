//! The build of a graph: one event a turn, until nothing is left to do and no child runs.

ghost use Rattle.std.specs.Prelude.{◌≡◌, ◌≤◌, [], false, true, ℕ, length, slice_get, Some, None, IfOk, OnOk};
ghost use Rattle.std.specs.Bool.{OnFalse};
ghost use Rattle.std.specs.Result.{is_ok};
ghost use Rattle.base.specs.Graphs.{IsGraph};
ghost use Rattle.run_spec.specs.declared.statuses.FileStatus.{FileStatus};
ghost use Rattle.outside.specs.Records.{IsRecorded};
ghost use Rattle.outside.specs.FaultCounts.{build_counts};
ghost use Rattle.run_spec.specs.Moves.{empty_schedule};
ghost use Rattle.run_scheduler.specs.Machines.{IsMachineOf, is_stopped_in, tickets_of, files_of};
ghost use Rattle.run_spec.specs.Statuses.{statuses_of};
ghost use Rattle.run_spec.specs.ChildJournal.{workload_of};
ghost use Rattle.run_spec.specs.Commits.{work_of};
ghost use Rattle.run_build.specs.Statuses.{known_statuses};
ghost use Rattle.run_spec.specs.Faults.{CountsBy, fault_of};
ghost use Rattle.run_build.specs.Ran.{BuildRan, is_made};

use crate::checks::check_one;
use crate::ends::end_one;
use crate::requests::Gathered;
use crate::starts::start_one;
use crate::statuses::{due_files, first_statuses};
use base::{FILE_LIMIT, Graph, Items, NoMemory, SLOT_LIMIT};
use outside::{Disk, Procs, Records};
use run_scheduler::{BuildScheduler, BuildStep, plan};
use run_spec::{FileStatus, FileStatusList, RunFault, Step};
use std::alloc::Global;

/// A build before its first start.
#[derive(Drop)]
struct Begun {
    scheduler: BuildScheduler,
    statuses: Vec<FileStatus>,
    /// How many files are stale, or checked later.
    due: u64,
}

/// The machine of a build and the statuses of its files, where nothing has happened yet.
fn begin<K: Records>(
    alloc: Global,
    graph: &Graph,
    store: &K,
    limit: u32,
    keep_going: bool,
) -> Result<Begun, NoMemory>
    requires limit { (1 ≤ limit) × (limit ≤ SLOT_LIMIT) }
    requires over { K.is_over store.now graph.now }
    ensures graph { IfOk result (λ begun. IsGraph graph.now) }
    ensures files { IfOk result (λ begun. files_of begun.scheduler ≡ length graph.now) }
    ensures tickets { IfOk result (λ begun. tickets_of begun.scheduler ≡ []) }
    ensures in_step { let setting = work_of (K.latest_of store.now) graph.now limit keep_going in
        IfOk result (λ begun. IsMachineOf begun.scheduler (workload_of setting) empty_schedule) }
    ensures has_status { let setting = work_of (K.latest_of store.now) graph.now limit keep_going in
        IfOk result (λ begun. begun.statuses.items ≡ known_statuses setting [] begun.scheduler) }
    ensures stopped { IfOk result (λ begun. is_stopped_in begun.scheduler ≡ false) }
{
    prove!(graph.len() <= FILE_LIMIT as u64);
    let plan = plan(alloc, graph, store)?;
    let scheduler = BuildScheduler::new(alloc, graph, plan.as_slice(), limit, keep_going)?;
    let statuses = first_statuses(alloc, plan.as_slice(), keep_going)?;
    let due = due_files(plan.as_slice());
    Ok(Begun {
        scheduler,
        statuses,
        due,
    })
}

/// Builds the graph over a store of records, which was opened over it, and gives one status for each file. A file whose record is
/// current over its dependencies is fresh. The other files are compiled, each once all its dependencies are made. At most `limit`
/// children run at once, from 1 to 64. The artefact that a compiler gives is committed before the next start.
///
/// After a refusal nothing more is started; with `keep_going`, all files that don't depend on a refused file still are. After a
/// fault nothing more is started, and the artefacts of the children that still run are committed if possible. The answer is the
/// first fault, but out of memory takes the place of any other fault. No child runs in the end.
pub fn build_statuses<K: Records, D: Disk, P: Procs>(
    alloc: Global,
    graph: &Graph,
    store: &mut K,
    disk: &mut D,
    procs: &mut P,
    limit: u32,
    keep_going: bool,
) -> Result<FileStatusList, RunFault>
    requires limit { (1 ≤ limit) × (limit ≤ SLOT_LIMIT) }
    requires over { K.is_over store.old graph.now }
    requires idle { P.running procs.old ≡ [] }
    requires usable { K.broken store.old ≡ false }
    requires in_step { D.tells → K.in_step store.old (D.moments disk.old).now }
    ensures running { P.running procs.new ≡ [] }
    ensures same { P.answer procs.new ≡ P.answer procs.old }
    ensures count { IfOk result (λ statuses. length statuses ≡ length graph.now) }
    ensures ran { let setting = work_of (K.latest_of store.old) graph.now limit keep_going in
        BuildRan P.tells D.tells (P.answer procs.old) K.records_of setting
        (record {
          latest_of = K.latest_of store.old;
          journal = P.journal procs.old;
          moments = D.moments disk.old;
        })
        (record {
          latest_of = K.latest_of store.new;
          journal = P.journal procs.new;
          moments = D.moments disk.new;
        })
        (record { ended = is_ok result; fault = fault_of result; broken = K.broken store.new })
        (λ events. IfOk result (λ statuses. statuses ≡ statuses_of setting events)) }
    // For each file that is fresh or compiled, the store has a current record.
    ensures recorded { IfOk result (λ statuses. (position : ℕ) (status : FileStatus) →
        slice_get statuses position ≡ Some status → is_made status ≡ true →
        IsRecorded (K.latest_of store.new) graph.now position) }
    ensures in_step { D.tells →
        OnFalse (K.broken store.new) (K.in_step store.new (D.moments disk.new).now) }
    ensures usable { OnOk result (K.broken store.new ≡ false) }
    ensures counts { CountsBy (fault_of result) (K.broken store.new)
        (build_counts P.Procs D.Disk procs.old disk.old)
        (build_counts P.Procs D.Disk procs.new disk.new) }
{
    let Ok(
        Begun {
            mut scheduler,
            mut statuses,
            due,
        },
    ) = begin(alloc, graph, store, limit, keep_going)
    else {
        return Err(RunFault::NoMemory);
    };
    procs.announce_starts(due);
    let mut first_fault = None;
    let mut gathered = Gathered::new(alloc);
    loop {
        match scheduler.next() {
            BuildStep::Check(at) => {
                let fresh = check_one(graph, at, store, &mut scheduler, &mut statuses);
                if fresh {
                    procs.skip_start();
                }
            }
            BuildStep::Run(Step::Start(at)) => {
                start_one(
                    alloc,
                    graph,
                    at,
                    store,
                    &mut gathered,
                    &mut scheduler,
                    &mut first_fault,
                    procs,
                )
            }
            BuildStep::Run(Step::Wait) => end_one(
                alloc,
                graph,
                &mut scheduler,
                &mut statuses,
                &mut first_fault,
                store,
                disk,
                procs,
            ),
            BuildStep::Run(Step::Finished) => break,
        }
    }
    match first_fault {
        None => Ok(Items::from_vec(statuses)),
        Some(fault) => Err(fault),
    }
}
