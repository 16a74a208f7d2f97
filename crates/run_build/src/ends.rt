//! The end of one child.

ghost use Rattle.std.specs.Prelude.{◌≡◌, ◌<◌, ◌≤◌, ◌++◌, ◌∷◌, [], false, ℕ, Bool, List, Option, Err, IsTrue, length, Contains};
ghost use Rattle.std.specs.Bool.{OnFalse};
ghost use Rattle.base.specs.declared.file.FileName.{FileName};
ghost use Rattle.base.specs.declared.graph.Entry.{Entry};
ghost use Rattle.base.specs.declared.child.Event.{Event};
ghost use Rattle.base.specs.declared.child.Event.TheVariants as event;
ghost use Rattle.run_spec.specs.declared.statuses.FileStatus.{FileStatus};
ghost use Rattle.outside.specs.Records.{Record};
ghost use Rattle.outside.specs.Children.{FitsExit, without, ended_ticket, end_event};
ghost use Rattle.outside.specs.Counts.{ChildCounts};
ghost use Rattle.run_spec.specs.Moves.{Workload, SchedulerState, is_running};
ghost use Rattle.outside.specs.Disks.{Moments};
ghost use Rattle.outside.specs.FaultCounts.{BuildFaultCounts, ChildFaultCounts, build_counts};
ghost use Rattle.run_spec.specs.declared.step.Step.TheVariants.{Wait};
ghost use Rattle.run_scheduler.specs.declared.step.BuildStep.TheVariants.{Run};
ghost use Rattle.run_scheduler.specs.Machines.{IsMachineOf, next_of, tickets_of, files_of, to_come};
ghost use Rattle.run_spec.specs.Commits.{commits};
ghost use Rattle.run_build.specs.Commits.{HoldsFirst};
ghost use Rattle.run_build.specs.Requests.{AreRecorded, KeepsFirst};
ghost use Rattle.run_spec.specs.Faults.{CountsBy, with_fault};
ghost use Rattle.run_build.specs.Faults.{is_of_disk};
ghost use Rattle.run_build.specs.UnderWay.{Origin, BuildState, with_machine, work_from, IsUnderWay, IsGoing, TakesEnd, Goes};

use crate::commits::commit_made;
use crate::notes::is_committing;
use crate::starts::halt;
use base::{Exit, Graph};
use outside::{Disk, Ended, Procs, Records, WaitFault};
use run_scheduler::BuildScheduler;
use run_spec::{FileStatus, RunFault, note};
use std::alloc::Global;

/// The end of a child is lost: nothing more is started.
fn lose(
    scheduler: &mut BuildScheduler,
    first_fault: &mut Option<RunFault>,
    ticket: u64,
    fault: RunFault,
)
    requires runs { Contains (tickets_of scheduler.old) ticket }
    requires kind { is_of_disk fault ≡ false }
    ensures first_fault { first_fault.new ≡ Some (with_fault first_fault.old fault) }
    ensures files { files_of scheduler.new ≡ files_of scheduler.old }
    ensures tickets { tickets_of scheduler.new ≡ without ticket (tickets_of scheduler.old) }
    ensures nearer { to_come scheduler.new < to_come scheduler.old }
    ensures goes { (graph : List Entry) (from : Origin) (events : List Event) (acknowledged : ℕ)
        (state : BuildState) →
        IsUnderWay graph from events acknowledged (with_machine scheduler.old first_fault.old state) →
        IsUnderWay graph from (events ++ event.Gone ticket ∷ []) acknowledged
        (with_machine scheduler.new first_fault.new state) }
{
    let _at = scheduler.record_loss(ticket);
    note(first_fault, fault);
}

/// A wait gave no exit: its child is lost.
fn lose_by(scheduler: &mut BuildScheduler, first_fault: &mut Option<RunFault>, fault: WaitFault)
    requires { Contains (tickets_of scheduler.old) (ended_ticket (Err fault)) }
    ensures files { files_of scheduler.new ≡ files_of scheduler.old }
    ensures tickets { tickets_of scheduler.new ≡ without (ended_ticket (Err fault))
        (tickets_of scheduler.old) }
    ensures nearer { to_come scheduler.new < to_come scheduler.old }
    ensures goes { (graph : List Entry) (from : Origin) (events : List Event) (acknowledged : ℕ)
        (state : BuildState) →
        IsUnderWay graph from events acknowledged (with_machine scheduler.old first_fault.old state) →
        IsUnderWay graph from (events ++ end_event (Err fault) ∷ []) acknowledged
        (with_machine scheduler.new first_fault.new state) }
    ensures counts { (first now : BuildFaultCounts) (losses : ℕ) (broken : Bool) →
        ChildCounts {T = Ended} (Err fault) now.children.losses losses →
        CountsBy first_fault.old broken first now →
        CountsBy first_fault.new broken first
        (record now { children = record now.children { losses = losses } }) }
{
    match fault {
        WaitFault::NoMemory { ticket } => lose(scheduler, first_fault, ticket, RunFault::NoMemory),
        WaitFault::Lost { ticket } => lose(scheduler, first_fault, ticket, RunFault::ChildLost),
    }
}

/// Takes the exit of a child: the status of its file, and where its code is 0 the artefact, which is committed before
/// anything else is done. Where the store is broken, or something was out of memory, it isn't committed.
fn take_exit<K: Records, D: Disk>(
    alloc: Global,
    graph: &Graph,
    ticket: u64,
    exit: Exit,
    scheduler: &mut BuildScheduler,
    statuses: &mut Vec<FileStatus>,
    first_fault: &mut Option<RunFault>,
    store: &mut K,
    disk: &mut D,
)
    requires over { K.is_over store.old graph.now }
    requires runs { Contains (tickets_of scheduler.old) ticket }
    requires step { next_of scheduler.old ≡ Run Wait }
    requires size { FitsExit exit }
    requires files { files_of scheduler.old ≡ length graph.now }
    requires going { IsGoing graph.now
        (record {
          machine = scheduler.old;
          statuses = statuses.old.items;
          first_fault = first_fault.old;
          latest_of = K.latest_of store.old;
          broken = K.broken store.old;
        }) }
    requires in_step { D.tells →
        OnFalse (K.broken store.old) (K.in_step store.old (D.moments disk.old).now) }
    ensures files { files_of scheduler.new ≡ files_of scheduler.old }
    ensures tickets { tickets_of scheduler.new ≡ without ticket (tickets_of scheduler.old) }
    ensures nearer { to_come scheduler.new < to_come scheduler.old }
    ensures in_step { D.tells →
        OnFalse (K.broken store.new) (K.in_step store.new (D.moments disk.new).now) }
    ensures over { K.is_over store.new graph.now }
    ensures keeps { (count : ℕ) → AreRecorded (K.latest_of store.old) graph.now count →
        KeepsFirst graph.now count (K.latest_of store.old) (K.latest_of store.new) }
    ensures runs { (workload : Workload) (schedule : SchedulerState) → IsMachineOf scheduler.old workload schedule →
        IsTrue (is_running schedule ticket) }
    ensures goes { (from : Origin) (events : List Event) (acknowledged : ℕ) →
        let before : BuildState = record {
          machine = scheduler.old;
          statuses = statuses.old.items;
          first_fault = first_fault.old;
          latest_of = K.latest_of store.old;
          broken = K.broken store.old;
        } in
        let after : BuildState = record {
          machine = scheduler.new;
          statuses = statuses.new.items;
          first_fault = first_fault.new;
          latest_of = K.latest_of store.new;
          broken = K.broken store.new;
        } in
        IsUnderWay graph.now from events acknowledged before →
        (D.tells → HoldsFirst acknowledged before.broken
        (commits (work_from graph.now from) events) K.records_of from.moments
        (D.moments disk.old)) →
        TakesEnd D.tells K.records_of graph.now from (events ++ event.Ended ticket exit ∷ []) after
        (D.moments disk.new) }
    ensures counts { (first : BuildFaultCounts) (children : ChildFaultCounts) →
        CountsBy first_fault.old (K.broken store.old) first
        (record { children = children; disks = D.failed_disk_calls disk.old }) →
        CountsBy first_fault.new (K.broken store.new) first
        (record { children = children; disks = D.failed_disk_calls disk.new }) }
{
    let Exit {
        code,
        output,
        results: _,
    } = exit;
    let at = scheduler.record_end(ticket, code == 0);
    if code != 0 {
        statuses[at as usize] = FileStatus::Refused { code, output };
        return;
    }
    statuses[at as usize] = FileStatus::Compiled;
    if !is_committing(*first_fault, store.is_broken()) {
        return;
    }
    match commit_made(alloc, graph, at, &output, store, disk) {
        Ok(()) => {}
        Err(fault) => halt(scheduler, first_fault, fault),
    }
}

/// Waits for the end of a child, and takes it.
pub(crate) fn end_one<K: Records, D: Disk, P: Procs>(
    alloc: Global,
    graph: &Graph,
    scheduler: &mut BuildScheduler,
    statuses: &mut Vec<FileStatus>,
    first_fault: &mut Option<RunFault>,
    store: &mut K,
    disk: &mut D,
    procs: &mut P,
)
    requires over { K.is_over store.old graph.now }
    requires running { P.running procs.old ≡ tickets_of scheduler.old }
    requires some { 0 < length (tickets_of scheduler.old) }
    requires step { next_of scheduler.old ≡ Run Wait }
    requires files { files_of scheduler.old ≡ length graph.now }
    requires going { IsGoing graph.now
        (record {
          machine = scheduler.old;
          statuses = statuses.old.items;
          first_fault = first_fault.old;
          latest_of = K.latest_of store.old;
          broken = K.broken store.old;
        }) }
    requires in_step { D.tells →
        OnFalse (K.broken store.old) (K.in_step store.old (D.moments disk.old).now) }
    ensures running { P.running procs.new ≡ tickets_of scheduler.new }
    ensures same { P.answer procs.new ≡ P.answer procs.old }
    ensures files { files_of scheduler.new ≡ files_of scheduler.old }
    ensures nearer { to_come scheduler.new < to_come scheduler.old }
    ensures in_step { D.tells →
        OnFalse (K.broken store.new) (K.in_step store.new (D.moments disk.new).now) }
    ensures over { K.is_over store.new graph.now }
    ensures keeps { (count : ℕ) → AreRecorded (K.latest_of store.old) graph.now count →
        KeepsFirst graph.now count (K.latest_of store.old) (K.latest_of store.new) }
    ensures goes { (from : Origin) →
        let before : BuildState = record {
          machine = scheduler.old;
          statuses = statuses.old.items;
          first_fault = first_fault.old;
          latest_of = K.latest_of store.old;
          broken = K.broken store.old;
        } in
        let after : BuildState = record {
          machine = scheduler.new;
          statuses = statuses.new.items;
          first_fault = first_fault.new;
          latest_of = K.latest_of store.new;
          broken = K.broken store.new;
        } in
        Goes P.tells D.tells (P.answer procs.old) K.records_of graph.now from before
        (record { journal = P.journal procs.old; moments = D.moments disk.old }) →
        Goes P.tells D.tells (P.answer procs.old) K.records_of graph.now from after
        (record { journal = P.journal procs.new; moments = D.moments disk.new }) }
    ensures counts { (first : BuildFaultCounts) →
        CountsBy first_fault.old (K.broken store.old) first
        (build_counts P.Procs D.Disk procs.old disk.old) →
        CountsBy first_fault.new (K.broken store.new) first
        (build_counts P.Procs D.Disk procs.new disk.new) }
{
    match procs.wait_any(alloc) {
        Ok(Ended { ticket, exit }) => {
            take_exit(
                alloc,
                graph,
                ticket,
                exit,
                scheduler,
                statuses,
                first_fault,
                store,
                disk,
            )
        }
        Err(fault) => lose_by(scheduler, first_fault, fault),
    }
}
