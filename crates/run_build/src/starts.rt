//! The start of one child, and a build that is halted by a fault.

ghost use Rattle.std.specs.Prelude.{◌≡◌, ◌<◌, ◌≤◌, ◌++◌, ◌∷◌, [], ℕ, Bool, true, List, Some, None, length, All, IfOk, OnErr, is_some};
ghost use Rattle.base.specs.declared.file.FileName.{FileName};
ghost use Rattle.base.specs.declared.graph.Entry.{Entry};
ghost use Rattle.base.specs.declared.child.Event.{Event};
ghost use Rattle.base.specs.declared.child.Event.TheVariants.{Started, Gone};
ghost use Rattle.base.specs.declared.child.Request.{Request};
ghost use Rattle.run_spec.specs.declared.statuses.FileStatus.{FileStatus};
ghost use Rattle.outside.specs.Children.{IsFresh, without};
ghost use Rattle.outside.specs.Records.{Record, IsRecorded, deps_at};
ghost use Rattle.outside.specs.FaultCounts.{BuildFaultCounts, child_counts};
ghost use Rattle.run_spec.specs.Moves.{Workload, SchedulerState};
ghost use Rattle.run_spec.specs.declared.step.Step.TheVariants.{Start};
ghost use Rattle.run_scheduler.specs.declared.step.BuildStep.TheVariants.{Run};
ghost use Rattle.run_scheduler.specs.Machines.{IsMachineOf, is_checked, is_stopped_in, next_of, tickets_of, files_of, to_come};
ghost use Rattle.run_build.specs.Requests.{borrowed_request, IsGathered};
ghost use Rattle.run_spec.specs.Faults.{CountsBy, CountsStart, with_fault};
ghost use Rattle.run_build.specs.UnderWay.{Origin, BuildState, with_machine, work_from, IsUnderWay, IsJournalled, GoesOn};
ghost use Rattle.run_spec.specs.Steps.{halted_if};

use crate::requests::{Gathered, request_of};
use base::Graph;
use outside::{Procs, Records, StartFault};
use run_scheduler::BuildScheduler;
use run_spec::{RunFault, note};
use std::alloc::Global;

/// Notes a fault, and nothing more is started.
pub(crate) fn halt(
    scheduler: &mut BuildScheduler,
    first_fault: &mut Option<RunFault>,
    fault: RunFault,
)
    ensures first_fault { first_fault.new ≡ Some (with_fault first_fault.old fault) }
    ensures in_step { (workload : Workload) (schedule : SchedulerState) (halts : Bool) →
        IsMachineOf scheduler.old workload (halted_if halts schedule) →
        IsMachineOf scheduler.new workload (halted_if (is_some first_fault.new) schedule) }
    ensures checked { (k : ℕ) → is_checked scheduler.new k ≡ is_checked scheduler.old k }
    ensures stopped { is_stopped_in scheduler.new ≡ true }
    ensures files { files_of scheduler.new ≡ files_of scheduler.old }
    ensures tickets { tickets_of scheduler.new ≡ tickets_of scheduler.old }
    ensures nearer { to_come scheduler.new ≤ to_come scheduler.old }
    ensures ends { (at : ℕ) → next_of scheduler.old ≡ Run (Start at) →
        to_come scheduler.new < to_come scheduler.old }
{
    note(first_fault, fault);
    scheduler.stop();
}

/// Starts the compiler of the file at a position.
fn try_start<K: Records, P: Procs>(
    alloc: Global,
    graph: &Graph,
    at: u32,
    store: &K,
    gathered: &mut Gathered,
    procs: &mut P,
) -> Result<u64, RunFault>
    requires position { at < length graph.now }
    requires over { K.is_over store.now graph.now }
    requires recorded { All (IsRecorded (K.latest_of store.now) graph.now) (deps_at graph.now at) }
    requires gathered { IsGathered (K.latest_of store.now) graph.now gathered.old }
    ensures gathered { IsGathered (K.latest_of store.now) graph.now gathered.new }
    ensures running { IfOk result (λ ticket.
        P.running procs.new ≡ P.running procs.old ++ ticket ∷ []) }
    ensures runs { OnErr result (P.running procs.new ≡ P.running procs.old) }
    ensures journal { IfOk result (λ ticket. (request : Request)
        × (borrowed_request (K.latest_of store.now) graph.now at ≡ Some request)
        × (P.tells → P.journal procs.new ≡ P.journal procs.old ++ Started ticket request ∷ [])) }
    ensures fresh { P.tells → IfOk result (IsFresh (P.journal procs.old)) }
    ensures quiet { OnErr result (P.tells → P.journal procs.new ≡ P.journal procs.old) }
    ensures same { P.answer procs.new ≡ P.answer procs.old }
    ensures starts { CountsStart result (P.failed_starts procs.old) (P.failed_starts procs.new) }
    ensures losses { P.lost_children procs.new ≡ P.lost_children procs.old }
{
    let request = request_of(alloc, graph, at, store, gathered)?;
    match procs.start(alloc, &request) {
        Ok(ticket) => Ok(ticket),
        Err(StartFault::NoMemory) => Err(RunFault::NoMemory),
        Err(StartFault::Failed) => Err(RunFault::StartFailed),
    }
}

/// Starts the file that the machine gives, while no fault is noted. Where that fails, nothing more is started.
pub(crate) fn start_one<K: Records, P: Procs>(
    alloc: Global,
    graph: &Graph,
    at: u32,
    store: &K,
    gathered: &mut Gathered,
    scheduler: &mut BuildScheduler,
    first_fault: &mut Option<RunFault>,
    procs: &mut P,
)
    requires position { at < length graph.now }
    requires over { K.is_over store.now graph.now }
    requires recorded { All (IsRecorded (K.latest_of store.now) graph.now) (deps_at graph.now at) }
    requires gathered { IsGathered (K.latest_of store.now) graph.now gathered.old }
    requires step { next_of scheduler.old ≡ Run (Start at) }
    requires running { P.running procs.old ≡ tickets_of scheduler.old }
    requires unnoted { first_fault.old ≡ None }
    ensures gathered { IsGathered (K.latest_of store.now) graph.now gathered.new }
    ensures running { P.running procs.new ≡ tickets_of scheduler.new }
    ensures same { P.answer procs.new ≡ P.answer procs.old }
    ensures files { files_of scheduler.new ≡ files_of scheduler.old }
    ensures nearer { to_come scheduler.new < to_come scheduler.old }
    ensures goes { (from : Origin) (events : List Event) (acknowledged : ℕ) (statuses : List FileStatus)
        (broken : Bool) →
        let before : BuildState = record {
          machine = scheduler.old;
          statuses = statuses;
          first_fault = first_fault.old;
          latest_of = K.latest_of store.now;
          broken = broken;
        } in
        IsUnderWay graph.now from events acknowledged before →
        (P.tells → IsJournalled (P.answer procs.old) (work_from graph.now from) events
        from.journal (P.journal procs.old)) →
        GoesOn P.tells (P.answer procs.old) graph.now from events acknowledged
        (with_machine scheduler.new first_fault.new before) (P.journal procs.new) }
    ensures counts { (first : BuildFaultCounts) (disks : ℕ) (broken : Bool) →
        CountsBy first_fault.old broken first
        (record { children = child_counts P.Procs procs.old; disks = disks }) →
        CountsBy first_fault.new broken first
        (record { children = child_counts P.Procs procs.new; disks = disks }) }
{
    match try_start(alloc, graph, at, store, gathered, procs) {
        Ok(ticket) => scheduler.record_start(at, ticket),
        Err(fault) => halt(scheduler, first_fault, fault),
    }
}
