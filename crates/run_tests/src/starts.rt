//! The start of one run, and runs that are halted by a fault.

ghost use Rattle.std.specs.Prelude.{◌≡◌, ◌<◌, ◌≤◌, ◌++◌, ◌∷◌, [], ℕ, Bool, List, Some, None, All, length, IfOk, OnErr, is_some, false};
ghost use Rattle.run_spec.specs.Types.{Request, Exit, Event};
ghost use Rattle.base.specs.declared.child.Event.TheVariants.{Started};
ghost use Rattle.outside.specs.Children.{IsFresh};
ghost use Rattle.outside.specs.FaultCounts.{BuildFaultCounts, child_counts};
ghost use Rattle.run_spec.specs.Moves.{Workload, SchedulerState};
ghost use Rattle.run_spec.specs.declared.step.Step.TheVariants.{Start};
ghost use Rattle.run_spec.specs.Steps.{halted_if};
ghost use Rattle.testbench_runs.specs.declared.ends.RunEnd.{RunEnd};
ghost use Rattle.testbench_runs.specs.Runs.{FitsRun};
ghost use Rattle.testbench_runs.specs.BenchJobs.{bench_request};
ghost use Rattle.passes_spec.specs.Passes.{Pass};
ghost use Rattle.run_scheduler.specs.Rows.{IsSchedulerOf, next_of, tickets_of, run_count, to_come};
ghost use Rattle.run_tests.specs.Requests.{AreBuilt, borrowed_files};
ghost use Rattle.run_spec.specs.Faults.{CountsBy, CountsStart, with_fault};
ghost use Rattle.run_tests.specs.UnderWay.{GoesOn, tests_with};

use crate::requests::request_of;
use base::{Graph, Text, TextList};
use outside::{Procs, Records, StartFault};
use run_scheduler::TestScheduler;
use run_spec::{RunFault, note};
use std::alloc::Global;
use testbench_runs::{TestRun, TestRunList};

/// Notes a fault, and nothing more is started.
pub(crate) fn halt(
    scheduler: &mut TestScheduler,
    first_fault: &mut Option<RunFault>,
    fault: RunFault,
)
    ensures first_fault { first_fault.new ≡ Some (with_fault first_fault.old fault) }
    ensures in_step { (workload : Workload) (schedule : SchedulerState) (halts : Bool) →
        IsSchedulerOf scheduler.old workload (halted_if halts schedule) →
        IsSchedulerOf scheduler.new workload (halted_if (is_some first_fault.new) schedule) }
    ensures runs { run_count scheduler.new ≡ run_count scheduler.old }
    ensures tickets { tickets_of scheduler.new ≡ tickets_of scheduler.old }
    ensures nearer { to_come scheduler.new ≤ to_come scheduler.old }
    ensures ends { (at : ℕ) → next_of scheduler.old ≡ Start at → to_come scheduler.new < to_come scheduler.old }
{
    note(first_fault, fault);
    scheduler.stop();
}

/// Starts the simulator of a run.
fn try_start<K: Records, P: Procs>(
    alloc: Global,
    graph: &Graph,
    store: &K,
    built: &Text,
    run: &TestRun,
    simulator: &TextList,
    procs: &mut P,
) -> Result<u64, RunFault>
    requires fits { FitsRun run.now }
    requires built { AreBuilt (K.latest_of store.now) graph.now built.now }
    ensures running { IfOk result (λ ticket.
        P.running procs.new ≡ P.running procs.old ++ ticket ∷ []) }
    ensures runs { OnErr result (P.running procs.new ≡ P.running procs.old) }
    ensures journal { P.tells → IfOk result (λ ticket.
        P.journal procs.new ≡ P.journal procs.old ++ Started ticket
        (bench_request run.now simulator.now (borrowed_files (K.latest_of store.now) graph.now)) ∷ []) }
    ensures fresh { P.tells → IfOk result (IsFresh (P.journal procs.old)) }
    ensures quiet { OnErr result (P.tells → P.journal procs.new ≡ P.journal procs.old) }
    ensures same { P.answer procs.new ≡ P.answer procs.old }
    ensures starts { CountsStart result (P.failed_starts procs.old) (P.failed_starts procs.new) }
    ensures losses { P.lost_children procs.new ≡ P.lost_children procs.old }
{
    let request = request_of(alloc, graph, store, built, run, simulator)?;
    match procs.start(alloc, &request) {
        Ok(ticket) => Ok(ticket),
        Err(StartFault::NoMemory) => Err(RunFault::NoMemory),
        Err(StartFault::Failed) => Err(RunFault::StartFailed),
    }
}

/// Starts the run that the row gives, while no fault is noted. Where that fails, nothing more is started.
pub(crate) fn start_one<K: Records, P: Procs>(
    alloc: Global,
    graph: &Graph,
    store: &K,
    built: &Text,
    runs: &TestRunList,
    simulator: &TextList,
    at: u32,
    scheduler: &mut TestScheduler,
    first_fault: &mut Option<RunFault>,
    procs: &mut P,
)
    requires position { at < length runs.now }
    requires fits { All FitsRun runs.now }
    requires built { AreBuilt (K.latest_of store.now) graph.now built.now }
    requires step { next_of scheduler.old ≡ Start at }
    requires running { P.running procs.old ≡ tickets_of scheduler.old }
    requires unnoted { first_fault.old ≡ None }
    ensures running { P.running procs.new ≡ tickets_of scheduler.new }
    ensures same { P.answer procs.new ≡ P.answer procs.old }
    ensures runs { run_count scheduler.new ≡ run_count scheduler.old }
    ensures nearer { to_come scheduler.new < to_come scheduler.old }
    ensures later { is_some first_fault.new ≡ false → is_some first_fault.old ≡ false }
    ensures goes { (answer : Request → Exit) → P.answer procs.old ≡ answer →
        (slots : ℕ) (fail_fast : Bool) (old : List Event) (found : List RunEnd) →
        (records : Bool) (before now : List Pass) →
        let setting = tests_with runs.now simulator.now
        (borrowed_files (K.latest_of store.now) graph.now) slots fail_fast in
        GoesOn P.tells answer setting old scheduler.old found (is_some first_fault.old)
        (P.journal procs.old) records before now →
        GoesOn P.tells answer setting old scheduler.new found (is_some first_fault.new)
        (P.journal procs.new) records before now }
    ensures counts { (first : BuildFaultCounts) (disks : ℕ) →
        CountsBy first_fault.old false first
        (record { children = child_counts P.Procs procs.old; disks = disks }) →
        CountsBy first_fault.new false first
        (record { children = child_counts P.Procs procs.new; disks = disks }) }
{
    let run = runs.get(at as u64);
    match try_start(alloc, graph, store, built, run, simulator, procs) {
        Ok(ticket) => scheduler.record_start(at, ticket),
        Err(fault) => halt(scheduler, first_fault, fault),
    }
}
