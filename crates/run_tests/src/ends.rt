//! The end of one run.

ghost use Rattle.std.specs.Prelude.{◌≡◌, ◌<◌, ◌++◌, ◌∷◌, [], ℕ, All, Bool, List, None, Some, Err, length, slice_get, take, Contains, IfSome, is_some, false, true};
ghost use Rattle.run_spec.specs.Types.{BuiltFile, Request, Exit, Event};
ghost use Rattle.base.specs.declared.child.Event.TheVariants as event;
ghost use Rattle.outside.specs.Children.{without, ended_ticket, end_event};
ghost use Rattle.outside.specs.Counts.{ChildCounts};
ghost use Rattle.outside.specs.FaultCounts.{BuildFaultCounts, child_counts};
ghost use Rattle.run_spec.specs.declared.step.Step.TheVariants.{Wait};
ghost use Rattle.testbench_runs.specs.declared.ends.RunEnd.{RunEnd};
ghost use Rattle.run_scheduler.specs.Rows.{next_of, tickets_of, run_count, to_come};
ghost use Rattle.run_spec.specs.TestJournal.{TestSetting};
ghost use Rattle.run_spec.specs.Faults.{CountsBy, with_fault};
ghost use Rattle.testbench_runs.specs.declared.ends.TheConstants.{SHOWN_LIMIT};
ghost use Rattle.testbench_runs.specs.Runs.{FitsRun};
ghost use Rattle.passes_spec.specs.Passes.{Pass};
ghost use Rattle.run_tests.specs.Recording.{new_passes};
ghost use Rattle.run_tests.specs.UnderWay.{AreUnderWay, GoesOn, IsPassOver, passes_told, tests_with, told_position};

use crate::PassRecorder;
use crate::recording::record_pass;
use crate::results::{ended_run, has_passed};
use base::Exit;
use outside::{Ended, Procs, WaitFault};
use run_scheduler::TestScheduler;
use run_spec::{RunFault, note};
use std::alloc::Global;
use testbench_runs::{RunEnd, TestRunList};

/// The position of a run that is to be recorded: it passed, and no fault is noted.
fn told_position(passed: bool, first_fault: &Option<RunFault>, at: u32) -> Option<u32>
    ensures { result ≡ told_position passed first_fault.now at }
{
    match first_fault {
        None => {
            if passed {
                return Some(at);
            }
            None
        }
        Some(_fault) => None,
    }
}

/// Takes the exit of a child as the end of its run. If memory fails, nothing more is started. Answers the position of the run if it
/// passed, and there was no fault before.
fn take_exit(
    alloc: Global,
    runs: &TestRunList,
    ticket: u64,
    exit: &Exit,
    scheduler: &mut TestScheduler,
    found: &mut Vec<RunEnd>,
    first_fault: &mut Option<RunFault>,
) -> Option<u32>
    requires runs { Contains (tickets_of scheduler.old) ticket }
    requires step { next_of scheduler.old ≡ Wait }
    requires count { run_count scheduler.old ≡ length runs.now }
    requires found { length found.old.items ≡ length runs.now }
    ensures runs { run_count scheduler.new ≡ run_count scheduler.old }
    ensures tickets { tickets_of scheduler.new ≡ without ticket (tickets_of scheduler.old) }
    ensures nearer { to_come scheduler.new < to_come scheduler.old }
    ensures found { length found.new.items ≡ length found.old.items }
    ensures goes { (simulator : List (List ℕ)) (built : List BuiltFile) (slots : ℕ)
        (fail_fast : Bool) (events : List Event) →
        let setting = tests_with runs.now simulator built slots fail_fast in
        AreUnderWay setting events scheduler.old found.old.items (is_some first_fault.old) →
        AreUnderWay setting (events ++ event.Ended ticket exit.now ∷ []) scheduler.new found.new.items
        (is_some first_fault.new) }
    ensures counts { (first now : BuildFaultCounts) →
        CountsBy first_fault.old false first now → CountsBy first_fault.new false first now }
    ensures position { IfSome result (λ at. at < length runs.now) }
    ensures unnoted { IfSome result (λ _. (first_fault.old ≡ None) × (first_fault.new ≡ None)) }
    ensures later { is_some first_fault.new ≡ false → is_some first_fault.old ≡ false }
    ensures shown { IfSome result (λ at. (end : RunEnd) → slice_get found.new.items at ≡ Some end →
        end.output ≡ take SHOWN_LIMIT exit.now.output) }
    ensures passes { (simulator : List (List ℕ)) (built : List BuiltFile) (slots : ℕ)
        (fail_fast : Bool) (events : List Event) →
        let setting = tests_with runs.now simulator built slots fail_fast in
        AreUnderWay setting events scheduler.old found.old.items (is_some first_fault.old) →
        is_some first_fault.new ≡ false →
        new_passes setting (events ++ event.Ended ticket exit.now ∷ [])
        ≡ new_passes setting events ++ passes_told setting exit.now result }
{
    let at = scheduler.run_of(ticket);
    let run = runs.get(at as u64);
    match ended_run(alloc, run, exit) {
        Ok(end) => {
            let passed = has_passed(&end);
            found[at as usize] = end;
            let _at = scheduler.record_end(ticket, passed);
            told_position(passed, first_fault, at)
        }
        Err(_fault) => {
            scheduler.given_up(ticket);
            note(first_fault, RunFault::NoMemory);
            None
        }
    }
}

/// The end of a child is lost: nothing more is started.
fn lose(
    scheduler: &mut TestScheduler,
    first_fault: &mut Option<RunFault>,
    ticket: u64,
    fault: RunFault,
)
    requires runs { Contains (tickets_of scheduler.old) ticket }
    ensures first_fault { first_fault.new ≡ Some (with_fault first_fault.old fault) }
    ensures runs { run_count scheduler.new ≡ run_count scheduler.old }
    ensures tickets { tickets_of scheduler.new ≡ without ticket (tickets_of scheduler.old) }
    ensures nearer { to_come scheduler.new < to_come scheduler.old }
    ensures goes { (setting : TestSetting) (events : List Event) (found : List RunEnd) →
        AreUnderWay setting events scheduler.old found (is_some first_fault.old) →
        AreUnderWay setting (events ++ event.Gone ticket ∷ []) scheduler.new found (is_some first_fault.new) }
{
    let _at = scheduler.record_loss(ticket);
    note(first_fault, fault);
}

/// A wait gave no exit: its child is lost.
fn lose_by(scheduler: &mut TestScheduler, first_fault: &mut Option<RunFault>, fault: WaitFault)
    requires { Contains (tickets_of scheduler.old) (ended_ticket (Err fault)) }
    ensures faulty { is_some first_fault.new ≡ true }
    ensures runs { run_count scheduler.new ≡ run_count scheduler.old }
    ensures tickets { tickets_of scheduler.new ≡ without (ended_ticket (Err fault))
        (tickets_of scheduler.old) }
    ensures nearer { to_come scheduler.new < to_come scheduler.old }
    ensures goes { (setting : TestSetting) (events : List Event) (found : List RunEnd) →
        AreUnderWay setting events scheduler.old found (is_some first_fault.old) →
        AreUnderWay setting (events ++ end_event (Err fault) ∷ []) scheduler.new found
        (is_some first_fault.new) }
    ensures counts { (first now : BuildFaultCounts) (losses : ℕ) →
        ChildCounts {T = Ended} (Err fault) now.children.losses losses →
        CountsBy first_fault.old false first now →
        CountsBy first_fault.new false first
        (record now { children = record now.children { losses = losses } }) }
{
    match fault {
        WaitFault::NoMemory { ticket } => lose(scheduler, first_fault, ticket, RunFault::NoMemory),
        WaitFault::Lost { ticket } => lose(scheduler, first_fault, ticket, RunFault::ChildLost),
    }
}

/// Waits for the end of a child, and takes it. If its run passed, and there was no fault before, the pass is recorded.
pub(crate) fn end_one<P: Procs, R: PassRecorder>(
    alloc: Global,
    runs: &TestRunList,
    scheduler: &mut TestScheduler,
    found: &mut Vec<RunEnd>,
    first_fault: &mut Option<RunFault>,
    procs: &mut P,
    recorder: &mut R,
)
    requires running { P.running procs.old ≡ tickets_of scheduler.old }
    requires some { 0 < length (tickets_of scheduler.old) }
    requires step { next_of scheduler.old ≡ Wait }
    requires count { run_count scheduler.old ≡ length runs.now }
    requires found { length found.old.items ≡ length runs.now }
    requires fits { All FitsRun runs.now }
    requires usable { is_some first_fault.old ≡ false → R.is_broken recorder.old ≡ false }
    ensures running { P.running procs.new ≡ tickets_of scheduler.new }
    ensures same { P.answer procs.new ≡ P.answer procs.old }
    ensures runs { run_count scheduler.new ≡ run_count scheduler.old }
    ensures nearer { to_come scheduler.new < to_come scheduler.old }
    ensures found { length found.new.items ≡ length found.old.items }
    ensures goes { (answer : Request → Exit) → P.answer procs.old ≡ answer →
        (simulator : List (List ℕ)) (built : List BuiltFile) (slots : ℕ)
        (fail_fast : Bool) (old : List Event) (before : List Pass) →
        (R.records ≡ true → IsPassOver (R.pass_with recorder.old) simulator built) →
        let setting = tests_with runs.now simulator built slots fail_fast in
        GoesOn P.tells answer setting old scheduler.old found.old.items (is_some first_fault.old)
        (P.journal procs.old) R.records before (R.passes recorder.old) →
        GoesOn P.tells answer setting old scheduler.new found.new.items (is_some first_fault.new)
        (P.journal procs.new) R.records before (R.passes recorder.new) }
    ensures over { R.pass_with recorder.new ≡ R.pass_with recorder.old }
    ensures went { R.went recorder.old recorder.new }
    ensures usable { is_some first_fault.new ≡ false → R.is_broken recorder.new ≡ false }
    ensures counts { (first : BuildFaultCounts) →
        CountsBy first_fault.old false first
        (record { children = child_counts P.Procs procs.old; disks = R.failed_calls recorder.old }) →
        CountsBy first_fault.new false first
        (record { children = child_counts P.Procs procs.new; disks = R.failed_calls recorder.new }) }
{
    match procs.wait_any(alloc) {
        Ok(Ended { ticket, exit }) => {
            let passed = take_exit(alloc, runs, ticket, &exit, scheduler, found, first_fault);
            if let Some(at) = passed {
                record_pass(alloc, runs, at, found, scheduler, first_fault, recorder);
            }
        }
        Err(fault) => lose_by(scheduler, first_fault, fault),
    }
}
