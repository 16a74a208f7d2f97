//! Recording the pass of a run that ended.

ghost use Rattle.std.specs.Prelude.{◌≡◌, ◌<◌, ◌≤◌, ◌++◌, ◌∷◌, [], ℕ, List, None, Some, All, false, true, is_some, length, slice_get};
ghost use Rattle.outside.specs.FaultCounts.{BuildFaultCounts};
ghost use Rattle.run_spec.specs.Faults.{CountsBy};
ghost use Rattle.run_spec.specs.Moves.{SchedulerState, Workload};
ghost use Rattle.run_spec.specs.Steps.{halted_if};
ghost use Rattle.run_scheduler.specs.Rows.{IsSchedulerOf, run_count, tickets_of, to_come};
ghost use Rattle.run_tests.specs.Recording.{record_fault};
ghost use Rattle.testbench_runs.specs.Runs.{FitsRun};
ghost use Rattle.testbench_runs.specs.declared.ends.RunEnd.{RunEnd};
ghost use Rattle.testbench_runs.specs.declared.ends.TheConstants.{SHOWN_LIMIT};
ghost use Rattle.testbench_runs.specs.declared.runs.TestRun.{TestRun};

use crate::PassRecorder;
use crate::starts::halt;
use outside::StoreFault;
use run_scheduler::TestScheduler;
use run_spec::RunFault;
use std::alloc::Global;
use testbench_runs::{RunEnd, TestRunList};

/// The fault of runs of tests by that of a record.
fn record_fault(fault: StoreFault) -> RunFault
    ensures { result ≡ record_fault fault }
{
    match fault {
        StoreFault::NoMemory => RunFault::NoMemory,
        StoreFault::DiskFailed => RunFault::DiskFailed,
    }
}

/// Records the pass of the run at a position, by its end. Where that fails, nothing more is started.
pub(crate) fn record_pass<R: PassRecorder>(
    alloc: Global,
    runs: &TestRunList,
    at: u32,
    found: &Vec<RunEnd>,
    scheduler: &mut TestScheduler,
    first_fault: &mut Option<RunFault>,
    recorder: &mut R,
)
    requires position { at < length runs.now }
    requires count { length found.now.items ≡ length runs.now }
    requires fits { All FitsRun runs.now }
    requires shown { (end : RunEnd) → slice_get found.now.items at ≡ Some end →
        length end.output ≤ SHOWN_LIMIT }
    requires unnoted { first_fault.old ≡ None }
    requires usable { R.is_broken recorder.old ≡ false }
    ensures runs { run_count scheduler.new ≡ run_count scheduler.old }
    ensures tickets { tickets_of scheduler.new ≡ tickets_of scheduler.old }
    ensures nearer { to_come scheduler.new ≤ to_come scheduler.old }
    ensures in_step { (workload : Workload) (schedule : SchedulerState) →
        IsSchedulerOf scheduler.old workload (halted_if false schedule) →
        IsSchedulerOf scheduler.new workload (halted_if (is_some first_fault.new) schedule) }
    ensures recorded { R.records ≡ true → is_some first_fault.new ≡ false →
        (run : TestRun) (end : RunEnd) → slice_get runs.now at ≡ Some run →
        slice_get found.now.items at ≡ Some end →
        R.passes recorder.new
        ≡ R.passes recorder.old ++ R.pass_with recorder.old run end.output ∷ [] }
    ensures kept { R.records ≡ true → is_some first_fault.new ≡ true →
        R.passes recorder.new ≡ R.passes recorder.old }
    ensures over { R.pass_with recorder.new ≡ R.pass_with recorder.old }
    ensures went { R.went recorder.old recorder.new }
    ensures usable { is_some first_fault.new ≡ false → R.is_broken recorder.new ≡ false }
    ensures counts { (first now : BuildFaultCounts) →
        CountsBy None false first (record now { disks = R.failed_calls recorder.old }) →
        CountsBy first_fault.new false first (record now { disks = R.failed_calls recorder.new }) }
{
    let run = runs.get(at as u64);
    let end = &found[at as usize];
    match recorder.record(alloc, run, end.output.bytes()) {
        Ok(()) => {}
        Err(fault) => halt(scheduler, first_fault, record_fault(fault)),
    }
}
