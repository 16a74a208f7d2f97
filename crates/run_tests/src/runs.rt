//! Runs of tests: one event a turn, until nothing is left to do and no child runs.

ghost use Rattle.std.specs.Prelude.{◌≡◌, ◌<◌, ◌≤◌, [], ℕ, All, length, map, IfOk, false, true, is_err};
ghost use Rattle.std.specs.Result.{is_ok};
ghost use Rattle.outside.specs.Records.{IsRecorded};
ghost use Rattle.outside.specs.FaultCounts.{child_counts};
ghost use Rattle.run_spec.specs.Moves.{Workload, empty_schedule};
ghost use Rattle.testbench_runs.specs.Runs.{FitsRun};
ghost use Rattle.testbench_runs.specs.Verdicts.{unstarted_run};
ghost use Rattle.run_scheduler.specs.Rows.{IsSchedulerWorkload, IsSchedulerOf, tickets_of, run_count};
ghost use Rattle.run_tests.specs.Requests.{AreBuilt, borrowed_files};
ghost use Rattle.run_tests.specs.Results.{test_ends};
ghost use Rattle.run_spec.specs.Faults.{CountsBy, fault_of};
ghost use Rattle.run_tests.specs.UnderWay.{IsPassOver, tests_with};
ghost use Rattle.run_tests.specs.Recording.{AreRecorded};
ghost use Rattle.run_tests.specs.Ran.{TestsRan};

use crate::PassRecorder;
use crate::ends::end_one;
use crate::requests::built_of;
use crate::results::unstarted_runs;
use crate::starts::start_one;
use base::{CASE_LIMIT, Graph, Items, NoMemory, SLOT_LIMIT, Text, TextList};
use outside::{Procs, Records};
use run_scheduler::TestScheduler;
use run_spec::{RunFault, Step};
use std::alloc::Global;
use testbench_runs::{RunEnd, TestEnd, TestRunList};

/// Runs of tests before their first start.
#[derive(Drop)]
struct Begun {
    scheduler: TestScheduler,
    found: Vec<RunEnd>,
    built: Text,
}

/// The scheduler of runs and their ends before any event, and the bytes of the files that all runs have.
fn begin<K: Records>(
    alloc: Global,
    graph: &Graph,
    store: &K,
    runs: &TestRunList,
    limit: u32,
    fail_fast: bool,
) -> Result<Begun, NoMemory>
    requires limit { (1 ≤ limit) × (limit ≤ SLOT_LIMIT) }
    requires few { length runs.now ≤ CASE_LIMIT }
    requires recorded { (position : ℕ) → position < length graph.now →
        IsRecorded (K.latest_of store.now) graph.now position }
    ensures runs { IfOk result (λ begun. run_count begun.scheduler ≡ length runs.now) }
    ensures tickets { IfOk result (λ begun. tickets_of begun.scheduler ≡ []) }
    ensures in_step { IfOk result (λ begun. (workload : Workload) →
        IsSchedulerWorkload workload (length runs.now) limit fail_fast → IsSchedulerOf begun.scheduler workload empty_schedule) }
    ensures found { IfOk result (λ begun. begun.found.items ≡ map unstarted_run runs.now) }
    ensures built { IfOk result
        (λ begun. AreBuilt (K.latest_of store.now) graph.now begun.built) }
{
    let count = runs.len() as u32;
    let scheduler = TestScheduler::new(alloc, count, limit, fail_fast)?;
    let found = unstarted_runs(alloc, runs)?;
    let built = built_of(alloc, graph, store)?;
    Ok(Begun {
        scheduler,
        found,
        built,
    })
}

/// Runs tests in order, each as one child of the simulator, and gives the end of each run. The requests have the artefacts that the
/// store has of all files of the graph; their bytes are put together once for all runs. At most `limit` children run at once,
/// from 1 to 64. There are at most 65,536 runs.
///
/// Each run that passed is recorded as its child ends, before the next start.
///
/// With `fail_fast` nothing more is started after the first run with a case that has not passed. After a fault nothing more is
/// started and nothing more is recorded, and the children that still run are waited for. The first fault is returned, but out of
/// memory takes the place of any other fault. `DiskFailed` is that of a record. No child runs in the end.
pub fn run_tests<K: Records, P: Procs, R: PassRecorder>(
    alloc: Global,
    graph: &Graph,
    store: &K,
    runs: &TestRunList,
    simulator: &TextList,
    procs: &mut P,
    limit: u32,
    fail_fast: bool,
    recorder: &mut R,
) -> Result<TestEnd, RunFault>
    requires limit { (1 ≤ limit) × (limit ≤ SLOT_LIMIT) }
    requires idle { P.running procs.old ≡ [] }
    requires few { length runs.now ≤ CASE_LIMIT }
    requires fits { All FitsRun runs.now }
    requires recorded { (position : ℕ) → position < length graph.now →
        IsRecorded (K.latest_of store.now) graph.now position }
    requires usable { R.is_broken recorder.old ≡ false }
    requires over { R.records ≡ true →
        IsPassOver (R.pass_with recorder.old) simulator.now
        (borrowed_files (K.latest_of store.now) graph.now) }
    ensures running { P.running procs.new ≡ [] }
    ensures same { P.answer procs.new ≡ P.answer procs.old }
    ensures ran { let setting = tests_with runs.now simulator.now
        (borrowed_files (K.latest_of store.now) graph.now) limit fail_fast in
        TestsRan P.tells (P.answer procs.old) setting (P.journal procs.old) (P.journal procs.new) (is_ok result)
        (λ events. IfOk result (λ end. end.runs ≡ test_ends setting events))
        (λ events. R.records ≡ true →
        AreRecorded setting events (is_err result) (R.passes recorder.old) (R.passes recorder.new)) }
    ensures over { R.pass_with recorder.new ≡ R.pass_with recorder.old }
    ensures went { R.went recorder.old recorder.new }
    ensures counts { CountsBy (fault_of result) false
        (record { children = child_counts P.Procs procs.old; disks = R.failed_calls recorder.old })
        (record { children = child_counts P.Procs procs.new; disks = R.failed_calls recorder.new }) }
{
    let Ok(
        Begun {
            mut scheduler,
            mut found,
            built,
        },
    ) = begin(alloc, graph, store, runs, limit, fail_fast)
    else {
        return Err(RunFault::NoMemory);
    };
    procs.announce_starts(runs.len() as u64);
    let mut first_fault = None;
    loop {
        match scheduler.next() {
            Step::Start(at) => start_one(
                alloc,
                graph,
                store,
                &built,
                runs,
                simulator,
                at,
                &mut scheduler,
                &mut first_fault,
                procs,
            ),
            Step::Wait => end_one(
                alloc,
                runs,
                &mut scheduler,
                &mut found,
                &mut first_fault,
                procs,
                recorder,
            ),
            Step::Finished => break,
        }
    }
    match first_fault {
        None => Ok(TestEnd {
            runs: Items::from_vec(found),
        }),
        Some(fault) => Err(fault),
    }
}
