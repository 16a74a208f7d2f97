//! Which runs are announced before anything is started: those whose folder may have too long a name.

ghost use Rattle.std.specs.Prelude.{◌≡◌};

use child_test_request::results_path;
use outside::Procs;
use std::alloc::Global;
use testbench_runs::{TestRun, TestRunList};

/// The bytes that the name of a folder has at most on the usual file systems.
const FOLDER_LIMIT: usize = 255;

/// The bytes of the first case of a run; 0 where it names none.
fn case_length(run: &TestRun) -> usize {
    match run.cases.as_slice().first() {
        Some(case) => case.bytes().len(),
        None => 0,
    }
}

/// Whether the name of the folder of a run may be too long. It has two dots, and at most three bytes for each other byte of
/// the names of its library, its bench and its case.
fn may_be_long(run: &TestRun) -> bool {
    let names = run
        .library
        .bytes()
        .len()
        .saturating_add(run.bench.bytes().len())
        .saturating_add(case_length(run));
    names.saturating_mul(3).saturating_add(2) > FOLDER_LIMIT
}

/// Announces the path of the results of a run. If memory for the path fails, nothing is announced.
fn announce_run<P: Procs>(alloc: Global, run: &TestRun, procs: &mut P)
    ensures running { P.running procs.new ≡ P.running procs.old }
    ensures journal { P.journal procs.new ≡ P.journal procs.old }
    ensures same { P.answer procs.new ≡ P.answer procs.old }
    ensures starts { P.failed_starts procs.new ≡ P.failed_starts procs.old }
    ensures children { P.lost_children procs.new ≡ P.lost_children procs.old }
{
    if let Ok(path) = results_path(alloc, run) {
        procs.announce_results(alloc, path.bytes());
    }
}

/// Announces the paths of the results of all runs whose folder may have too long a name, in order. Nothing is started.
pub fn announce_long_runs<P: Procs>(alloc: Global, runs: &TestRunList, procs: &mut P)
    ensures running { P.running procs.new ≡ P.running procs.old }
    ensures journal { P.journal procs.new ≡ P.journal procs.old }
    ensures same { P.answer procs.new ≡ P.answer procs.old }
    ensures starts { P.failed_starts procs.new ≡ P.failed_starts procs.old }
    ensures children { P.lost_children procs.new ≡ P.lost_children procs.old }
{
    for run in runs.as_slice() {
        if may_be_long(run) {
            announce_run(alloc, run, procs);
        }
    }
}
