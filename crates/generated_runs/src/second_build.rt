//! The second build of the generated project, over the records of the first, and its tests.

ghost use Rattle.std.specs.Prelude.{◌≡◌, ◌≤◌, ◌++◌, [], ℕ, List, All, length, IfOk};
ghost use Rattle.outside.specs.Records.{Record};
ghost use Rattle.outside.specs.FaultCounts.{NoBuildCountFell, child_counts};
ghost use Rattle.memory_outside.specs.Disks.{moments_of};
ghost use Rattle.run_spec.specs.ChildJournal.{since};
ghost use Rattle.run_spec.specs.Faults.{Explains, fault_of};
ghost use Rattle.testbench_runs.specs.Runs.{FitsRun};
ghost use Rattle.project_reading.specs.Sources.{IsReadProject};
ghost use Rattle.generated_runs.specs.Sources.{runs_in, second_work, query_for};
ghost use Rattle.project_reading.specs.declared.query.QueryKind.TheVariants.{Tests};
ghost use Rattle.generated_runs.specs.Ran.{RanTested, records_on};

use crate::building::own_fault;
use crate::options::GenerateOptions;
use crate::sources::query_for;
use base::{CASE_LIMIT, NoMemory, SLOT_LIMIT};
use memory_outside::MemDisk;
use outside::Procs;
use project_reading::{QueryKind, ReadProject, planned_runs};
use run_build::BuildOptions;
use run_spec::RunFault;
use run_tests::{Tested, test_over};
use std::alloc::Global;
use store::RequestStore;
use testbench_runs::TestRunList;

/// The runs of all tests of a project.
pub fn all_runs(alloc: Global, read: &ReadProject) -> Result<TestRunList, NoMemory>
    requires { IsReadProject (query_for Tests) read.now }
    ensures runs { IfOk result (λ runs. runs ≡ runs_in read.now) }
    ensures few { IfOk result (λ runs. length runs ≤ CASE_LIMIT) }
    ensures fits { IfOk result (λ runs. All FitsRun runs) }
{
    let query = query_for(alloc, QueryKind::Tests)?;
    planned_runs(alloc, &query, read)
}

/// Builds a project over the records of a disk in memory, and then runs all of its tests.
pub fn test_second<P: Procs>(
    alloc: Global,
    read: &ReadProject,
    runs: &TestRunList,
    options: GenerateOptions,
    disk: &mut MemDisk,
    procs: &mut P,
) -> Result<Tested, RunFault>
    requires slots { (1 ≤ options.slots) × (options.slots ≤ SLOT_LIMIT) }
    requires idle { P.running procs.old ≡ [] }
    requires runs { runs.now ≡ runs_in read.now }
    requires few { length runs.now ≤ CASE_LIMIT }
    requires fits { All FitsRun runs.now }
    ensures running { P.running procs.new ≡ [] }
    ensures same { P.answer procs.new ≡ P.answer procs.old }
    ensures count { IfOk result (λ tested. length tested.statuses ≡ length read.now.graph) }
    ensures follows { P.tells →
        (P.journal procs.new
        ≡ P.journal procs.old ++ since (P.journal procs.old) (P.journal procs.new)) }
    ensures ran { (records : List Record) → records_on (moments_of disk.old.log).now ≡ records →
        P.tells →
        RanTested (P.answer procs.old) (second_work options records read.now.graph) options
        read.now result (since (P.journal procs.old) (P.journal procs.new)) }
    ensures fell { (disks : ℕ) → NoBuildCountFell
        (record { children = child_counts P.Procs procs.old; disks = disks })
        (record { children = child_counts P.Procs procs.new; disks = disks }) }
    ensures explains { (disks : ℕ) → Explains (fault_of result)
        (record { children = child_counts P.Procs procs.old; disks = disks })
        (record { children = child_counts P.Procs procs.new; disks = disks }) }
{
    let orders = BuildOptions {
        slots: options.slots,
        keep_going: false,
        clean: false,
    };
    match test_over::<RequestStore<'_>, MemDisk, P>(
        alloc,
        &read.graph,
        orders,
        runs,
        &read.project.simulator,
        false,
        disk,
        procs,
    ) {
        Ok(tested) => Ok(tested),
        Err(fault) => Err(own_fault(fault)),
    }
}
