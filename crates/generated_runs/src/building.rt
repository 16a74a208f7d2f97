//! The first build of the generated project, over an empty disk.

ghost use Rattle.std.specs.Prelude.{◌≡◌, ◌≤◌, ◌++◌, [], ℕ, Some, length, IfOk};
ghost use Rattle.outside.specs.FaultCounts.{BuildFaultCounts, NoBuildCountFell, child_counts};
ghost use Rattle.memory_outside.specs.Disks.{moments_of};
ghost use Rattle.run_spec.specs.ChildJournal.{since};
ghost use Rattle.run_spec.specs.Faults.{Explains, fault_of};
ghost use Rattle.run_spec.specs.declared.fault.RunFault.TheVariants as fault;
ghost use Rattle.generated_runs.specs.Sources.{first_work};
ghost use Rattle.generated_runs.specs.Ran.{RanFirst};

use crate::options::GenerateOptions;
use base::{Graph, SLOT_LIMIT};
use memory_outside::MemDisk;
use outside::Procs;
use run_build::{BuildOptions, build_over};
use run_spec::{FileStatusList, RunFault};
use std::alloc::Global;
use store::RequestStore;

/// The fault of a build over a disk in memory. Such a disk fails only if memory runs out, so its fault becomes out of memory.
pub fn own_fault(fault: RunFault) -> RunFault
    ensures same { (first now : BuildFaultCounts) (disks : ℕ) → Explains (Some fault) first now →
        Explains (Some result)
        (record first { disks = disks })
        (record now { disks = disks }) }
{
    match fault {
        RunFault::NoMemory => RunFault::NoMemory,
        RunFault::StartFailed => RunFault::StartFailed,
        RunFault::ChildLost => RunFault::ChildLost,
        RunFault::DiskFailed => RunFault::NoMemory,
    }
}

/// Builds a graph over a disk in memory. Records on the disk do not count.
pub fn build_first<P: Procs>(
    alloc: Global,
    graph: &Graph,
    options: GenerateOptions,
    disk: &mut MemDisk,
    procs: &mut P,
) -> Result<FileStatusList, RunFault>
    requires slots { (1 ≤ options.slots) × (options.slots ≤ SLOT_LIMIT) }
    requires idle { P.running procs.old ≡ [] }
    ensures running { P.running procs.new ≡ [] }
    ensures same { P.answer procs.new ≡ P.answer procs.old }
    ensures count { IfOk result (λ statuses. length statuses ≡ length graph.now) }
    ensures follows { P.tells →
        (P.journal procs.new
        ≡ P.journal procs.old ++ since (P.journal procs.old) (P.journal procs.new)) }
    ensures ran { P.tells →
        RanFirst (P.answer procs.old) (first_work options graph.now) result
        (moments_of disk.new.log).now (since (P.journal procs.old) (P.journal procs.new)) }
    ensures fell { (disks : ℕ) → NoBuildCountFell
        (record { children = child_counts P.Procs procs.old; disks = disks })
        (record { children = child_counts P.Procs procs.new; disks = disks }) }
    ensures explains { (disks : ℕ) → Explains (fault_of result)
        (record { children = child_counts P.Procs procs.old; disks = disks })
        (record { children = child_counts P.Procs procs.new; disks = disks }) }
{
    let orders = BuildOptions {
        slots: options.slots,
        keep_going: false,
        clean: true,
    };
    match build_over::<RequestStore<'_>, MemDisk, P>(alloc, graph, orders, disk, procs) {
        Ok(statuses) => Ok(statuses),
        Err(fault) => Err(own_fault(fault)),
    }
}
