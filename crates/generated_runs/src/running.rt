//! The whole: the generated project is read and built, edited, read again, built again and tested.

ghost use Rattle.std.specs.Prelude.{◌≡◌, ◌≤◌, ◌++◌, [], ℕ, List, All, length, count_by, IfOk};
ghost use Rattle.std.specs.List.{list_all};
ghost use Rattle.outside.specs.Records.{Record};
ghost use Rattle.outside.specs.FaultCounts.{NoBuildCountFell, child_counts};
ghost use Rattle.memory_outside.specs.Disks.{moments_of};
ghost use Rattle.run_spec.specs.ChildJournal.{since};
ghost use Rattle.run_spec.specs.Faults.{Explains, fault_of};
ghost use Rattle.vhdl_spec.specs.Scans.{Finding, IsScanner};
ghost use Rattle.testbench_runs.specs.Runs.{FitsRun};
ghost use Rattle.project_reading.specs.Reading.{Found};
ghost use Rattle.project_reading.specs.Sources.{IsReadProject};
ghost use Rattle.project_reading.specs.declared.query.QueryKind.TheVariants.{Tests};
ghost use Rattle.generated_runs.specs.Sources.{first_reading, second_reading, runs_in, query_for};
ghost use Rattle.generated_runs.specs.Said.{IsAnswer};
ghost use Rattle.generated_runs.specs.Ran.{RanEdited, RanGenerated, records_on};

use crate::building::build_first;
use crate::options::{GenerateOptions, GeneratedSaid};
use crate::saying::{are_made, compiled_count, statuses_said, stop_said, tested_said};
use crate::second_build::{all_runs, test_second};
use crate::sources::read_generated;
use base::{CASE_LIMIT, Numbers, SLOT_LIMIT};
use generated_project::edited_package;
use memory_outside::MemDisk;
use outside::Procs;
use project_reading::{QueryKind, ReadProject};
use run_spec::RunFault;
use std::alloc::Global;
use testbench_runs::TestRunList;

/// The number of no package: nothing is edited.
const UNEDITED: u64 = 0;

/// Builds the edited project, runs these tests of it, and gives the answer and the text.
fn test_planned<P: Procs>(
    alloc: Global,
    read: &ReadProject,
    runs: &TestRunList,
    options: GenerateOptions,
    first: u64,
    disk: &mut MemDisk,
    procs: &mut P,
) -> Result<GeneratedSaid, RunFault>
    requires slots { (1 ≤ options.slots) × (options.slots ≤ SLOT_LIMIT) }
    requires idle { P.running procs.old ≡ [] }
    requires runs { runs.now ≡ runs_in read.now }
    requires few { length runs.now ≤ CASE_LIMIT }
    requires fits { All FitsRun runs.now }
    ensures running { P.running procs.new ≡ [] }
    ensures same { P.answer procs.new ≡ P.answer procs.old }
    ensures follows { P.tells →
        (P.journal procs.new
        ≡ P.journal procs.old ++ since (P.journal procs.old) (P.journal procs.new)) }
    ensures ran { (records : List Record) → records_on (moments_of disk.old.log).now ≡ records →
        P.tells →
        RanEdited (P.answer procs.old) options (Found read.now) records first result
        (since (P.journal procs.old) (P.journal procs.new)) }
    ensures plain { IfOk result (λ said. IsAnswer said.outcome) }
    ensures fell { (disks : ℕ) → NoBuildCountFell
        (record { children = child_counts P.Procs procs.old; disks = disks })
        (record { children = child_counts P.Procs procs.new; disks = disks }) }
    ensures explains { (disks : ℕ) → Explains (fault_of result)
        (record { children = child_counts P.Procs procs.old; disks = disks })
        (record { children = child_counts P.Procs procs.new; disks = disks }) }
{
    match test_second(alloc, read, runs, options, disk, procs) {
        Ok(tested) => match tested_said(alloc, options, first, read, &tested) {
            Ok(said) => Ok(said),
            Err(_) => Err(RunFault::NoMemory),
        },
        Err(fault) => Err(fault),
    }
}

/// Builds the edited project that was read and runs all of its tests.
fn test_read<P: Procs>(
    alloc: Global,
    read: &ReadProject,
    options: GenerateOptions,
    first: u64,
    disk: &mut MemDisk,
    procs: &mut P,
) -> Result<GeneratedSaid, RunFault>
    requires slots { (1 ≤ options.slots) × (options.slots ≤ SLOT_LIMIT) }
    requires idle { P.running procs.old ≡ [] }
    requires read { IsReadProject (query_for Tests) read.now }
    ensures running { P.running procs.new ≡ [] }
    ensures same { P.answer procs.new ≡ P.answer procs.old }
    ensures follows { P.tells →
        (P.journal procs.new
        ≡ P.journal procs.old ++ since (P.journal procs.old) (P.journal procs.new)) }
    ensures ran { (records : List Record) → records_on (moments_of disk.old.log).now ≡ records →
        P.tells →
        RanEdited (P.answer procs.old) options (Found read.now) records first result
        (since (P.journal procs.old) (P.journal procs.new)) }
    ensures plain { IfOk result (λ said. IsAnswer said.outcome) }
    ensures fell { (disks : ℕ) → NoBuildCountFell
        (record { children = child_counts P.Procs procs.old; disks = disks })
        (record { children = child_counts P.Procs procs.new; disks = disks }) }
    ensures explains { (disks : ℕ) → Explains (fault_of result)
        (record { children = child_counts P.Procs procs.old; disks = disks })
        (record { children = child_counts P.Procs procs.new; disks = disks }) }
{
    match all_runs(alloc, read) {
        Ok(runs) => test_planned(alloc, read, &runs, options, first, disk, procs),
        Err(_) => Err(RunFault::NoMemory),
    }
}

/// Edits the project, builds it again over the records of a disk, and runs all of its tests.
fn run_edited<P: Procs>(
    alloc: Global,
    options: GenerateOptions,
    first: u64,
    disk: &mut MemDisk,
    procs: &mut P,
) -> Result<GeneratedSaid, RunFault>
    requires slots { (1 ≤ options.slots) × (options.slots ≤ SLOT_LIMIT) }
    requires idle { P.running procs.old ≡ [] }
    ensures running { P.running procs.new ≡ [] }
    ensures same { P.answer procs.new ≡ P.answer procs.old }
    ensures follows { P.tells →
        (P.journal procs.new
        ≡ P.journal procs.old ++ since (P.journal procs.old) (P.journal procs.new)) }
    ensures ran { (scan : List ℕ → Finding) → IsScanner scan → (records : List Record) →
        records_on (moments_of disk.old.log).now ≡ records → P.tells →
        RanEdited (P.answer procs.old) options (second_reading scan options) records first result
        (since (P.journal procs.old) (P.journal procs.new)) }
    ensures plain { IfOk result (λ said. IsAnswer said.outcome) }
    ensures fell { (disks : ℕ) → NoBuildCountFell
        (record { children = child_counts P.Procs procs.old; disks = disks })
        (record { children = child_counts P.Procs procs.new; disks = disks }) }
    ensures explains { (disks : ℕ) → Explains (fault_of result)
        (record { children = child_counts P.Procs procs.old; disks = disks })
        (record { children = child_counts P.Procs procs.new; disks = disks }) }
{
    let edited = edited_package(options.packages);
    match read_generated(alloc, options.packages, edited, QueryKind::Tests) {
        Ok(read) => test_read(alloc, &read, options, first, disk, procs),
        Err(stop) => match stop_said(alloc, stop) {
            Ok(said) => Ok(said),
            Err(_) => Err(RunFault::NoMemory),
        },
    }
}

/// Builds the project that was read over a disk in memory, and continues with the edit if all files are made.
fn run_read<P: Procs>(
    alloc: Global,
    read: &ReadProject,
    options: GenerateOptions,
    disk: &mut MemDisk,
    procs: &mut P,
) -> Result<GeneratedSaid, RunFault>
    requires slots { (1 ≤ options.slots) × (options.slots ≤ SLOT_LIMIT) }
    requires idle { P.running procs.old ≡ [] }
    ensures running { P.running procs.new ≡ [] }
    ensures same { P.answer procs.new ≡ P.answer procs.old }
    ensures follows { P.tells →
        (P.journal procs.new
        ≡ P.journal procs.old ++ since (P.journal procs.old) (P.journal procs.new)) }
    ensures ran { (scan : List ℕ → Finding) → IsScanner scan → P.tells →
        RanGenerated (P.answer procs.old) options (Found read.now) (second_reading scan options)
        result (since (P.journal procs.old) (P.journal procs.new)) }
    ensures plain { IfOk result (λ said. IsAnswer said.outcome) }
    ensures fell { (disks : ℕ) → NoBuildCountFell
        (record { children = child_counts P.Procs procs.old; disks = disks })
        (record { children = child_counts P.Procs procs.new; disks = disks }) }
    ensures explains { (disks : ℕ) → Explains (fault_of result)
        (record { children = child_counts P.Procs procs.old; disks = disks })
        (record { children = child_counts P.Procs procs.new; disks = disks }) }
{
    match build_first(alloc, &read.graph, options, disk, procs) {
        Ok(statuses) => {
            if are_made(statuses.as_slice()) {
                let first = compiled_count(statuses.as_slice());
                return run_edited(alloc, options, first, disk, procs);
            }
            match statuses_said(alloc, read, &statuses) {
                Ok(said) => Ok(said),
                Err(_) => Err(RunFault::NoMemory),
            }
        }
        Err(fault) => Err(fault),
    }
}

/// Builds a generated project with a bench over an empty disk, and edits one package. If all files were made, builds the
/// project again over the records of the first build, and if all files are made again, runs all of its tests.
///
/// The result is an answer and a text. If a build has a refused file, they are those of this build. If the sources cannot be
/// built, they are those of the refusal or the limit. Otherwise the answer is that of the tests. The text then says how many
/// files there are, how many of them each build compiled, and how many of all cases have passed.
///
/// The tree and the disk are in memory; the caller gives the children. After a fault nothing more is started. The first fault
/// is answered, and out of memory if memory has run out. No child runs at the return.
pub fn run_generated<P: Procs>(
    alloc: Global,
    options: GenerateOptions,
    procs: &mut P,
) -> Result<GeneratedSaid, RunFault>
    requires slots { (1 ≤ options.slots) × (options.slots ≤ SLOT_LIMIT) }
    requires idle { P.running procs.old ≡ [] }
    ensures running { P.running procs.new ≡ [] }
    ensures same { P.answer procs.new ≡ P.answer procs.old }
    ensures follows { P.tells →
        (P.journal procs.new
        ≡ P.journal procs.old ++ since (P.journal procs.old) (P.journal procs.new)) }
    ensures ran { (scan : List ℕ → Finding) → IsScanner scan → P.tells →
        RanGenerated (P.answer procs.old) options (first_reading scan options)
        (second_reading scan options) result
        (since (P.journal procs.old) (P.journal procs.new)) }
    ensures plain { IfOk result (λ said. IsAnswer said.outcome) }
    ensures fell { (disks : ℕ) → NoBuildCountFell
        (record { children = child_counts P.Procs procs.old; disks = disks })
        (record { children = child_counts P.Procs procs.new; disks = disks }) }
    ensures explains { (disks : ℕ) → Explains (fault_of result)
        (record { children = child_counts P.Procs procs.old; disks = disks })
        (record { children = child_counts P.Procs procs.new; disks = disks }) }
{
    match read_generated(alloc, options.packages, UNEDITED, QueryKind::Graph) {
        Ok(read) => {
            let mut disk = MemDisk::new(alloc, Numbers::new(alloc));
            run_read(alloc, &read, options, &mut disk, procs)
        }
        Err(stop) => match stop_said(alloc, stop) {
            Ok(said) => Ok(said),
            Err(_) => Err(RunFault::NoMemory),
        },
    }
}
