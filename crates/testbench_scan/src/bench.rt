//! The bench of an entity, or the fault in its architectures.

ghost use Rattle.std.specs.Prelude.{◌≡◌, List, IfOk};
ghost use Rattle.base_outcomes.specs.declared.bench.TestFault.TheVariants.{NoArchitecture, TwoArchitectures};
ghost use Rattle.base.specs.declared.design.Scan.{Scan};
ghost use Rattle.testbench_scan.specs.Benches.{bench_at, bench_name, bench_of, unit_numbers};
ghost use Rattle.testbench_scan.specs.Files.{AreFiles, AreScannedAs, IsInFiles, IsNamed, scanned};
ghost use Rattle.testbench_scan.specs.Architectures.{AreFoundInFiles, HoldsArchitectures, IsArchitecture};
ghost use Rattle.testbench_scan.specs.Results.{GivesBench};

use crate::architectures::{Index, architectures_of};
use crate::called::{called_cases, cases_or};
use crate::files::{Files, Found, find};
use base::{NoMemory, OrMemory, Text, UnitId};
use base_outcomes::{Bench, CaseList, TestFault};
use std::alloc::Global;
use vhdl_units::unit_key;

/// A bench as faults name it: its library and its name, with a dot between them.
pub fn bench_name(alloc: Global, library: &Text, name: &Text) -> Result<Text, NoMemory>
    ensures { IfOk result (λ spelled. spelled ≡ bench_name library.now name.now) }
{
    let library = library.bytes();
    let name = name.bytes();
    let mut spelled = Vec::from_slice(alloc, library)?;
    spelled.push(b'.')?;
    spelled.extend_from_slice(name)?;
    Ok(Text::from_vec(spelled))
}

/// The bench of an entity with its architecture.
fn bench_of(
    alloc: Global,
    files: Files,
    entity: UnitId,
    architecture: UnitId,
) -> Result<Bench, NoMemory>
    requires files { AreFiles files }
    requires entity { IsInFiles files entity }
    requires named { IsNamed files entity }
    requires architecture { IsInFiles files architecture }
    ensures { IfOk result (λ bench. (scans : List Scan) → AreScannedAs files.entry scans →
        IsArchitecture (scanned files.entry scans) architecture →
        bench ≡ bench_of (scanned files.entry scans) entity architecture) }
{
    let of = find(files, entity);
    let by = find(files, architecture);
    let called = called_cases(
        alloc,
        architecture.file,
        by.text,
        by.runs.strings.as_slice(),
    )?;
    let whole = called.is_empty();
    Ok(Bench {
        library: of.library.copy(alloc)?,
        name: of.unit.name.copy(alloc)?,
        architecture: by.unit.name.copy(alloc)?,
        file: entity.file,
        cases: cases_or(alloc, entity.file, of.text, of.runs, called)?,
        whole,
        same_sim: by.same_sim,
    })
}

fn no_architecture(alloc: Global, found: Found) -> Result<TestFault, NoMemory>
    ensures { IfOk result (λ fault. fault ≡
        NoArchitecture (bench_name found.entry.library.now found.entry.unit.now.name)) }
{
    Ok(TestFault::NoArchitecture {
        bench: bench_name(alloc, found.library, &found.unit.name)?,
    })
}

fn two_architectures(alloc: Global, found: Found) -> Result<TestFault, NoMemory>
    ensures { IfOk result (λ fault. fault ≡
        TwoArchitectures (bench_name found.entry.library.now found.entry.unit.now.name)) }
{
    Ok(TestFault::TwoArchitectures {
        bench: bench_name(alloc, found.library, &found.unit.name)?,
    })
}

/// The bench of an entity, where it has one architecture.
pub fn bench_at(
    alloc: Global,
    files: Files,
    index: &Index,
    entity: UnitId,
) -> Result<Bench, OrMemory<TestFault>>
    requires files { AreFiles files }
    requires entity { IsInFiles files entity }
    requires named { IsNamed files entity }
    requires within { AreFoundInFiles files index.now }
    ensures { (scans : List Scan) → AreScannedAs files.entry scans →
        HoldsArchitectures (scanned files.entry scans) (unit_numbers scans) index.now →
        GivesBench (bench_at (scanned files.entry scans) entity) result }
{
    let found = find(files, entity);
    let key = unit_key(alloc, found.library.bytes(), found.unit.name.bytes())?;
    let Some(architectures) = architectures_of(index, &key) else {
        return Err(OrMemory::Fault(no_architecture(alloc, found)?));
    };
    if architectures.several {
        return Err(OrMemory::Fault(two_architectures(alloc, found)?));
    }
    Ok(bench_of(alloc, files, entity, architectures.first)?)
}
