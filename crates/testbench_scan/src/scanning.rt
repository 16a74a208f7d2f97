//! The tests of a project.

ghost use Rattle.std.specs.Prelude.{◌≡◌, ◌≤◌, ℕ, List, All, IfOk, length, map};
ghost use Rattle.base.specs.declared.design.Scan.{Scan};
ghost use Rattle.vhdl_outline.specs.Outlines.{AreOutlinesOf, FilesLieIn};
ghost use Rattle.vhdl_outline.specs.Roles.{IsTextSmall};
ghost use Rattle.testbench_scan.specs.Benches.{GivesTests, bench_at, sources_of, tests_found, tests_of, unit_numbers};
ghost use Rattle.testbench_scan.specs.Files.{AreFiles, AreInFiles, AreNamed, AreScannedAs, IsInFiles, IsNamed, scanned};
ghost use Rattle.testbench_scan.specs.Architectures.{AreFoundInFiles, HoldsArchitectures};
ghost use Rattle.testbench_scan.specs.Results.{GivesFound};
ghost use Rattle.testbench_scan.specs.Paths.{HoldsFullNames};

use crate::architectures::{Index, index_of};
use crate::bench::bench_at;
use crate::files::Files;
use crate::names::{Names, no_names, take_names};
use crate::numbers::{bench_numbers, unit_numbers};
use base::{FILE_LIMIT, OrMemory, Project, TextList, UnitId};
use base_outcomes::{TestFault, Tests};
use std::alloc::Global;
use vhdl_outline::Outlines;

/// Adds the bench of an entity and its full names.
fn push_bench(
    alloc: Global,
    files: Files,
    index: &Index,
    entity: UnitId,
    names: &mut Names,
    tests: &mut Tests,
) -> Result<(), OrMemory<TestFault>>
    requires files { AreFiles files }
    requires entity { IsInFiles files entity }
    requires named { IsNamed files entity }
    requires within { AreFoundInFiles files index.now }
    ensures { (scans : List Scan) (before : List (List ℕ)) → AreScannedAs files.entry scans →
        HoldsArchitectures (scanned files.entry scans) (unit_numbers scans) index.now →
        HoldsFullNames names.old before →
        GivesFound before (bench_at (scanned files.entry scans) entity)
        names.new tests.old tests.new result }
{
    let bench = bench_at(alloc, files, index, entity)?;
    take_names(alloc, &bench, names)?;
    tests.push(bench)?;
    Ok(())
}

/// The benches of entities, in order, or their first fault.
fn benches_of(
    alloc: Global,
    files: Files,
    index: &Index,
    entities: &[UnitId],
) -> Result<Tests, OrMemory<TestFault>>
    requires files { AreFiles files }
    requires inside { AreInFiles files entities.now }
    requires named { AreNamed files entities.now }
    requires within { AreFoundInFiles files index.now }
    ensures { (scans : List Scan) → AreScannedAs files.entry scans →
        HoldsArchitectures (scanned files.entry scans) (unit_numbers scans) index.now →
        GivesTests (tests_found (map (bench_at (scanned files.entry scans)) entities.now)) result }
{
    let mut names = no_names(alloc);
    let mut tests = Tests::new(alloc);
    for entity in entities {
        push_bench(alloc, files, index, *entity, &mut names, &mut tests)?;
    }
    Ok(tests)
}

/// The tests of files.
fn tests_of(alloc: Global, files: Files) -> Result<Tests, OrMemory<TestFault>>
    requires { AreFiles files }
    ensures { (scans : List Scan) → AreScannedAs files.entry scans →
        GivesTests (tests_of (scanned files.entry scans)) result }
{
    let units = unit_numbers(alloc, files)?;
    let index = index_of(alloc, files, units.as_slice())?;
    let entities = bench_numbers(alloc, files, units.as_slice())?;
    benches_of(alloc, files, &index, entities.as_slice())
}

/// The test benches of a project in project and unit order, each with its cases in order, as VUnit documents them. A
/// bench is an entity with the generic `runner_cfg` and one architecture. Each call `run("name")` is a case.
///
/// If there is a fault, `benches` returns the first one. For each bench, its architectures are checked first, then the
/// names of its cases, and then whether a full name came before. There is one text and one outline for each file, in
/// order. Time and memory are in proportion to the units and to the names of benches and cases.
pub fn benches(
    alloc: Global,
    project: &Project,
    texts: &TextList,
    outlines: &Outlines,
) -> Result<Tests, OrMemory<TestFault>>
    requires few { length project.now.files ≤ FILE_LIMIT }
    requires each { length texts.now ≡ length project.now.files }
    requires small { All IsTextSmall texts.now }
    requires lie { FilesLieIn texts.now outlines.now.files }
    ensures { (scans : List Scan) → AreOutlinesOf texts.now scans outlines.now →
        GivesTests (tests_of (sources_of project.now texts.now scans)) result }
{
    tests_of(
        alloc,
        Files {
            project,
            texts,
            outlines: &outlines.files,
        },
    )
}
