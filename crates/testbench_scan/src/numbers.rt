//! The numbers of a project's design units, and of its benches.

ghost use Rattle.std.specs.Prelude.{◌≡◌, ◌++◌, ◌∷◌, [], ◌≤◌, List, IfOk, OnOk, filter, if◌then◌else◌, is_some, map};
ghost use Rattle.base.specs.PresentGraph.{below};
ghost use Rattle.base.specs.declared.design.Scan.{Scan};
ghost use Rattle.testbench_scan.specs.Benches.{is_bench, unit_number, unit_numbers};
ghost use Rattle.testbench_scan.specs.Files.{AreFiles, AreInFiles, AreNamed, AreScannedAs, IsInFiles, runs_at, scanned};

use crate::files::{Files, find};
use base::{NoMemory, TEXT_LIMIT, UnitId};
use std::alloc::Global;

/// Adds the numbers of the units of a file.
fn add_numbers(file: u32, count: u64, ids: &mut Vec<UnitId>) -> Result<(), NoMemory>
    requires { count ≤ TEXT_LIMIT }
    ensures { OnOk result (ids.new.items ≡
        ids.old.items ++ map (unit_number file) (below count)) }
{
    for unit in 0..count {
        ids.push(UnitId {
            file,
            unit: unit as u32,
        })?;
    }
    Ok(())
}

/// The numbers of all units, in project and unit order.
pub fn unit_numbers(alloc: Global, files: Files) -> Result<Vec<UnitId>, NoMemory>
    requires { AreFiles files }
    ensures all { IfOk result (λ ids. (scans : List Scan) → AreScannedAs files.entry scans →
        ids.items ≡ unit_numbers scans) }
    ensures within { IfOk result (λ ids. AreInFiles files.entry ids.items) }
{
    let mut ids = Vec::new(alloc);
    for file in 0..files.outlines.len() {
        let outline = files.outlines.get(file);
        let count = outline.units.len();
        add_numbers(file as u32, count, &mut ids)?;
    }
    Ok(ids)
}

/// Whether a unit is a test bench.
fn is_bench(files: Files, id: UnitId) -> bool
    requires files { AreFiles files }
    requires id { IsInFiles files id }
    ensures is { (scans : List Scan) → AreScannedAs files.entry scans →
        result ≡ is_bench (scanned files.entry scans) id }
    ensures named { result ≡ is_some (runs_at files.entry id).bench }
{
    let found = find(files, id);
    found.runs.bench.is_some()
}

/// Adds the number of a unit, where it is a bench.
fn add_bench(files: Files, id: UnitId, benches: &mut Vec<UnitId>) -> Result<(), NoMemory>
    requires files { AreFiles files }
    requires id { IsInFiles files id }
    requires within { AreInFiles files benches.old.items }
    requires named { AreNamed files benches.old.items }
    ensures added { OnOk result ((scans : List Scan) → AreScannedAs files.entry scans →
        benches.new.items ≡ benches.old.items ++
        (if is_bench (scanned files.entry scans) id then id ∷ [] else [])) }
    ensures within { OnOk result (AreInFiles files.entry benches.new.items) }
    ensures named { OnOk result (AreNamed files.entry benches.new.items) }
{
    if !is_bench(files, id) {
        return Ok(());
    }
    benches.push(id)?;
    Ok(())
}

/// The numbers of the benches among units, in order.
pub fn bench_numbers(alloc: Global, files: Files, ids: &[UnitId]) -> Result<Vec<UnitId>, NoMemory>
    requires files { AreFiles files }
    requires within { AreInFiles files ids.now }
    ensures all { IfOk result (λ benches. (scans : List Scan) → AreScannedAs files.entry scans →
        benches.items ≡ filter (is_bench (scanned files.entry scans)) ids.now) }
    ensures within { IfOk result (λ benches. AreInFiles files.entry benches.items) }
    ensures named { IfOk result (λ benches. AreNamed files.entry benches.items) }
{
    let mut benches = Vec::new(alloc);
    for id in ids {
        add_bench(files, *id, &mut benches)?;
    }
    Ok(benches)
}
