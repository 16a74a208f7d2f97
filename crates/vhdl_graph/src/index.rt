//! The design units of a project by name.

ghost use Rattle.std.specs.Prelude.{◌≡◌, ℕ, ◌<◌, ◌≤◌, List, [], Some, IfOk, OnOk, length, map, slice_get};
ghost use Rattle.base_collections.specs.Maps.{get};
ghost use Rattle.base.specs.declared.design.Scan.{Scan};
ghost use Rattle.base.specs.declared.project.ProjectFile.{ProjectFile};
ghost use Rattle.base.specs.declared.linking.LinkFault.TheVariants.{DuplicateUnit};
ghost use Rattle.vhdl_spec.specs.Dependencies.{LinkUnit, duplicate_of, first_duplicate, is_package_kind, link_unit, link_units, spelled_by};
ghost use Rattle.vhdl_outline.specs.Outlines.{FilesAreOf};
ghost use Rattle.vhdl_graph.specs.Keys.{is_same_key};
ghost use Rattle.vhdl_graph.specs.Indexes.{AddsAll, AddsUnit, ArePositionsOfFiles, GivesOrFaults, IsIndex, IsOfFile, IsUnitOf, Refuses};

use crate::key::{DesignUnitKey, design_unit_key};
use crate::spelling::spell_unit;
use base::{FILE_LIMIT, FileName, Items, LinkFault, NoMemory, Project, Unit, UnitKind};
use base_collections::KeyMap;
use std::alloc::Global;
use vhdl_outline::{FileOutline, room_for_units};

/// The position of the file of a unit, and whether the unit is a package.
#[derive(Clone, Copy)]
pub struct UnitIndex {
    pub file: u32,
    pub is_package: bool,
}

/// The units by name, in project and unit order.
pub type Index = KeyMap<DesignUnitKey, UnitIndex>;

/// Where the unit of a name is.
pub fn find_unit(index: &Index, key: &DesignUnitKey) -> Option<UnitIndex>
    ensures { result ≡ get is_same_key index.now key.now }
{
    index.get(key)
}

/// A unit is package or not.
fn is_package(kind: UnitKind) -> bool
    ensures { result ≡ is_package_kind kind }
{
    match kind {
        UnitKind::Package => true,
        _ => false,
    }
}

/// The fault of two units of one name.
fn duplicate(
    alloc: Global,
    first: &FileName,
    second: &FileName,
    unit: &Unit,
) -> Result<LinkFault, NoMemory>
    ensures { IfOk result (λ fault. fault ≡ DuplicateUnit
        (spelled_by second.now.library unit.now unit.now.kind) first.now second.now) }
{
    Ok(LinkFault::DuplicateUnit {
        unit: spell_unit(alloc, &second.library, unit)?,
        first: first.copy(alloc)?,
        second: second.copy(alloc)?,
    })
}

/// The fault of a unit of a file that has the name of a unit of another.
fn refuse(
    alloc: Global,
    project: &Project,
    first: u32,
    file: u32,
    unit: &Unit,
) -> Result<(), LinkFault>
    requires first { first < length project.now.files }
    requires file { file < length project.now.files }
    ensures { (one : LinkUnit) (other : LinkUnit) → (one.position ≡ first) →
        IsOfFile project.now.files one → IsUnitOf project.now.files file unit.now other →
        Refuses (duplicate_of one other) result }
{
    let first = &project.files.get(first as u64).name;
    let second = &project.files.get(file as u64).name;
    Err(duplicate(alloc, first, second, unit)?)
}

/// Adds a unit of a file, unless there is one of its name.
fn add_unit(
    alloc: Global,
    project: &Project,
    file: u32,
    unit: &Unit,
    index: &mut Index,
) -> Result<(), LinkFault>
    requires file { file < length project.now.files }
    requires indices { ArePositionsOfFiles (length project.now.files) index.now }
    ensures indices { OnOk result (ArePositionsOfFiles (length project.now.files) index.new) }
    ensures added { (units : List LinkUnit) (other : LinkUnit) →
        IsIndex project.now.files units index.old →
        IsUnitOf project.now.files file unit.now other →
        AddsUnit project.now.files units other index.new result }
{
    let key = design_unit_key(alloc, &project.files.get(file as u64).name.library, unit)?;
    let is_package = is_package(unit.kind);
    match index.insert(key, UnitIndex { file, is_package })? {
        Some(unit_index) => refuse(alloc, project, unit_index.file, file, unit),
        None => Ok(()),
    }
}

/// Adds the units of a file, unless there is one of the name of one before.
fn add_file(
    alloc: Global,
    project: &Project,
    file: u32,
    designs: &[Unit],
    index: &mut Index,
) -> Result<(), LinkFault>
    requires file { file < length project.now.files }
    requires indices { ArePositionsOfFiles (length project.now.files) index.now }
    ensures indices { OnOk result (ArePositionsOfFiles (length project.now.files) index.new) }
    ensures added { (units : List LinkUnit) (named : ProjectFile) (text : List ℕ) (scan : Scan) →
        IsIndex project.now.files units index.old →
        slice_get project.now.files file ≡ Some named →
        AddsAll project.now.files units
        (map (link_unit file named text scan) designs.now) index.new result }
{
    for unit in designs {
        add_unit(alloc, project, file, unit, index)?;
    }
    Ok(())
}

/// The units of a project by name, unless there are two of one name: then the fault of the first that has the name of
/// one before.
pub fn index_of(
    alloc: Global,
    project: &Project,
    files: &Items<FileOutline>,
) -> Result<Index, LinkFault>
    requires few { length project.now.files ≤ FILE_LIMIT }
    requires each { length files.now ≡ length project.now.files }
    ensures indices { IfOk result (λ index. ArePositionsOfFiles (length project.now.files) index) }
    ensures index { (texts : List (List ℕ)) (scans : List Scan) →
        FilesAreOf texts scans files.now → GivesOrFaults
        (first_duplicate [] (link_units 0 project.now.files texts scans))
        (IsIndex project.now.files (link_units 0 project.now.files texts scans)) result }
{
    let Ok(index) = Index::with_room(alloc, room_for_units(files)) else {
        return Err(LinkFault::NoMemory);
    };
    let mut index = index;
    for file in 0..project.files.len() {
        let units = files.get(file).units.as_slice();
        add_file(alloc, project, file as u32, units, &mut index)?;
    }
    Ok(index)
}
