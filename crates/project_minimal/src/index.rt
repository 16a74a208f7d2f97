//! The units of a project by what they are called where they are needed.

ghost use Rattle.std.specs.Prelude.{◌≡◌, ◌+◌, ◌<◌, [], ◌∷◌, length, IfOk, OnOk};
ghost use Rattle.project_minimal.specs.MinimalSet.{NeedSources};
ghost use Rattle.project_minimal.specs.Sources.{AreNeeds, AreSources};
ghost use Rattle.project_minimal.specs.Suppliers.{Adds, AddsAll, AreVoid, FitAll, FitFiles, HoldsFiles, IsVoid, architecture_name, body_name, entity_name};

use crate::sources::Sources;
use crate::suppliers::{Suppliers, add, no_suppliers};
use base::{FILE_LIMIT, NoMemory, Text, Unit, UnitKind};
use std::alloc::Global;
use vhdl_outline::room_for_units;
use vhdl_units::{owner_name, unit_key};

/// The files that supply architectures by their entities, bodies by their packages, and entities by their names alone.
#[derive(Drop)]
pub struct Index {
    pub architectures: Suppliers,
    pub bodies: Suppliers,
    pub entities: Suppliers,
}

/// Adds the file of a unit, where that is an architecture.
fn add_architecture(
    alloc: Global,
    suppliers: &mut Suppliers,
    library: &Text,
    unit: &Unit,
    file: u32,
    count: u64,
) -> Result<(), NoMemory>
    requires file { file < count }
    requires fit { FitFiles count suppliers.old }
    ensures { OnOk result (Adds architecture_name library.now (unit.now ∷ []) file count
        suppliers.old suppliers.new) }
{
    match unit.kind {
        UnitKind::Architecture => {
            let name = unit_key(alloc, library.bytes(), owner_name(&unit.owner))?;
            add(alloc, suppliers, name, file)?;
            Ok(())
        }
        _ => Ok(()),
    }
}

/// Adds the file of a unit, where that is the body of a package.
fn add_body(
    alloc: Global,
    suppliers: &mut Suppliers,
    library: &Text,
    unit: &Unit,
    file: u32,
    count: u64,
) -> Result<(), NoMemory>
    requires file { file < count }
    requires fit { FitFiles count suppliers.old }
    ensures { OnOk result (Adds body_name library.now (unit.now ∷ []) file count
        suppliers.old suppliers.new) }
{
    match unit.kind {
        UnitKind::PackageBody => {
            let name = unit_key(alloc, library.bytes(), unit.name.bytes())?;
            add(alloc, suppliers, name, file)?;
            Ok(())
        }
        _ => Ok(()),
    }
}

/// Adds the file of a unit, where that is an entity.
fn add_entity(
    alloc: Global,
    suppliers: &mut Suppliers,
    library: &Text,
    unit: &Unit,
    file: u32,
    count: u64,
) -> Result<(), NoMemory>
    requires file { file < count }
    requires fit { FitFiles count suppliers.old }
    ensures { OnOk result (Adds entity_name library.now (unit.now ∷ []) file count
        suppliers.old suppliers.new) }
{
    match unit.kind {
        UnitKind::Entity => {
            let name = unit_key(alloc, b"".as_slice(), unit.name.bytes())?;
            add(alloc, suppliers, name, file)?;
            Ok(())
        }
        _ => Ok(()),
    }
}

/// Adds a unit of a file.
fn add_unit(
    alloc: Global,
    index: &mut Index,
    library: &Text,
    unit: &Unit,
    file: u32,
    count: u64,
) -> Result<(), NoMemory>
    requires file { file < count }
    requires fit { FitAll count index.old }
    ensures { OnOk result (AddsAll library.now (unit.now ∷ []) file count index.old index.new) }
{
    let architectures = &mut index.architectures;
    add_architecture(alloc, architectures, library, unit, file, count)?;
    add_body(alloc, &mut index.bodies, library, unit, file, count)?;
    add_entity(alloc, &mut index.entities, library, unit, file, count)?;
    Ok(())
}

/// Adds the units of a file.
fn add_units(
    alloc: Global,
    index: &mut Index,
    library: &Text,
    units: &[Unit],
    file: u32,
    count: u64,
) -> Result<(), NoMemory>
    requires file { file < count }
    requires fit { FitAll count index.old }
    ensures { OnOk result (AddsAll library.now units.now file count index.old index.new) }
{
    for unit in units {
        add_unit(alloc, index, library, unit, file, count)?;
    }
    Ok(())
}

/// An index without units, with these suppliers of architectures, which must be empty.
fn with_architectures(
    alloc: Global,
    room: usize,
    architectures: Suppliers,
) -> Result<Index, NoMemory>
    requires none { IsVoid architectures }
    ensures { IfOk result AreVoid }
{
    let bodies = no_suppliers(alloc, room)?;
    let entities = no_suppliers(alloc, room)?;
    Ok(Index {
        architectures,
        bodies,
        entities,
    })
}

/// An index without units, with tables that have room for `room` names.
fn no_index(alloc: Global, room: usize) -> Result<Index, NoMemory>
    ensures { IfOk result AreVoid }
{
    let architectures = no_suppliers(alloc, room)?;
    with_architectures(alloc, room, architectures)
}

/// Adds the units of a file of a project.
fn add_file(alloc: Global, sources: Sources, index: &mut Index, file: u32) -> Result<(), NoMemory>
    requires sources { AreSources sources }
    requires file { file < length sources.project.now.files }
    requires fit { FitAll (length sources.project.now.files) index.old }
    ensures fit { OnOk result (FitAll (length sources.entry.project.now.files) index.new) }
    ensures holds { OnOk result ((said : NeedSources) → AreNeeds sources.entry said →
        HoldsFiles said file index.old → HoldsFiles said (file + 1) index.new) }
{
    let library = &sources.project.files.get(file as u64).name.library;
    let units = sources.outlines.get(file as u64).units.as_slice();
    let count = sources.project.files.len();
    add_units(alloc, index, library, units, file, count)?;
    Ok(())
}

/// The units of a project.
pub fn index_of(alloc: Global, sources: Sources) -> Result<Index, NoMemory>
    requires { AreSources sources }
    ensures fit { IfOk result (FitAll (length sources.entry.project.now.files)) }
    ensures holds { IfOk result (λ index. (said : NeedSources) → AreNeeds sources.entry said →
        HoldsFiles said (length sources.entry.project.now.files) index) }
{
    let mut index = no_index(alloc, room_for_units(sources.outlines))?;
    for file in 0..sources.project.files.len() {
        add_file(alloc, sources, &mut index, file as u32)?;
    }
    Ok(index)
}
