//! What references name.

ghost use Rattle.std.specs.Prelude.{◌≡◌, ◌&&◌, ◌≤◌, Bool, true, List, OnOk};
ghost use Rattle.std.specs.List.{list_any};
ghost use Rattle.base_collections.specs.Maps.{get};
ghost use Rattle.base.specs.declared.project.ProjectFile.{ProjectFile};
ghost use Rattle.vhdl_spec.specs.Dependencies.{LinkUnit, is_body, is_given_architecture, is_package_kind, is_primary};
ghost use Rattle.vhdl_graph.specs.Indexes.{ArePositionsOfFiles, IsIndex, HoldsUnits};
ghost use Rattle.vhdl_graph.specs.Keys.{is_same_key, primary_key};
ghost use Rattle.vhdl_graph.specs.Meanings.{names_in};
ghost use Rattle.vhdl_graph.specs.Rows.{HasAdded, has_package, stands_at};

use crate::index::{Index, UnitIndex, find_unit};
use crate::key::{DesignUnitKey, put_architecture_key, put_body_key};
use crate::rows::{put_found, put_named};
use base::{FILE_LIMIT, MaybeText, NoMemory, Ref, Text};
use base_collections::PositionSet;
use std::alloc::Global;

/// Whether a primary unit of a name is a package.
fn is_package(index: &Index, key: &DesignUnitKey) -> bool
    ensures { (files : List ProjectFile) (units : List LinkUnit) → IsIndex files units index.now →
        result ≡ has_package units key.now }
{
    match find_unit(index, key) {
        Some(unit_index) => unit_index.is_package,
        None => false,
    }
}

/// Puts the file of the architecture in that is named with an entity.
fn put_architecture(
    alloc: Global,
    row: &mut PositionSet,
    index: &Index,
    library: &Text,
    entity: &Text,
    architecture: &MaybeText,
    other: &mut DesignUnitKey,
) -> Result<(), NoMemory>
    requires { ArePositionsOfFiles FILE_LIMIT index.now }
    ensures { OnOk result ((files : List ProjectFile) (units : List LinkUnit) →
        IsIndex files units index.now → HasAdded (stands_at
        (is_given_architecture library.now entity.now architecture.now) units) row.old row.new) }
{
    match architecture {
        MaybeText::Nothing => Ok(()),
        MaybeText::Given(name) => {
            put_architecture_key(alloc, other, library, entity, name)?;
            put_named(row, index, other);
            Ok(())
        }
    }
}

/// Puts the file of the body of a package in.
fn put_body(
    alloc: Global,
    row: &mut PositionSet,
    index: &Index,
    library: &Text,
    name: &Text,
    other: &mut DesignUnitKey,
) -> Result<(), NoMemory>
    requires { ArePositionsOfFiles FILE_LIMIT index.now }
    ensures { OnOk result ((files : List ProjectFile) (units : List LinkUnit) →
        IsIndex files units index.now →
        HasAdded (stands_at (is_body library.now name.now) units) row.old row.new) }
{
    put_body_key(alloc, other, library, name)?;
    put_named(row, index, other);
    Ok(())
}

/// Puts the file of the body of a primary unit in, where that is a package.
fn put_package_body(
    alloc: Global,
    row: &mut PositionSet,
    index: &Index,
    key: &DesignUnitKey,
    library: &Text,
    name: &Text,
    other: &mut DesignUnitKey,
) -> Result<(), NoMemory>
    requires { ArePositionsOfFiles FILE_LIMIT index.now }
    ensures { OnOk result ((files : List ProjectFile) (units : List LinkUnit) →
        IsIndex files units index.now →
        HasAdded (λ at. stands_at (is_body library.now name.now) units at
        && has_package units key.now) row.old row.new) }
{
    if is_package(index, key) {
        put_body(alloc, row, index, library, name, other)
    } else {
        Ok(())
    }
}

/// Puts the files in that have what a reference names in a library. `key` is that of the primary unit, and `unit_index` its
/// index. Other names are put in the place of `other`.
pub fn put_ref(
    alloc: Global,
    row: &mut PositionSet,
    index: &Index,
    bodies: bool,
    library: &Text,
    reference: &Ref,
    key: &DesignUnitKey,
    unit_index: Option<UnitIndex>,
    other: &mut DesignUnitKey,
) -> Result<(), NoMemory>
    requires indices { ArePositionsOfFiles FILE_LIMIT index.now }
    requires key { key.now ≡ primary_key library.now reference.now.name }
    requires unit_index { unit_index ≡ get is_same_key index.now key.now }
    ensures { OnOk result ((files : List ProjectFile) (units : List LinkUnit) →
        IsIndex files units index.now → HasAdded (stands_at
        (names_in bodies units library.now reference.now) units) row.old row.new) }
{
    put_found(row, index, key, unit_index);
    put_architecture(
        alloc,
        row,
        index,
        library,
        &reference.name,
        &reference.architecture,
        other,
    )?;
    if !bodies {
        return Ok(());
    }
    put_package_body(alloc, row, index, key, library, &reference.name, other)
}
