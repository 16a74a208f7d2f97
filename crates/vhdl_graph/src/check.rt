//! What is missing of a reference.

ghost use Rattle.std.specs.Prelude.{◌≡◌, ⊤, List, IfOk, Some, None, false, if◌then◌else◌};
ghost use Rattle.std.specs.List.{list_any};
ghost use Rattle.base_collections.specs.Maps.{get};
ghost use Rattle.base.specs.declared.linking.LinkFault.TheVariants.{MissingUnit, MissingArchitecture};
ghost use Rattle.vhdl_spec.specs.References.{owner_name};
ghost use Rattle.vhdl_spec.specs.Dependencies.{LinkUnit, is_architecture, is_primary, lacks_given};
ghost use Rattle.vhdl_graph.specs.Indexes.{GivesOrFaults, HoldsUnits};
ghost use Rattle.vhdl_graph.specs.Libraries.{AreLibraries, stands_outside};
ghost use Rattle.vhdl_graph.specs.Keys.{is_same_key, key_of, primary_key};
ghost use Rattle.vhdl_graph.specs.Meanings.{missing_in, missing_units};

use crate::index::{Index, UnitIndex, find_unit};
use crate::key::{DesignUnitKey, put_architecture_key};
use crate::libraries::Libraries;
use base::{FileName, LinkFault, MaybeText, NoMemory, Project, Ref, Text};
use std::alloc::Global;

/// Whether there is a unit of a name, by its index.
fn has_unit(_index: &Index, _key: &DesignUnitKey, unit_index: Option<UnitIndex>) -> bool
    requires { unit_index ≡ get is_same_key _index.now _key.now }
    ensures { (units : List LinkUnit) → HoldsUnits _index.now units →
        result ≡ list_any (λ unit. is_same_key _key.now (key_of unit)) units }
{
    unit_index.is_some()
}

/// Whether there is a primary unit of a name in a library, which its key names, by its index.
fn has_primary(
    index: &Index,
    _library: &Text,
    _name: &Text,
    key: &DesignUnitKey,
    unit_index: Option<UnitIndex>,
) -> bool
    requires key { key.now ≡ primary_key _library.now _name.now }
    requires unit_index { unit_index ≡ get is_same_key index.now key.now }
    ensures { (units : List LinkUnit) → HoldsUnits index.now units →
        result ≡ list_any (is_primary _library.now _name.now) units }
{
    has_unit(index, key, unit_index)
}

/// Whether there is an architecture of an entity. Its name is put in the place of another.
fn has_architecture(
    alloc: Global,
    index: &Index,
    library: &Text,
    entity: &Text,
    name: &Text,
    other: &mut DesignUnitKey,
) -> Result<bool, NoMemory>
    ensures { IfOk result (λ found. (units : List LinkUnit) → HoldsUnits index.now units →
        found ≡ list_any (is_architecture library.now entity.now name.now) units) }
{
    put_architecture_key(alloc, other, library, entity, name)?;
    Ok(has_unit(index, other, find_unit(index, other)))
}

/// The fault of a unit that a file refers to and that its library lacks.
fn missing_unit(
    alloc: Global,
    file: &FileName,
    library: &Text,
    name: &Text,
) -> Result<LinkFault, NoMemory>
    ensures { IfOk result (λ fault. fault ≡ MissingUnit file.now library.now name.now) }
{
    Ok(LinkFault::MissingUnit {
        file: file.copy(alloc)?,
        library: library.copy(alloc)?,
        unit: name.copy(alloc)?,
    })
}

/// The fault of an architecture that a file names with an entity that lacks it.
fn missing_architecture(
    alloc: Global,
    file: &FileName,
    library: &Text,
    entity: &Text,
    name: &Text,
) -> Result<LinkFault, NoMemory>
    ensures { IfOk result (λ fault. fault ≡
        MissingArchitecture file.now library.now entity.now name.now) }
{
    Ok(LinkFault::MissingArchitecture {
        file: file.copy(alloc)?,
        library: library.copy(alloc)?,
        entity: entity.copy(alloc)?,
        architecture: name.copy(alloc)?,
    })
}

/// Finds the architecture that a reference names with an entity.
fn check_architecture(
    alloc: Global,
    index: &Index,
    file: &FileName,
    library: &Text,
    entity: &Text,
    architecture: &MaybeText,
    other: &mut DesignUnitKey,
) -> Result<(), LinkFault>
    ensures { (units : List LinkUnit) → HoldsUnits index.now units →
        GivesOrFaults (if lacks_given units library.now entity.now architecture.now
        then Some (MissingArchitecture file.now library.now entity.now
        (owner_name architecture.now)) else None) (λ value. ⊤) result }
{
    match architecture {
        MaybeText::Nothing => Ok(()),
        MaybeText::Given(name) => {
            if has_architecture(alloc, index, library, entity, name, other)? {
                Ok(())
            } else {
                Err(missing_architecture(alloc, file, library, entity, name)?)
            }
        }
    }
}

/// Finds the unit that a reference names. `key` is that of the primary unit, and `unit_index` its index.
fn check_units(
    alloc: Global,
    index: &Index,
    file: &FileName,
    library: &Text,
    reference: &Ref,
    key: &DesignUnitKey,
    unit_index: Option<UnitIndex>,
    other: &mut DesignUnitKey,
) -> Result<(), LinkFault>
    requires key { key.now ≡ primary_key library.now reference.now.name }
    requires unit_index { unit_index ≡ get is_same_key index.now key.now }
    ensures { (units : List LinkUnit) → HoldsUnits index.now units →
        GivesOrFaults (missing_units units file.now library.now reference.now) (λ value. ⊤) result }
{
    if has_primary(index, library, &reference.name, key, unit_index) {
        check_architecture(
            alloc,
            index,
            file,
            library,
            &reference.name,
            &reference.architecture,
            other,
        )
    } else {
        Err(missing_unit(alloc, file, library, &reference.name)?)
    }
}

/// Finds what a reference of a file names in a library that is looked into, where it can't mean anything but a unit. `key`
/// is that of the primary unit, and `unit_index` its index. Another name is put in the place of `other`.
pub fn check_ref(
    alloc: Global,
    _project: &Project,
    _libraries: &Libraries,
    index: &Index,
    file: &FileName,
    library: &Text,
    reference: &Ref,
    key: &DesignUnitKey,
    unit_index: Option<UnitIndex>,
    other: &mut DesignUnitKey,
) -> Result<(), LinkFault>
    requires inside { stands_outside _libraries.now library.now ≡ false }
    requires key { key.now ≡ primary_key library.now reference.now.name }
    requires unit_index { unit_index ≡ get is_same_key index.now key.now }
    ensures { (units : List LinkUnit) → HoldsUnits index.now units →
        AreLibraries _project.now _libraries.now →
        GivesOrFaults (missing_in _project.now units file.now library.now reference.now)
        (λ value. ⊤) result }
{
    if !reference.strict {
        return Ok(());
    }
    check_units(
        alloc, index, file, library, reference, key, unit_index, other,
    )
}
