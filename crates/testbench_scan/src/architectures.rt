//! The architectures of each entity of a project: the first, and whether there are more.

ghost use Rattle.std.specs.Prelude.{◌≡◌, ◌∷◌, ◌++◌, [], List, IfOk, OnOk};
ghost use Rattle.base.specs.declared.design.Scan.{Scan};
ghost use Rattle.base.specs.declared.refs.UnitId.{UnitId as UnitNumber};
ghost use Rattle.base_collections.specs.Maps.{get};
ghost use Rattle.vhdl_spec.specs.Dependencies.{is_architecture_kind};
ghost use Rattle.vhdl_spec.specs.References.{owner_name};
ghost use Rattle.testbench_scan.specs.Files.{AreFiles, AreInFiles, AreScannedAs, IsInFiles, scanned};
ghost use Rattle.testbench_scan.specs.Architectures.{AreFoundInFiles, HoldsArchitectures, one_more};
ghost use Rattle.vhdl_units.specs.UnitKeys.{is_same_unit, unit_key};

use crate::files::{Files, Found, find};
use base::{NoMemory, UnitId, UnitKind};
use base_collections::KeyMap;
use std::alloc::Global;
use vhdl_units::{UnitKey, owner_name, unit_key};

/// The first architecture of an entity, and whether there are more.
#[derive(Clone, Copy)]
pub struct Architectures {
    pub first: UnitId,
    pub several: bool,
}

/// The architectures by entity, in project and unit order.
pub type Index = KeyMap<UnitKey, Architectures>;

/// The architectures of an entity, if it has one.
pub fn architectures_of(index: &Index, key: &UnitKey) -> Option<Architectures>
    ensures { result ≡ get is_same_unit index.now key.now }
{
    index.get(key)
}

/// One architecture more.
fn one_more(found: Option<Architectures>, id: UnitId) -> Architectures
    ensures { result ≡ one_more found id }
{
    match found {
        Some(found) => Architectures {
            first: found.first,
            several: true,
        },
        None => Architectures {
            first: id,
            several: false,
        },
    }
}

fn is_architecture(kind: UnitKind) -> bool
    ensures { result ≡ is_architecture_kind kind }
{
    match kind {
        UnitKind::Architecture => true,
        _ => false,
    }
}

/// The key of the entity of an architecture.
fn owner_key(alloc: Global, found: Found) -> Result<UnitKey, NoMemory>
    ensures { IfOk result (λ key. key ≡
        unit_key found.entry.library.now (owner_name found.entry.unit.now.owner)) }
{
    let owner = owner_name(&found.unit.owner);
    unit_key(alloc, found.library.bytes(), owner)
}

/// Adds a unit, where it is an architecture.
fn add_unit(alloc: Global, files: Files, id: UnitId, index: &mut Index) -> Result<(), NoMemory>
    requires files { AreFiles files }
    requires id { IsInFiles files id }
    requires within { AreFoundInFiles files index.now }
    ensures within { OnOk result (AreFoundInFiles files.entry index.new) }
    ensures added { OnOk result ((scans : List Scan) (ids : List UnitNumber) →
        AreScannedAs files.entry scans →
        HoldsArchitectures (scanned files.entry scans) ids index.old →
        HoldsArchitectures (scanned files.entry scans) (ids ++ id ∷ []) index.new) }
{
    let found = find(files, id);
    if !is_architecture(found.unit.kind) {
        return Ok(());
    }
    let key = owner_key(alloc, found)?;
    let more = one_more(architectures_of(index, &key), id);
    index.insert(key, more)?;
    Ok(())
}

/// The architectures of the entities of some units.
pub fn index_of(alloc: Global, files: Files, ids: &[UnitId]) -> Result<Index, NoMemory>
    requires files { AreFiles files }
    requires within { AreInFiles files ids.now }
    ensures within { IfOk result (λ index. AreFoundInFiles files.entry index) }
    ensures holds { IfOk result (λ index. (scans : List Scan) → AreScannedAs files.entry scans →
        HoldsArchitectures (scanned files.entry scans) ids.now index) }
{
    let mut index = Index::with_room(alloc, ids.len())?;
    for id in ids {
        add_unit(alloc, files, *id, &mut index)?;
    }
    Ok(index)
}
