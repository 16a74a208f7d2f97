//! Groups of units, numbered, and the numbers of the groups that each unit is in.

ghost use Rattle.std.specs.Prelude.{◌≡◌, ◌<◌, ◌∷◌, [], Contains, IfOk, IfSome, IfNone, OnOk, length};
ghost use Rattle.vhdl_scope.specs.Names.{HasAll, group_number};
ghost use Rattle.vhdl_scope.specs.Owned.{AddsOwned, HasGrown, IsNumbered, IsOwned};
ghost use Rattle.vhdl_scope.specs.Wants.{architecture_group, context_group, kept_architectures, kept_groups, primary_group};

use crate::want::Group;
use crate::wants::{
    architectures_of, group_of, is_architecture_kind, is_context_kind, is_secondary,
};
use base::{NoMemory, Text, Unit};
use base_collections::KeyNumbers;
use std::alloc::Global;
use vhdl_units::owner_name;

/// Groups, in the order in which they were met.
pub type Groups = KeyNumbers<Group>;

/// The numbers of the groups that a unit is in: that of primary units of its name, that of context declarations, and that of
/// architectures of its entity.
#[derive(Clone, Copy)]
pub struct Owned {
    pub primary: Option<usize>,
    pub context: Option<usize>,
    pub architecture: Option<usize>,
}

/// The number of a group, if it has one.
pub fn find(groups: &Groups, group: &Group) -> Option<usize>
    ensures found { IfSome result (λ number. (number ≡ group_number groups.now group.now)
        × (number < length groups.now)) }
    ensures none { IfNone result (Contains groups.now group.now → ⊥) }
{
    groups.number(group)
}

/// The number of a group. A group without a number gets one.
fn add(groups: &mut Groups, group: Group) -> Result<usize, NoMemory>
    ensures number { IfOk result (λ number. (number ≡ group_number groups.new group)
        × (number < length groups.new)) }
    ensures all { OnOk result (HasAll (group ∷ []) groups.old groups.new) }
    ensures grown { OnOk result (HasGrown groups.old groups.new) }
{
    let number = groups.add(group)?;
    Ok(number)
}

/// Gives the group of primary units that a unit is in a number, if it is in one.
fn add_primary(
    alloc: Global,
    groups: &mut Groups,
    library: &Text,
    unit: &Unit,
) -> Result<Option<usize>, NoMemory>
    ensures number { IfOk result
        (IsNumbered groups.new (primary_group library.now unit.now)) }
    ensures all { OnOk result
        (HasAll (primary_group library.now unit.now) groups.old groups.new) }
    ensures grown { OnOk result (HasGrown groups.old groups.new) }
{
    if is_secondary(unit.kind) {
        return Ok(None);
    }
    let group = group_of(alloc, false, library, &unit.name)?;
    Ok(Some(add(groups, group)?))
}

/// Gives the group of context declarations that a unit is in a number, if it is in one.
fn add_context(
    alloc: Global,
    groups: &mut Groups,
    library: &Text,
    unit: &Unit,
) -> Result<Option<usize>, NoMemory>
    ensures number { IfOk result
        (IsNumbered groups.new (context_group library.now unit.now)) }
    ensures all { OnOk result
        (HasAll (context_group library.now unit.now) groups.old groups.new) }
    ensures grown { OnOk result (HasGrown groups.old groups.new) }
{
    if !is_context_kind(unit.kind) {
        return Ok(None);
    }
    let group = group_of(alloc, true, library, &unit.name)?;
    Ok(Some(add(groups, group)?))
}

/// Gives the group of architectures that a unit is in a number, if it is in one.
fn add_architecture(
    alloc: Global,
    groups: &mut Groups,
    library: &Text,
    unit: &Unit,
) -> Result<Option<usize>, NoMemory>
    ensures number { IfOk result
        (IsNumbered groups.new (architecture_group library.now unit.now)) }
    ensures all { OnOk result
        (HasAll (architecture_group library.now unit.now) groups.old groups.new) }
    ensures grown { OnOk result (HasGrown groups.old groups.new) }
{
    if !is_architecture_kind(unit.kind) {
        return Ok(None);
    }
    let group = architectures_of(alloc, library, owner_name(&unit.owner), &unit.name)?;
    Ok(Some(add(groups, group)?))
}

/// The same, where groups of architectures are kept.
fn add_kept(
    alloc: Global,
    keeps: bool,
    groups: &mut Groups,
    library: &Text,
    unit: &Unit,
) -> Result<Option<usize>, NoMemory>
    ensures number { IfOk result
        (IsNumbered groups.new (kept_architectures keeps library.now unit.now)) }
    ensures all { OnOk result
        (HasAll (kept_architectures keeps library.now unit.now) groups.old groups.new) }
    ensures grown { OnOk result (HasGrown groups.old groups.new) }
{
    if !keeps {
        return Ok(None);
    }
    add_architecture(alloc, groups, library, unit)
}

/// The numbers of the groups that a unit is in. A group without a number gets one. Unless `keeps` is set, the unit's group of
/// architectures is left out.
fn add_own(
    alloc: Global,
    keeps: bool,
    groups: &mut Groups,
    library: &Text,
    unit: &Unit,
) -> Result<Owned, NoMemory>
    ensures owned { IfOk result (IsOwned keeps groups.new library.now unit.now) }
    ensures all { OnOk result
        (HasAll (kept_groups keeps library.now unit.now) groups.old groups.new) }
    ensures grown { OnOk result (HasGrown groups.old groups.new) }
{
    let primary = add_primary(alloc, groups, library, unit)?;
    let context = add_context(alloc, groups, library, unit)?;
    let architecture = add_kept(alloc, keeps, groups, library, unit)?;
    Ok(Owned {
        primary,
        context,
        architecture,
    })
}

/// Adds the numbers of each unit's groups to `owned`, for the units of one file. A group without a number gets one. Unless
/// `keeps` is set, groups of architectures are left out.
pub fn add_groups(
    alloc: Global,
    keeps: bool,
    library: &Text,
    units: &[Unit],
    groups: &mut Groups,
    owned: &mut Vec<Owned>,
) -> Result<(), NoMemory>
    ensures { OnOk result (AddsOwned keeps library.now units.now
        groups.old owned.old.items groups.new owned.new.items) }
{
    for number in 0..units.len() {
        owned.push(add_own(alloc, keeps, groups, library, &units[number])?)?;
    }
    Ok(())
}
