//! The design units of a project in one list: where those of each file begin, and the groups that they are in.

ghost use Rattle.std.specs.Prelude.{◌≡◌, ℕ, List, IfOk, length};
ghost use Rattle.std.specs.List.{list_any};
ghost use Rattle.base.specs.declared.design.Scan.{Scan};
ghost use Rattle.vhdl_spec.specs.References.{is_configuration};
ghost use Rattle.vhdl_outline.specs.Outlines.{FilesAreOf};
ghost use Rattle.vhdl_scope.specs.Scopes.{AreScopes};

use crate::groups::{Groups, Owned, add_groups};
use crate::wants::is_secondary;
use base::{Items, NoMemory, Project, Unit, UnitKind};
use std::alloc::Global;
use vhdl_outline::{FileOutline, room_for_units};

/// For each file of a project the number of its first unit; the groups of units; and for each unit the numbers of its groups.
#[derive(Drop)]
pub struct Scopes {
    pub starts: Vec<usize>,
    pub groups: Groups,
    pub owned: Vec<Owned>,
}

/// Whether a unit is a configuration declaration.
fn is_configuration(kind: UnitKind) -> bool
    ensures { result ≡ is_configuration kind }
{
    match kind {
        UnitKind::Configuration => true,
        _ => false,
    }
}

/// Whether one of some units is a configuration.
fn has_configuration(units: &[Unit]) -> bool
    ensures { result ≡ list_any (λ unit. is_configuration unit.kind) units.now }
{
    units.iter().any(|unit| is_configuration(unit.kind))
}

/// Whether a unit of files is a configuration: configurations alone want architectures.
fn have_configuration(files: &[FileOutline]) -> bool
    ensures { result ≡ list_any
        (λ file. list_any (λ unit. is_configuration unit.kind) file.units) files.now }
{
    files
        .iter()
        .any(|file| has_configuration(file.units.as_slice()))
}

/// The number of units of a file that are in groups.
fn units_in_groups(units: &[Unit], keeps: bool) -> usize {
    let mut count: usize = 0;
    for unit in units {
        if keeps || !is_secondary(unit.kind) {
            count = count.saturating_add(1);
        }
    }
    count
}

/// The number of units of files that are in groups, or `usize::MAX` if the number is larger. It only decides how much room is
/// made for groups: no contract depends on it.
fn room_for_groups(files: &[FileOutline], keeps: bool) -> usize {
    let mut count: usize = 0;
    for file in files {
        count = count.saturating_add(units_in_groups(file.units.as_slice(), keeps));
    }
    count
}

/// The units of a project, by the outlines of its files. Groups of architectures, which are many, are left out where no unit
/// is a configuration.
pub fn scopes_of(
    alloc: Global,
    project: &Project,
    files: &Items<FileOutline>,
) -> Result<Scopes, NoMemory>
    requires { length files.now ≡ length project.now.files }
    ensures { IfOk result (λ scopes. (texts : List (List ℕ)) (scans : List Scan) →
        FilesAreOf texts scans files.now → AreScopes project.now.files texts scans scopes) }
{
    let keeps = have_configuration(files.as_slice());
    let mut starts = Vec::new(alloc);
    let mut groups = Groups::with_room(alloc, room_for_groups(files.as_slice(), keeps))?;
    let mut owned = Vec::with_capacity(alloc, room_for_units(files))?;
    for file in 0..project.files.len() {
        starts.push(owned.len())?;
        let library = &project.files.get(file).name.library;
        let units = files.get(file).units.as_slice();
        add_groups(alloc, keeps, library, units, &mut groups, &mut owned)?;
    }
    Ok(Scopes {
        starts,
        groups,
        owned,
    })
}
