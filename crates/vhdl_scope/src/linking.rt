//! The links of the units of a project. What each wants is found and linked, all in the same memory.

ghost use Rattle.std.specs.Prelude.{◌≡◌, ◌+◌, ◌≤◌, ◌∷◌, [], List, IfOk, OnOk, length, map};
ghost use Rattle.std.specs.List.{All, AllZip};
ghost use Rattle.base.specs.declared.child.MaybeText.TheVariants.{Given};
ghost use Rattle.base.specs.declared.design.Scan.{Scan};
ghost use Rattle.vhdl_spec.specs.Visibility.{configured_name, primary_name, scope_units};
ghost use Rattle.vhdl_outline.specs.UnresolvedRefs.{NamedLiesIn, named_ref};
ghost use Rattle.vhdl_outline.specs.Outlines.{FilesAreOf, FilesLieIn, IsOutlineOf, OutlineLiesIn};
ghost use Rattle.vhdl_scope.specs.Names.{keys_of};
ghost use Rattle.vhdl_scope.specs.Joins.{HasLinked, IsLinkedFor};
ghost use Rattle.vhdl_scope.specs.Scopes.{AddsLinks};
ghost use Rattle.vhdl_scope.specs.Wants.{configured_wants, context_want, primary_want, primary_wants, wants_of};

use crate::groups::Groups;
use crate::joins::add_link;
use crate::links::LinkList;
use crate::names::Names;
use crate::want::Want;
use crate::wants::{architecture_want, context_want, no_want, primary_want};
use base::{Items, MaybeText, NoMemory, Project, Text, TextList, Unit, UnitKind};
use std::alloc::Global;
use vhdl_outline::{FileOutline, NamedRef};

/// Adds the link for what a unit wants of primary units of a name. The want reuses the memory of an earlier one, and is returned.
fn add_primary_link(
    alloc: Global,
    names: &Names,
    groups: &Groups,
    row_indices: usize,
    library: &Text,
    name: &Text,
    links: &mut LinkList,
    used: Want,
) -> Result<Want, NoMemory>
    requires room { row_indices + length groups.now ≤ usize.MAX }
    ensures { OnOk result (HasLinked (keys_of names.now) groups.now row_indices
        (primary_want library.now name.now ∷ []) links.old links.new) }
{
    let want = primary_want(library, name, used)?;
    add_link(alloc, names, groups, row_indices, &want, links)?;
    Ok(want)
}

/// Adds the link for what an architecture or a configuration wants of its primary units.
fn add_owner_link(
    alloc: Global,
    names: &Names,
    groups: &Groups,
    row_indices: usize,
    library: &Text,
    owner: &MaybeText,
    links: &mut LinkList,
    used: Want,
) -> Result<Want, NoMemory>
    requires room { row_indices + length groups.now ≤ usize.MAX }
    ensures { OnOk result (HasLinked (keys_of names.now) groups.now row_indices
        (primary_wants library.now owner.now) links.old links.new) }
{
    match owner {
        MaybeText::Nothing => Ok(used),
        MaybeText::Given(name) => {
            add_primary_link(
                alloc,
                names,
                groups,
                row_indices,
                library,
                name,
                links,
                used,
            )
        }
    }
}

/// Adds the link for what a secondary unit or a configuration wants of its primary units.
fn add_own_link(
    alloc: Global,
    names: &Names,
    groups: &Groups,
    row_indices: usize,
    library: &Text,
    unit: &Unit,
    links: &mut LinkList,
    used: Want,
) -> Result<Want, NoMemory>
    requires room { row_indices + length groups.now ≤ usize.MAX }
    ensures { OnOk result (HasLinked (keys_of names.now) groups.now row_indices
        (primary_wants library.now (primary_name unit.now.kind unit.now)) links.old links.new) }
{
    match unit.kind {
        UnitKind::Architecture => {
            add_owner_link(
                alloc,
                names,
                groups,
                row_indices,
                library,
                &unit.owner,
                links,
                used,
            )
        }
        UnitKind::Configuration => {
            add_owner_link(
                alloc,
                names,
                groups,
                row_indices,
                library,
                &unit.owner,
                links,
                used,
            )
        }
        UnitKind::PackageBody => {
            add_primary_link(
                alloc,
                names,
                groups,
                row_indices,
                library,
                &unit.name,
                links,
                used,
            )
        }
        _ => Ok(used),
    }
}

/// Adds the link for the architecture that a configuration of an entity configures, if it configures one.
fn add_architecture_link(
    alloc: Global,
    names: &Names,
    groups: &Groups,
    row_indices: usize,
    library: &Text,
    entity: &Text,
    configured: &MaybeText,
    links: &mut LinkList,
    used: Want,
) -> Result<Want, NoMemory>
    requires room { row_indices + length groups.now ≤ usize.MAX }
    ensures { OnOk result (HasLinked (keys_of names.now) groups.now row_indices
        (configured_wants library.now (Given entity.now) configured.now) links.old links.new) }
{
    match configured {
        MaybeText::Nothing => Ok(used),
        MaybeText::Given(name) => {
            let want = architecture_want(library, entity, name, used)?;
            add_link(alloc, names, groups, row_indices, &want, links)?;
            Ok(want)
        }
    }
}

/// Adds the link for the architecture that a configuration of an owner configures, if it configures one.
fn add_configured_link(
    alloc: Global,
    names: &Names,
    groups: &Groups,
    row_indices: usize,
    library: &Text,
    owner: &MaybeText,
    configured: &MaybeText,
    links: &mut LinkList,
    used: Want,
) -> Result<Want, NoMemory>
    requires room { row_indices + length groups.now ≤ usize.MAX }
    ensures { OnOk result (HasLinked (keys_of names.now) groups.now row_indices
        (configured_wants library.now owner.now configured.now) links.old links.new) }
{
    match owner {
        MaybeText::Nothing => Ok(used),
        MaybeText::Given(entity) => {
            add_architecture_link(
                alloc,
                names,
                groups,
                row_indices,
                library,
                entity,
                configured,
                links,
                used,
            )
        }
    }
}

/// Adds the link for what a unit wants of an architecture, if it is a configuration.
fn add_configuration_link(
    alloc: Global,
    names: &Names,
    groups: &Groups,
    row_indices: usize,
    library: &Text,
    unit: &Unit,
    configured: &MaybeText,
    links: &mut LinkList,
    used: Want,
) -> Result<Want, NoMemory>
    requires room { row_indices + length groups.now ≤ usize.MAX }
    ensures { OnOk result (HasLinked (keys_of names.now) groups.now row_indices
        (configured_wants library.now unit.now.owner
        (configured_name unit.now.kind configured.now)) links.old links.new) }
{
    match unit.kind {
        UnitKind::Configuration => {
            add_configured_link(
                alloc,
                names,
                groups,
                row_indices,
                library,
                &unit.owner,
                configured,
                links,
                used,
            )
        }
        _ => Ok(used),
    }
}

/// Adds the links for what references to context declarations want.
fn add_context_links(
    alloc: Global,
    names: &Names,
    groups: &Groups,
    row_indices: usize,
    library: &Text,
    text: &[u8],
    found: &[NamedRef],
    links: &mut LinkList,
    used: Want,
) -> Result<Want, NoMemory>
    requires room { row_indices + length groups.now ≤ usize.MAX }
    requires lie { All (NamedLiesIn text.now) found.now }
    ensures { OnOk result (HasLinked (keys_of names.now) groups.now row_indices
        (map (λ named. context_want library.now (named_ref text.now named)) found.now)
        links.old links.new) }
{
    let mut want = used;
    for named in found {
        want = context_want(library, text, named, want)?;
        add_link(alloc, names, groups, row_indices, &want, links)?;
    }
    Ok(want)
}

/// Adds the links of a unit that refers to these context declarations. A configuration configures this architecture.
fn add_unit_links(
    alloc: Global,
    names: &Names,
    groups: &Groups,
    row_indices: usize,
    library: &Text,
    text: &[u8],
    unit: &Unit,
    found: &[NamedRef],
    configured: &MaybeText,
    links: &mut LinkList,
    used: Want,
) -> Result<Want, NoMemory>
    requires room { row_indices + length groups.now ≤ usize.MAX }
    requires lie { All (NamedLiesIn text.now) found.now }
    ensures { OnOk result (HasLinked (keys_of names.now) groups.now row_indices
        (wants_of library.now unit.now (map (named_ref text.now) found.now) configured.now)
        links.old links.new) }
{
    let own = add_own_link(
        alloc,
        names,
        groups,
        row_indices,
        library,
        unit,
        links,
        used,
    )?;
    let want = add_configuration_link(
        alloc,
        names,
        groups,
        row_indices,
        library,
        unit,
        configured,
        links,
        own,
    )?;
    Ok(add_context_links(
        alloc,
        names,
        groups,
        row_indices,
        library,
        text,
        found,
        links,
        want,
    )?)
}

/// Adds the links of the units of one file.
fn add_links(
    alloc: Global,
    names: &Names,
    groups: &Groups,
    row_indices: usize,
    library: &Text,
    text: &[u8],
    file: &FileOutline,
    links: &mut Vec<LinkList>,
    used: Want,
) -> Result<Want, NoMemory>
    requires room { row_indices + length groups.now ≤ usize.MAX }
    requires lies { OutlineLiesIn text.now file.now }
    ensures { OnOk result ((scan : Scan) → IsOutlineOf text.now scan file.now →
        AddsLinks (keys_of names.now) groups.now row_indices
        library.now text.now scan links.old.items links.new.items) }
{
    let mut want = used;
    for number in 0..file.units.len() {
        let mut own = LinkList::new(alloc);
        want = add_unit_links(
            alloc,
            names,
            groups,
            row_indices,
            library,
            text,
            file.units.get(number),
            file.unresolved.get(number).contexts.as_slice(),
            &file.unresolved.get(number).configured,
            &mut own,
            want,
        )?;
        links.push(own)?;
    }
    Ok(want)
}

/// The links of all units to groups. The row index of a group is `row_indices` plus its number.
pub fn links_of_units(
    alloc: Global,
    names: &Names,
    groups: &Groups,
    row_indices: usize,
    project: &Project,
    texts: &TextList,
    files: &Items<FileOutline>,
) -> Result<Vec<LinkList>, NoMemory>
    requires room { row_indices + length groups.now ≤ usize.MAX }
    requires each { length texts.now ≡ length project.now.files }
    requires lie { FilesLieIn texts.now files.now }
    ensures { IfOk result (λ links. (scans : List Scan) → FilesAreOf texts.now scans files.now →
        AllZip (IsLinkedFor (keys_of names.now) groups.now row_indices)
        links.items (scope_units project.now.files texts.now scans)) }
{
    let mut links = Vec::with_capacity(alloc, row_indices + groups.len())?;
    let mut want = no_want(alloc);
    for file in 0..project.files.len() {
        let library = &project.files.get(file).name.library;
        want = add_links(
            alloc,
            names,
            groups,
            row_indices,
            library,
            texts.get(file).bytes(),
            files.get(file),
            &mut links,
            want,
        )?;
    }
    Ok(links)
}
