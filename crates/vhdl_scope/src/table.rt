//! The libraries that all units of a project see, worked out at once.

ghost use Rattle.std.specs.Prelude.{◌≡◌, ◌+◌, ◌<◌, ◌++◌, [], List, IfOk, length, slice_get, slice_index};
ghost use Rattle.std.specs.List.{flat_map};
ghost use Rattle.std.specs.Option.{option_map};
ghost use Rattle.base.specs.declared.design.Scan.{Scan};
ghost use Rattle.vhdl_spec.specs.Visibility.{scope_units};
ghost use Rattle.vhdl_outline.specs.Outlines.{AreOutlined, AreOutlinesOf, file_scopes};
ghost use Rattle.vhdl_scope.specs.Exact.{AreGrown, AreLinked};
ghost use Rattle.vhdl_scope.specs.Names.{HasAll, implicit, keys_of};
ghost use Rattle.vhdl_scope.specs.Scopes.{HasGroups};
ghost use Rattle.vhdl_scope.specs.Tables.{AreVisible, table_sees};

use crate::groups::{Groups, Owned};
use crate::joins::group_links;
use crate::linking::links_of_units;
use crate::links::LinkList;
use crate::listing::sees_name;
use crate::names::{self, Names, names_of};
use crate::own::rows_of;
use crate::row::Row;
use crate::scope::{Scopes, scopes_of};
use crate::spread::spread;
use crate::wants::WORK;
use base::{NoMemory, Project, TextList, UnitId};
use std::alloc::Global;
use std::marker::Model;
use vhdl_outline::Outlines;

/// The links of all units of a project and of their groups. What is known of groups is let go of as soon as it isn't needed, since
/// rows take as much memory.
fn linked(
    alloc: Global,
    names: &Names,
    outlines: &Outlines,
    groups: Groups,
    owned: Vec<Owned>,
    project: &Project,
    texts: &TextList,
) -> Result<Vec<LinkList>, NoMemory>
    requires each { length texts.now ≡ length project.now.files }
    requires outlined { AreOutlined texts.now outlines.now }
    requires named { HasAll
        (implicit ++ flat_map (λ unit. unit.names) (file_scopes outlines.now.files))
        [] (keys_of names.now) }
    requires grouped { (scans : List Scan) → AreOutlinesOf texts.now scans outlines.now →
        HasGroups (scope_units project.now.files texts.now scans) groups owned.items }
    ensures { IfOk result (λ links. (scans : List Scan) →
        AreOutlinesOf texts.now scans outlines.now →
        AreLinked (scope_units project.now.files texts.now scans)
        (keys_of names.now) (length groups) links.items) }
{
    let units = owned.len();
    if units.checked_add(groups.len()).is_none() {
        return Err(NoMemory);
    }
    let library_number = match names::find(names, WORK.as_slice()) {
        Some(library_number) => library_number,
        None => unreachable!(),
    };
    let mut members = group_links(alloc, &groups, owned.as_slice(), library_number)?;
    drop(owned);
    let mut links = links_of_units(
        alloc,
        names,
        &groups,
        units,
        project,
        texts,
        &outlines.files,
    )?;
    links.append(&mut members)?;
    Ok(links)
}

/// The rows of units and of this number of groups, grown along their links until each takes all that it wants.
fn grown_rows(
    alloc: Global,
    names: &Names,
    outlines: &Outlines,
    groups: usize,
    links: &[LinkList],
    _project: &Project,
    _texts: &TextList,
) -> Result<Vec<Row>, NoMemory>
    requires each { length _texts.now ≡ length _project.now.files }
    requires outlined { AreOutlined _texts.now outlines.now }
    requires named { HasAll
        (implicit ++ flat_map (λ unit. unit.names) (file_scopes outlines.now.files))
        [] (keys_of names.now) }
    requires linked { (scans : List Scan) → AreOutlinesOf _texts.now scans outlines.now →
        AreLinked (scope_units _project.now.files _texts.now scans)
        (keys_of names.now) groups links.now }
    ensures { IfOk result (λ rows. (scans : List Scan) →
        AreOutlinesOf _texts.now scans outlines.now →
        AreGrown (file_scopes outlines.now.files)
        (scope_units _project.now.files _texts.now scans) (keys_of names.now) rows.items) }
{
    let files = outlines.files.as_slice();
    let words = names.len() / 64 + 1;
    let mut rows = rows_of(alloc, names, files, groups, words)?;
    spread(alloc, links, rows.as_mut_slice(), words)?;
    Ok(rows)
}

/// The libraries that each design unit of a project sees (IEEE Std 1076-2008, clauses 13.1 to 13.4). Contracts see the
/// set of each unit, in file order, and for each file the number of units before it.
#[derive(Drop)]
pub struct VisibleLibraries {
    starts: Vec<usize>,
    names: Names,
    rows: Vec<Row>,
}

impl Model for VisibleLibraries {
    ghost use Rattle.vhdl_scope.specs.Names.{keys_of};
    ghost use Rattle.vhdl_scope.specs.Tables.{Table, table_of};

    ghost Value = { Table };

    ghost view = { λ a. table_of a.starts.items (keys_of a.names) a.rows.items };
}

/// The sets of all units of a project. There is one text and one outline for each file, in order.
pub fn visible_sets(
    alloc: Global,
    project: &Project,
    texts: &TextList,
    outlines: &Outlines,
) -> Result<VisibleLibraries, NoMemory>
    requires each { length texts.now ≡ length project.now.files }
    requires outlined { AreOutlined texts.now outlines.now }
    ensures { IfOk result (λ sets. (scans : List Scan) →
        AreOutlinesOf texts.now scans outlines.now →
        AreVisible project.now.files texts.now scans sets) }
{
    let Scopes {
        starts,
        groups,
        owned,
    } = scopes_of(alloc, project, &outlines.files)?;
    let names = names_of(alloc, outlines.files.as_slice())?;
    let units = owned.len();
    let count = groups.len();
    let links = linked(alloc, &names, outlines, groups, owned, project, texts)?;
    let mut rows = grown_rows(
        alloc,
        &names,
        outlines,
        count,
        links.as_slice(),
        project,
        texts,
    )?;
    rows.truncate(units);
    rows.shrink_to_fit();
    Ok(VisibleLibraries {
        starts,
        names,
        rows,
    })
}

/// The row of a unit, if there is one.
fn row_at<'a>(starts: &[usize], rows: &'a [Row], unit: UnitId) -> Option<&'a Row>
    requires { unit.file < length starts.now }
    ensures { option_map (λ row. row.now) result
        ≡ slice_get rows.entry.now (slice_index starts.now unit.file + unit.unit) }
{
    match starts[unit.file as usize].checked_add(unit.unit as usize) {
        Some(at) => rows.get(at),
        None => None,
    }
}

impl VisibleLibraries {
    /// Whether a library is visible in a unit. It takes one look-up of the name.
    pub fn sees_library(&self, unit: UnitId, name: &[u8]) -> bool
        requires { unit.file < length self.now.starts }
        ensures { result ≡ table_sees self.now unit name.now }
    {
        match row_at(self.starts.as_slice(), self.rows.as_slice(), unit) {
            Some(row) => sees_name(&self.names, row, name),
            None => false,
        }
    }
}
