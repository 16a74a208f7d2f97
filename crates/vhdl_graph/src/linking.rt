//! Which files of a project depend on which, and the warnings about it.

ghost use Rattle.std.specs.Prelude.{◌≡◌, ◌≤◌, List, IfOk, length};
ghost use Rattle.std.specs.List.{All};
ghost use Rattle.base.specs.declared.design.Scan.{Scan};
ghost use Rattle.vhdl_spec.specs.Dependencies.{link_of, link_units};
ghost use Rattle.order.specs.BuildOrder.{AreEdges};
ghost use Rattle.vhdl_outline.specs.Outlines.{AreOutlined, AreOutlinesOf};
ghost use Rattle.vhdl_outline.specs.Roles.{IsTextSmall};
ghost use Rattle.vhdl_scope.specs.Tables.{AreVisible};
ghost use Rattle.vhdl_graph.specs.Indexes.{ArePositionsOfFiles};
ghost use Rattle.vhdl_graph.specs.Linking.{AreRowsOf, GivesAll, Knows};
ghost use Rattle.vhdl_graph.specs.Results.{GivesLinks};

use crate::index::index_of;
use crate::libraries::libraries_of;
use crate::pairs::{add_row, rows_of_pairs};
use crate::seen::{Tables, no_scratch};
use crate::units::link_file;
use base::{Edges, FILE_LIMIT, LinkFault, Linked, Project, TextList, WarningList};
use base_collections::PositionSet;
use std::alloc::Global;
use vhdl_outline::Outlines;
use vhdl_scope::VisibleLibraries;

/// Takes up the references of all files.
fn link_files(
    alloc: Global,
    project: &Project,
    texts: &TextList,
    outlines: &Outlines,
    tables: &Tables,
    rows: &[PositionSet],
) -> Result<Linked, LinkFault>
    requires few { length project.now.files ≤ FILE_LIMIT }
    requires each { length texts.now ≡ length project.now.files }
    requires small { All IsTextSmall texts.now }
    requires outlined { AreOutlined texts.now outlines.now }
    requires rows { AreRowsOf project.now rows.now }
    requires indices { ArePositionsOfFiles (length project.now.files) tables.now.index }
    requires seen { (scans : List Scan) → AreOutlinesOf texts.now scans outlines.now →
        AreVisible project.now.files texts.now scans tables.now.sets.now }
    requires known { (scans : List Scan) → AreOutlinesOf texts.now scans outlines.now →
        Knows project.now (link_units 0 project.now.files texts.now scans) tables.now }
    ensures { (scans : List Scan) → AreOutlinesOf texts.now scans outlines.now →
        GivesAll project.now (link_units 0 project.now.files texts.now scans) result }
{
    let count = project.files.len();
    let mut edges = Edges::new(alloc);
    let mut warnings = WarningList::new(alloc);
    let mut scratch = no_scratch(alloc);
    for file in 0..count {
        let mut row = PositionSet::new();
        add_row(&mut row, rows, file as usize);
        let text = texts.get(file).bytes();
        link_file(
            alloc,
            project,
            tables,
            file as u32,
            text,
            outlines.files.get(file),
            &mut scratch,
            &mut row,
            &mut warnings,
        )?;
        row.remove(file as u32);
        edges.push(row.positions_below(alloc, count as u32)?)?;
    }
    Ok(Linked { edges, warnings })
}

/// The dependencies of each file of a project: strictly rising positions, without its own. Also the warnings, in
/// project order: uses of whole libraries that give no dependency.
///
/// If the names of units have a fault, `link` returns the first one. Duplicate units are looked for first, over
/// all files, and then missing units and architectures. There is one text and one outline for each file, in order.
/// `sets` has the libraries that each unit sees.
pub fn link(
    alloc: Global,
    project: &Project,
    texts: &TextList,
    outlines: &Outlines,
    sets: &VisibleLibraries,
) -> Result<Linked, LinkFault>
    requires few { length project.now.files ≤ FILE_LIMIT }
    requires each { length texts.now ≡ length project.now.files }
    requires small { All IsTextSmall texts.now }
    requires outlined { AreOutlined texts.now outlines.now }
    requires seen { (scans : List Scan) → AreOutlinesOf texts.now scans outlines.now →
        AreVisible project.now.files texts.now scans sets.now }
    ensures exact { (scans : List Scan) → AreOutlinesOf texts.now scans outlines.now →
        GivesLinks (link_of project.now (link_units 0 project.now.files texts.now scans)) result }
    ensures edges { IfOk result (λ linked. AreEdges linked.edges) }
{
    let index = index_of(alloc, project, &outlines.files)?;
    let libraries = libraries_of(alloc, project)?;
    let rows = rows_of_pairs(alloc, project)?;
    let tables = Tables {
        index,
        libraries,
        sets,
    };
    link_files(alloc, project, texts, outlines, &tables, rows.as_slice())
}
