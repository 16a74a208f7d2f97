//! What the design units of a file refer to.

ghost use Rattle.std.specs.Prelude.{◌≡◌, ◌<◌, ◌≤◌, ◌++◌, Some, List, length, map, slice_get};
ghost use Rattle.base.specs.declared.design.Scan.{Scan};
ghost use Rattle.base.specs.declared.project.ProjectFile.{ProjectFile};
ghost use Rattle.vhdl_spec.specs.Dependencies.{LinkUnit, link_unit};
ghost use Rattle.vhdl_outline.specs.UnresolvedRefs.{UnresolvedRefsLieIn, named_ref, structural_of};
ghost use Rattle.vhdl_outline.specs.Outlines.{IsOutlineOf, OutlineLiesIn};
ghost use Rattle.vhdl_graph.specs.Indexes.{ArePositionsOfFiles, GivesOrFaults};
ghost use Rattle.vhdl_graph.specs.Linking.{FileGives, Knows, StandAll, Stands, unit_lacks, refers_from};
ghost use Rattle.vhdl_graph.specs.Rows.{HasAdded};

use crate::seen::{Scratch, Tables, link_refs, link_structural};
use crate::warnings::note_uses;
use base::{FILE_LIMIT, FileName, LinkFault, Project, TEXT_LIMIT, Unit, UnitId, WarningList};
use base_collections::PositionSet;
use std::alloc::Global;
use vhdl_outline::{FileOutline, UnresolvedRefs};

/// Takes up the references of a unit.
fn link_unit(
    alloc: Global,
    project: &Project,
    tables: &Tables,
    id: UnitId,
    file: &FileName,
    text: &[u8],
    design: &Unit,
    unresolved: &UnresolvedRefs,
    scratch: &mut Scratch,
    row: &mut PositionSet,
) -> Result<(), LinkFault>
    requires indices { ArePositionsOfFiles FILE_LIMIT tables.now.index }
    requires file { id.file < length tables.now.sets.now.starts }
    requires lie { UnresolvedRefsLieIn text.now unresolved.now }
    ensures { (units : List LinkUnit) (unit : LinkUnit) →
        Knows project.now units tables.now → Stands units tables.now id file.now unit →
        unit.refs ≡ structural_of unresolved.now.configured design.now design.now.kind
        ++ map (named_ref text.now) unresolved.now.refs →
        GivesOrFaults (unit_lacks project.now units unit)
        (λ value. HasAdded (refers_from project.now units unit unit.refs) row.old row.new) result }
{
    link_structural(
        alloc,
        project,
        tables,
        id,
        file,
        design,
        &unresolved.configured,
        scratch,
        row,
    )?;
    link_refs(
        alloc,
        project,
        tables,
        id,
        file,
        text,
        unresolved.refs.as_slice(),
        scratch,
        row,
    )
}

/// Takes up the references of a file's units, and notes their uses of whole libraries.
pub fn link_file(
    alloc: Global,
    project: &Project,
    tables: &Tables,
    file: u32,
    text: &[u8],
    outline: &FileOutline,
    scratch: &mut Scratch,
    row: &mut PositionSet,
    warnings: &mut WarningList,
) -> Result<(), LinkFault>
    requires indices { ArePositionsOfFiles FILE_LIMIT tables.now.index }
    requires file { file < length project.now.files }
    requires each { length tables.now.sets.now.starts ≡ length project.now.files }
    requires small { length text.now ≤ TEXT_LIMIT }
    requires lies { OutlineLiesIn text.now outline.now }
    ensures { (units : List LinkUnit) (named : ProjectFile) (scan : Scan) →
        IsOutlineOf text.now scan outline.now → Knows project.now units tables.now →
        slice_get project.now.files file ≡ Some named →
        StandAll units tables.now file named text.now scan →
        FileGives project.now units (link_unit file named text.now scan) scan.units
        row.old row.new warnings.old warnings.new result }
{
    let name = &project.files.get(file as u64).name;
    for number in 0..outline.units.len() {
        let id = UnitId {
            file,
            unit: number as u32,
        };
        let design = outline.units.get(number);
        let unresolved = outline.unresolved.get(number);
        link_unit(
            alloc, project, tables, id, name, text, design, unresolved, scratch, row,
        )?;
        let whole = unresolved.whole.as_slice();
        note_uses(alloc, tables, id, name, text, whole, warnings)?;
    }
    Ok(())
}
