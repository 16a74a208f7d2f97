//! The files of a project with their texts and outlines, and their design units by number.

ghost use Rattle.std.specs.Prelude.{◌≡◌, List};
ghost use Rattle.base.specs.declared.design.Scan.{Scan};
ghost use Rattle.vhdl_outline.specs.Runs.{UnitRunsLieIn};
ghost use Rattle.testbench_scan.specs.Files.{AreFiles, AreScannedAs, IsInFiles, IsLocated, runs_at, scanned};

use base::{Items, Project, Text, TextList, Unit, UnitId};
use vhdl_outline::{FileOutline, UnitFacts};

/// The files of a project, with the text and the outline of each.
#[derive(Clone, Copy)]
pub struct Files<'a> {
    pub project: &'a Project,
    pub texts: &'a TextList,
    pub outlines: &'a Items<FileOutline>,
}

/// A design unit, with its library, the text of its file, what it says of tests, and whether its file asks for one
/// simulation of all cases.
#[derive(Clone, Copy)]
pub struct Found<'a> {
    pub library: &'a Text,
    pub text: &'a [u8],
    pub unit: &'a Unit,
    pub runs: &'a UnitFacts,
    pub same_sim: bool,
}

/// The design unit of a number.
pub fn find<'a>(files: Files<'a>, id: UnitId) -> Found<'a>
    requires files { AreFiles files }
    requires id { IsInFiles files id }
    ensures located { (scans : List Scan) → AreScannedAs files.entry scans →
        IsLocated (scanned files.entry scans) id result }
    ensures lie { UnitRunsLieIn result.text.now result.runs.now }
    ensures runs { result.runs.now ≡ runs_at files.entry id }
{
    let file = files.project.files.get(id.file as u64);
    let source = files.texts.get(id.file as u64);
    let outline = files.outlines.get(id.file as u64);
    let unit = outline.units.get(id.unit as u64);
    let runs = outline.runs.units.get(id.unit as u64);
    let text = source.bytes();
    Found {
        library: &file.name.library,
        text,
        unit,
        runs,
        same_sim: outline.runs.same_sim,
    }
}
