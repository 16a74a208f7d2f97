//! The visible libraries of a project that is handed over as one text, with the places where its files end.

ghost use Rattle.std.specs.Prelude.{◌≡◌, ◌-◌, ◌<◌, ◌≤◌, IfOk, codes, drop, false, length, take};
ghost use Rattle.std.specs.List.{All};
ghost use Rattle.vhdl_outline.specs.Outlines.{AreOutlined};
ghost use Rattle.vhdl_outline.specs.Roles.{IsTextSmall};
ghost use Rattle.bench_library.specs.Projects.{HasSight, HasOutlined, HasScans, parts_at};

use base::{
    FileName, Items, NoMemory, OrMemory, Project, ProjectFile, RoleList, Scan, TEXT_LIMIT, Text,
    TextList, Tokens, UnitId,
};
use std::alloc::Global;
use vhdl_lex::{no_tokens, scan_with_roles};
use vhdl_outline::Outlines;
use vhdl_scope::visible_sets;
use vhdl_units::outline;

/// There is no answer for a project. Its project file has a fault, its ends don't rise within the text, a limit is exceeded,
/// a file has a fault, its names can't be linked, or memory ran out.
#[derive(Clone, Copy)]
pub struct NothingTold;

impl From<NoMemory> for NothingTold {
    fn from(_none: NoMemory) -> NothingTold {
        NothingTold
    }
}

impl<F: Drop> From<OrMemory<F>> for NothingTold {
    fn from(_answer: OrMemory<F>) -> NothingTold {
        NothingTold
    }
}

/// The library of all files.
pub static LIBRARY: [u8; 1] = *b"l";

/// The file between two places of a text.
fn part_of(alloc: Global, text: &[u8], from: usize, end: usize) -> Result<Text, NothingTold>
    ensures part { IfOk result (λ part. part ≡ take (end - from) (drop from text.now)) }
    ensures small { IfOk result IsTextSmall }
{
    if end > text.len() {
        return Err(NothingTold);
    }
    if from > end {
        return Err(NothingTold);
    }
    if end - from > TEXT_LIMIT {
        return Err(NothingTold);
    }
    Ok(Text::from_slice(alloc, &text[from..end])?)
}

/// The files of a text, which end at places.
pub fn parts_of(alloc: Global, text: &[u8], ends: &[usize]) -> Result<TextList, NothingTold>
    ensures parts { IfOk result (λ parts. parts ≡ parts_at text.now 0 ends.now) }
    ensures small { IfOk result (All IsTextSmall) }
{
    let mut parts = TextList::new(alloc);
    let mut from = 0;
    for end in ends {
        parts.push(part_of(alloc, text, from, *end)?)?;
        from = *end;
    }
    Ok(parts)
}

/// Adds the outline of a text to those of the texts before, in memory that isn't used any more, and gives it back.
fn outline_text(
    alloc: Global,
    text: &[u8],
    roles: &mut RoleList,
    used: Tokens,
    outlines: &mut Outlines,
) -> Result<Tokens, NothingTold>
    requires { length text.now ≤ TEXT_LIMIT }
    ensures { IfOk result (λ used. HasOutlined text.now outlines.old outlines.new) }
{
    let tokens = scan_with_roles(alloc, text, roles, used)?;
    let units = outline(alloc, text, &tokens, roles)?;
    Ok(outlines.push(alloc, text, Scan { tokens, units }, roles)?)
}

/// The outlines of texts, in order.
pub fn outlines_of(alloc: Global, texts: &TextList) -> Result<Outlines, NothingTold>
    requires { All IsTextSmall texts.now }
    ensures { IfOk result (AreOutlined texts.now) }
{
    let mut outlines = Outlines::new(alloc);
    let mut roles = RoleList::new(alloc);
    let mut used = no_tokens(alloc);
    for at in 0..texts.len() {
        let text = texts.get(at).bytes();
        used = outline_text(alloc, text, &mut roles, used, &mut outlines)?;
    }
    Ok(outlines)
}

/// A file of the library, without a path.
fn file_of(alloc: Global) -> Result<ProjectFile, NoMemory>
    ensures { IfOk result (λ file. file.name.library ≡ codes "l") }
{
    Ok(ProjectFile {
        name: FileName {
            library: Text::from_slice(alloc, LIBRARY.as_slice())?,
            path: Text::new(alloc),
        },
        command: Items::new(alloc),
    })
}

/// A list of `count` files of the library.
fn files_of(alloc: Global, count: u64) -> Result<Items<ProjectFile>, NoMemory>
    ensures each { IfOk result (λ files. length files ≡ count) }
    ensures library { IfOk result (All (λ file. file.name.library ≡ codes "l")) }
{
    let mut files = Items::new(alloc);
    for _ in 0..count {
        files.push(file_of(alloc)?)?;
    }
    Ok(files)
}

/// The project of files.
fn project_of(alloc: Global, files: Items<ProjectFile>) -> Project
    ensures { result.files ≡ files }
{
    Project {
        files,
        simulator: Items::new(alloc),
        external: Items::new(alloc),
        bodies: false,
        depends: Items::new(alloc),
        listed: false,
    }
}

/// Scans each file.
pub fn scan_files(alloc: Global, text: &[u8], ends: &[usize]) -> Result<(), NothingTold>
    ensures { IfOk result (λ done. HasScans text.now ends.now) }
{
    let texts = parts_of(alloc, text, ends)?;
    outlines_of(alloc, &texts)?;
    Ok(())
}

/// Whether the first unit of the first file sees a library.
pub fn first_sees(
    alloc: Global,
    text: &[u8],
    ends: &[usize],
    library: &[u8],
) -> Result<bool, NothingTold>
    ensures { IfOk result (HasSight text.now ends.now library.now) }
{
    let texts = parts_of(alloc, text, ends)?;
    let outlines = outlines_of(alloc, &texts)?;
    let project = project_of(alloc, files_of(alloc, texts.len())?);
    if texts.is_empty() {
        return Err(NothingTold);
    }
    let sets = visible_sets(alloc, &project, &texts, &outlines)?;
    Ok(sets.sees_library(UnitId { file: 0, unit: 0 }, library))
}
