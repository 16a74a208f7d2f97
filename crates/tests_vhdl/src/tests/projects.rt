//! Files of a project, and the outlines of their texts, as all tests here make them.

ghost use Rattle.std.specs.Prelude.{◌≤◌, length, IfOk, IsTrue};
ghost use Rattle.std.specs.List.{All};
ghost use Rattle.vhdl_outline.specs.Outlines.{AreOutlined};
ghost use Rattle.vhdl_outline.specs.Roles.{IsTextSmall};
ghost use Rattle.tests_vhdl.specs.Outlines.{HasOutlined};

use base::{
    FileName, Items, Project, ProjectFile, ProjectFileList, RoleList, Scan, TEXT_LIMIT, Text,
    TextList, Tokens,
};
use std::alloc::Global;
use std::test::Fail;
use vhdl_lex::{no_tokens, scan_with_roles};
use vhdl_outline::Outlines;
use vhdl_units::outline;

/// Adds the outline of a text to those of the texts before, in memory that isn't used any more, and gives it back.
fn outline_text(
    alloc: Global,
    text: &[u8],
    roles: &mut RoleList,
    used: Tokens,
    outlines: &mut Outlines,
) -> Result<Tokens, Fail>
    requires { length text.now ≤ TEXT_LIMIT }
    ensures { IfOk result (λ used. HasOutlined text.now outlines.old outlines.new) }
{
    let tokens = scan_with_roles(alloc, text, roles, used)?;
    let units = outline(alloc, text, &tokens, roles)?;
    Ok(outlines.push(alloc, text, Scan { tokens, units }, roles)?)
}

/// The outlines of texts, in order.
pub fn outlines_of(alloc: Global, texts: &TextList) -> Result<Outlines, Fail>
    requires { All IsTextSmall texts.now }
    ensures { IfOk result (AreOutlined texts.now) }
{
    let mut outlines = Outlines::new(alloc);
    let mut roles = RoleList::new(alloc);
    let mut used = no_tokens(alloc);
    for at in 0..texts.len() {
        let text = texts.get(at).bytes();
        used = outline_text(alloc, text, &mut roles, used, &mut outlines)?;
    }
    Ok(outlines)
}

/// Whether each text has a length that can be scanned.
pub fn are_small(texts: &TextList) -> bool
    ensures { IsTrue result → All IsTextSmall texts.now }
{
    texts
        .as_slice()
        .iter()
        .all(|text| text.bytes().len() <= TEXT_LIMIT)
}

/// A file of a library.
pub fn file_of(alloc: Global, library: &[u8], path: &[u8]) -> Result<ProjectFile, Fail> {
    Ok(ProjectFile {
        name: FileName {
            library: Text::from_slice(alloc, library)?,
            path: Text::from_slice(alloc, path)?,
        },
        command: Items::new(alloc),
    })
}

/// Adds a file of a library, with its text.
pub fn add(
    alloc: Global,
    list: &mut ProjectFileList,
    texts: &mut TextList,
    library: &[u8],
    path: &[u8],
    text: Text,
) -> Result<(), Fail> {
    texts.push(text)?;
    list.push(file_of(alloc, library, path)?)?;
    Ok(())
}

/// A project of nothing but these files.
pub fn project_with(alloc: Global, files: ProjectFileList) -> Project {
    Project {
        files,
        simulator: Items::new(alloc),
        external: Items::new(alloc),
        bodies: false,
        depends: Items::new(alloc),
        listed: false,
    }
}

/// Adds a file: its library, its path before a `%`, and its text before another one.
fn add_parts(
    alloc: Global,
    list: &mut ProjectFileList,
    texts: &mut TextList,
    file: &[u8],
) -> Result<(), Fail> {
    let mut parts = file.split(|b| *b == b'%');
    let library = parts.next().unwrap_or(b"");
    let path = parts.next().unwrap_or(b"");
    let text = Text::from_slice(alloc, parts.next().unwrap_or(b""))?;
    add(alloc, list, texts, library, path, text)
}

/// The files that are parted by `#`, and their texts.
pub fn files_of(alloc: Global, files: &[u8]) -> Result<(ProjectFileList, TextList), Fail> {
    let mut list = Items::new(alloc);
    let mut texts = TextList::new(alloc);
    for file in files.split(|b| *b == b'#') {
        add_parts(alloc, &mut list, &mut texts, file)?;
    }
    Ok((list, texts))
}
