//! A project file of lines, each a library, a comma and a path.

ghost use Rattle.std.specs.Prelude.{◌≡◌, ◌==◌, ◌+◌, ◌<◌, ◌≤◌, ◌^◌, [], ◌∷◌, length, map, reverse, count_by, List, IfOk, OnOk};
ghost use Rattle.std.specs.List.{list_all, list_any, slice_split, before_first, after_first};
ghost use Rattle.std.specs.Char.{to_ascii_lowercase};
ghost use Rattle.std.specs.Str.{is_utf8, bytes_eq};
ghost use Rattle.std.specs.Str.Lines.{lines};
ghost use Rattle.project_file.specs.Csv.{is_library, is_library_byte, is_path, is_path_byte, is_component, has_components, has_path_bytes, begins_with_letter, is_line_blank, without_blanks, trim, names_file, csv_file_of, name_fault, added_by, csv_files, csv_project, listed_file, listed_project};
ghost use Rattle.base.specs.declared.file.FileName.{FileName};
ghost use Rattle.base.specs.Projects.{IsProject};
ghost use Rattle.base_collections.specs.Names.{Holds};
ghost use Rattle.project_file.specs.NewNames.{AddsName, Admits};
ghost use Rattle.project_file.specs.Steps.{TakesLine, ReadsStep};

use crate::parts::{cut_at, next_line, sides};
use base::{
    FileList, FileName, LIBRARY_LIMIT, NoMemory, OrMemory, PATH_LIMIT, PairList, Project,
    ProjectFault, ProjectFile, ProjectFileList, Text, TextList,
};
use base_collections::NameSet;
use std::alloc::Global;

/// Whether two texts have the same bytes.
pub fn is_same(a: &[u8], b: &[u8]) -> bool
    ensures { result ≡ bytes_eq a.now b.now }
{
    a == b
}

/// Whether an ASCII letter comes first.
fn begins_with_letter(name: &[u8]) -> bool
    ensures { result ≡ begins_with_letter name.now }
{
    match name {
        [first, ..] => first.is_ascii_alphabetic(),
        [] => false,
    }
}

/// Whether a byte may stand in the name of a library.
fn is_library_byte(byte: u8) -> bool
    ensures { result ≡ is_library_byte byte }
{
    byte.is_ascii_alphabetic() || byte.is_ascii_digit() || byte == b'_'
}

/// Whether each byte may stand in the name of a library.
fn all_library_bytes(name: &[u8]) -> bool
    ensures { result ≡ list_all is_library_byte name.now }
{
    name.iter().all(|byte| is_library_byte(*byte))
}

/// Whether a text may be the name of a library of a project file.
pub fn is_library(name: &[u8]) -> bool
    ensures { result ≡ is_library name.now }
{
    begins_with_letter(name) && all_library_bytes(name) && name.len() <= LIBRARY_LIMIT
}

/// Whether a byte may stand in a path.
fn is_path_byte(byte: u8) -> bool
    ensures { result ≡ is_path_byte byte }
{
    b' ' <= byte && byte != b'\x7f'
}

/// Whether a text may stand between the slashes of a path.
fn is_component(part: &[u8]) -> bool
    ensures { result ≡ is_component part.now }
{
    !is_same(part, b"") && !is_same(part, b".") && !is_same(part, b"..")
}

/// Whether bytes are UTF-8.
pub fn is_utf8(bytes: &[u8]) -> bool
    ensures { result ≡ is_utf8 bytes.now }
{
    str::from_utf8(bytes).is_ok()
}

/// Whether each part between slashes may stand there.
fn has_components(path: &[u8]) -> bool
    ensures { result ≡ has_components path.now }
{
    let mut rest = path;
    while let Some((part, others)) = cut_at(rest, b'/') {
        if !is_component(part) {
            return false;
        }
        rest = others;
    }
    is_component(rest)
}

/// Whether each byte may stand in a path.
fn all_path_bytes(path: &[u8]) -> bool
    ensures { result ≡ list_all is_path_byte path.now }
{
    path.iter().all(|byte| is_path_byte(*byte))
}

/// Whether a path has 1 to 1,024 bytes that may all stand there.
fn has_path_bytes(path: &[u8]) -> bool
    ensures { result ≡ has_path_bytes path.now }
{
    1 <= path.len() && path.len() <= PATH_LIMIT && all_path_bytes(path)
}

/// Whether a text may be the path of a file of a project.
pub fn is_path(path: &[u8]) -> bool
    ensures { result ≡ is_path path.now }
{
    has_path_bytes(path) && has_components(path) && is_utf8(path)
}

/// Whether a byte is a space or a tab.
fn is_line_blank(byte: u8) -> bool
    ensures { result ≡ is_line_blank byte }
{
    byte == b' ' || byte == b'\t'
}

/// The bytes after the leading spaces and tabs.
fn without_blanks(bytes: &[u8]) -> &[u8]
    ensures { result.now ≡ without_blanks bytes.now }
{
    let mut rest = bytes;
    while let [first, others @ ..] = rest {
        if !is_line_blank(*first) {
            return rest;
        }
        rest = others;
    }
    rest
}

/// The bytes before the spaces and tabs at the end.
fn without_blanks_after(bytes: &[u8]) -> &[u8]
    ensures { result.now ≡ reverse (without_blanks (reverse bytes.now)) }
{
    let mut rest = bytes;
    while let [others @ .., last] = rest {
        if !is_line_blank(*last) {
            return rest;
        }
        rest = others;
    }
    rest
}

/// The bytes in lower case.
pub fn to_lower_case(alloc: Global, bytes: &[u8]) -> Result<Text, NoMemory>
    ensures { IfOk result (λ text. text ≡ map to_ascii_lowercase bytes.now) }
{
    let mut lowered = Vec::new(alloc);
    for byte in bytes {
        lowered.push(byte.to_ascii_lowercase())?;
    }
    Ok(Text::from_vec(lowered))
}

/// The bytes without spaces and tabs at both ends.
fn trim(bytes: &[u8]) -> &[u8]
    ensures { result.now ≡ trim bytes.now }
{
    without_blanks_after(without_blanks(bytes))
}

/// How often a byte stands in a line.
fn count_of(bytes: &[u8], delimiter: u8) -> usize
    ensures { result ≡ count_by (λ byte. byte == delimiter) bytes.now }
{
    bytes.iter().filter(|byte| **byte == delimiter).count()
}

/// Whether a byte stands in a line.
fn has_byte(bytes: &[u8], delimiter: u8) -> bool
    ensures { result ≡ list_any (λ byte. byte == delimiter) bytes.now }
{
    bytes.iter().any(|byte| *byte == delimiter)
}

/// Whether a line names a file, by its two sides.
fn names_file(line: &[u8], library: &[u8], path: &[u8]) -> bool
    ensures { result ≡ names_file line.now library.now path.now }
{
    count_of(line, b',') == 1 && !has_byte(line, b'"') && is_library(library) && is_path(path)
}

/// The file that a line names.
#[tactic(auto, unfolding(crate::specs::Csv::csv_file_of))]
fn csv_file_of(alloc: Global, line: &[u8]) -> Result<Option<FileName>, NoMemory>
    ensures { IfOk result (λ name. name ≡ csv_file_of line.now) }
{
    let (before, after) = sides(line, b',');
    let library = trim(before);
    let path = trim(after);
    if !names_file(line, library, path) {
        return Ok(None);
    }
    Ok(Some(FileName {
        library: to_lower_case(alloc, library)?,
        path: Text::from_slice(alloc, path)?,
    }))
}

/// Admits a name after those before it, which the set holds. It then holds this name too.
#[tactic(auto, unfolding(crate::specs::Csv::name_fault))]
fn admit(alloc: Global, seen: &mut NameSet, name: &FileName) -> Result<(), OrMemory<ProjectFault>>
    ensures { (before : List FileName) → Holds seen.old before →
        Admits seen.new before name.now (name_fault before name.now) result }
{
    if is_same(name.library.bytes(), b"work") {
        return Err(OrMemory::Fault(ProjectFault::WorkLibrary));
    }
    if seen.add(name)? {
        return Ok(());
    }
    let name = name.copy(alloc)?;
    Err(OrMemory::Fault(ProjectFault::DuplicateFile { name }))
}

/// The file that a line of this number adds to those before it, which the set holds.
#[tactic(auto, unfolding(crate::specs::Csv::added_by))]
fn added_by(
    alloc: Global,
    seen: &mut NameSet,
    number: u32,
    line: &[u8],
) -> Result<FileName, OrMemory<ProjectFault>>
    ensures { (before : List FileName) → Holds seen.old before →
        AddsName seen.new before (added_by before number line.now) result }
{
    match csv_file_of(alloc, line)? {
        None => Err(OrMemory::Fault(ProjectFault::BadLine { line: number })),
        Some(name) => {
            admit(alloc, seen, &name)?;
            Ok(name)
        }
    }
}

/// Takes one line, after the files of those before it.
#[tactic(auto, unfolding(crate::specs::Csv::files_after))]
fn take_line(
    alloc: Global,
    files: &mut FileList,
    seen: &mut NameSet,
    number: u32,
    line: &[u8],
) -> Result<(), OrMemory<ProjectFault>>
    ensures taken { Holds seen.old files.old →
        TakesLine files.old number line.now result files.new }
    ensures seen { Holds seen.old files.old → OnOk result (Holds seen.new files.new) }
{
    if line.is_empty() {
        return Ok(());
    }
    let name = added_by(alloc, seen, number, line)?;
    Ok(files.push(name)?)
}

/// The files that the bytes list, or the first fault.
fn read_files(alloc: Global, bytes: &[u8]) -> Result<FileList, OrMemory<ProjectFault>>
    requires { length bytes.now < 2 ^ 31 }
    ensures { ReadsStep (csv_files bytes.now) result }
{
    let mut files = FileList::new(alloc);
    let mut seen = NameSet::new(alloc);
    let mut rest = bytes;
    let mut number = 1;
    'lines: loop {
        match next_line(rest) {
            None => return Ok(files),
            Some((line, after)) => {
                take_line(alloc, &mut files, &mut seen, number, line)?;
                rest = after;
                number += 1;
            }
        }
    }
}

/// The words of a command.
pub fn words(alloc: Global, first: &[u8], second: &[u8]) -> Result<TextList, NoMemory>
    ensures { IfOk result (λ words. words ≡ first.now ∷ second.now ∷ []) }
{
    let mut words = TextList::new(alloc);
    words.push(Text::from_slice(alloc, first)?)?;
    words.push(Text::from_slice(alloc, second)?)?;
    Ok(words)
}

/// The files with the command of a listed file.
fn with_commands(alloc: Global, names: FileList) -> Result<ProjectFileList, NoMemory>
    ensures { IfOk result (λ files. files ≡ map listed_file names) }
{
    let mut files = ProjectFileList::new(alloc);
    for name in names.into_vec() {
        let command = words(alloc, b"@self", b"child-analyse")?;
        files.push(ProjectFile { name, command })?;
    }
    Ok(files)
}

/// The project of the files with these names, compiled and simulated by the program itself.
fn listed_project(alloc: Global, names: FileList) -> Result<Project, NoMemory>
    ensures { IfOk result (λ project. project ≡ listed_project names) }
{
    Ok(Project {
        files: with_commands(alloc, names)?,
        simulator: words(alloc, b"@self", b"child-bench")?,
        external: TextList::new(alloc),
        bodies: false,
        depends: PairList::new(alloc),
        listed: true,
    })
}

/// The project that the bytes of a project file of lines say, or its first fault. Lines end at a line feed, and
/// a carriage return before it is dropped.
pub fn read_csv_project(alloc: Global, bytes: &[u8]) -> Result<Project, OrMemory<ProjectFault>>
    requires { length bytes.now < 2 ^ 31 }
    ensures project { ReadsStep (csv_project bytes.now) result }
    ensures valid { IfOk result IsProject }
{
    let names = read_files(alloc, bytes)?;
    Ok(listed_project(alloc, names)?)
}
