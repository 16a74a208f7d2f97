//! Project files of a few lines, and what each says.

use crate::tests::projects::expand_lines;
use base::{NoMemory, OrMemory, ProjectFault, ProjectFile};
use project_file::read_csv_project;
use std::alloc::Global;
use std::process::Abort;
use std::test::Fail;

/// A line each: the bytes of a project file, where a bar is an end of a line, and after a `~` the files that they say, each
/// with a semicolon, or the first fault.
static ROWS: &str = "~
\r| Lib_1 ,\ta/b.vhd ||lib_1,c.vhd\r|other,c.vhd~lib_1,a/b.vhd;lib_1,c.vhd;other,c.vhd;
lib,a.vhd|LIB,a.vhd|work,b.vhd~file lib, a.vhd
||Work,a.vhd~work
lib,a.vhd,b.vhd~line 1
lib,a/./b.vhd~line 1
1lib,a.vhd~line 1
";

fn files_of(alloc: Global, files: &[ProjectFile]) -> Result<Vec<u8>, NoMemory> {
    let mut out = Vec::new(alloc);
    for file in files {
        out.extend_from_slice(file.name.library.bytes())?;
        out.push(b',')?;
        out.extend_from_slice(file.name.path.bytes())?;
        out.push(b';')?;
    }
    Ok(out)
}

/// A fault in words.
fn words_of(alloc: Global, fault: &ProjectFault) -> Result<Vec<u8>, NoMemory> {
    let mut out = Vec::new(alloc);
    match fault {
        ProjectFault::BadLine { line } => {
            let words = format!(in alloc; "line {line}")?;
            out.extend_from_slice(words.as_bytes())?;
        }
        ProjectFault::WorkLibrary => out.extend_from_slice(b"work")?,
        ProjectFault::DuplicateFile { name } => {
            out.extend_from_slice(b"file ")?;
            out.extend_from_slice(name.library.bytes())?;
            out.extend_from_slice(b", ")?;
            out.extend_from_slice(name.path.bytes())?;
        }
        _ => out.push(b'?')?,
    }
    Ok(out)
}

/// What a project file says, where it is a short one.
fn text_of_lines(alloc: Global, bytes: &[u8]) -> Result<Vec<u8>, NoMemory> {
    if bytes.len() > 1000 {
        return Ok(Vec::new(alloc));
    }
    match read_csv_project(alloc, bytes) {
        Ok(project) => files_of(alloc, project.files.as_slice()),
        Err(OrMemory::NoMemory) => Err(NoMemory),
        Err(OrMemory::Fault(fault)) => words_of(alloc, &fault),
    }
}

fn says(alloc: Global, bytes: &[u8], wanted: &[u8]) -> Result<bool, NoMemory> {
    Ok(text_of_lines(alloc, bytes)?.as_slice() == wanted)
}

/// Whether the project file of a line says what stands there.
fn is_right(alloc: Global, line: &str) -> Result<bool, Fail> {
    match line.split_once('~') {
        Some((bytes, wanted)) => {
            let bytes = expand_lines(alloc, bytes.as_bytes())?;
            Ok(says(alloc, bytes.bytes(), wanted.as_bytes())?)
        }
        None => Ok(false),
    }
}

#[test]
fn each_file_says_its_project(rt: HostRuntime) -> Result<(), Fail> {
    for line in ROWS.lines() {
        assert!(rt; is_right(rt.alloc(), line)?, "{line}");
    }
    Ok(())
}
