//! Projects of at most 8 files, the last of which depends on all others, and what their compilers are asked and give.

use crate::sets::{has, upto};
use base::{Graph, NoMemory};
use std::alloc::Global;
use std::test::Fail;
use tests_graphs::{Record, read_record};

/// The shape of a graph: how many files it has, and which ones each depends on.
#[derive(Clone, Copy)]
pub(super) struct Shape {
    pub count: u8,
    pub deps: [u8; 8],
}

/// A project for one build: its shape, and the sets of files that differ from the first project.
#[derive(Clone, Copy)]
pub(super) struct Project {
    pub shape: Shape,
    /// With another text, for which the compiler gives another artefact.
    pub changed: u8,
    /// With another comment, for which the compiler gives the same artefact.
    pub commented: u8,
    /// Compiled by other words, which give the same artefact.
    pub optioned: u8,
    /// In another library.
    pub moved: u8,
    /// Compiled with another artefact, though the same is asked.
    pub newer: u8,
    /// Whether the first two files, of which none depends on the other, are in the other order.
    pub swapped: bool,
}

/// The first project of a shape, without changes.
pub(super) fn first(shape: &Shape) -> Project {
    Project {
        shape: *shape,
        changed: 0,
        commented: 0,
        optioned: 0,
        moved: 0,
        newer: 0,
        swapped: false,
    }
}

/// A project of which some files have another text, for which their compilers give another artefact.
pub(super) fn change_texts(shape: &Shape, changed: u8) -> Project {
    let mut project = first(shape);
    project.changed = changed;
    project
}

/// A project of which some files have another comment.
pub(super) fn add_comments(shape: &Shape, commented: u8) -> Project {
    let mut project = first(shape);
    project.commented = commented;
    project
}

/// The files that a file depends on.
pub(super) fn deps_of(project: &Project, at: u8) -> u8 {
    project.shape.deps[(at % 8) as usize]
}

/// All files of a project.
pub(super) fn files_of(project: &Project) -> u8 {
    upto(project.shape.count)
}

/// The file at a position of the graph.
pub(super) fn file_at(project: &Project, position: u8) -> u8 {
    match position {
        0 if project.swapped => 1,
        1 if project.swapped => 0,
        _ => position,
    }
}

/// The one letter of the path of a file.
pub(super) fn letter(at: u8) -> u8 {
    b'a' + at % 8
}

/// The library of a file.
pub(super) fn library(project: &Project, at: u8) -> &'static [u8; 3] {
    if has(project.moved, at) {
        b"new"
    } else {
        b"lib"
    }
}

/// The word that compiles a file.
pub(super) fn word(project: &Project, at: u8) -> &'static [u8; 2] {
    if has(project.optioned, at) {
        b"c2"
    } else {
        b"cc"
    }
}

/// One of the digits from 1 to 4.
fn digit(one: bool, two: bool) -> u8 {
    match (one, two) {
        (false, false) => b'1',
        (true, false) => b'2',
        (false, true) => b'3',
        (true, true) => b'4',
    }
}

/// The text of a file.
pub(super) fn text(project: &Project, at: u8) -> u8 {
    digit(has(project.changed, at), has(project.commented, at))
}

/// What the compiler of a file gives, after the letter of the file. Comments are of no matter to it.
pub(super) fn artefact_of(project: &Project, at: u8) -> u8 {
    digit(has(project.changed, at), has(project.newer, at))
}

/// Adds a text after its length as four bytes, the low one first; the texts of the tests are short.
fn put(out: &mut Vec<u8>, text: &[u8]) -> Result<(), NoMemory> {
    put_number(out, (text.len() % 256) as u8)?;
    out.extend_from_slice(text)?;
    Ok(())
}

fn put_number(out: &mut Vec<u8>, number: u8) -> Result<(), NoMemory> {
    out.extend_from_slice(&[number, 0, 0, 0])?;
    Ok(())
}

fn put_name(out: &mut Vec<u8>, project: &Project, at: u8) -> Result<(), NoMemory> {
    put(out, library(project, at))?;
    put(out, &[letter(at)])
}

fn put_count(out: &mut Vec<u8>, set: u8) -> Result<(), NoMemory> {
    let mut count = 0u8;
    for at in 0..8u8 {
        if has(set, at) {
            count = count.wrapping_add(1);
        }
    }
    put_number(out, count)
}

/// Adds the positions of some files, after their number.
fn put_positions(out: &mut Vec<u8>, project: &Project, files: u8) -> Result<(), NoMemory> {
    put_count(out, files)?;
    for position in 0..8u8 {
        if has(files, file_at(project, position)) {
            put_number(out, position)?;
        }
    }
    Ok(())
}

fn put_file(out: &mut Vec<u8>, project: &Project, at: u8) -> Result<(), NoMemory> {
    put_name(out, project, at)?;
    put_number(out, 1)?;
    put(out, word(project, at))?;
    put(out, &[text(project, at)])?;
    put_positions(out, project, deps_of(project, at))
}

/// The bytes of a record whose view is the graph.
fn bytes_of(alloc: Global, project: &Project) -> Result<Vec<u8>, NoMemory> {
    let mut out = Vec::new(alloc);
    put_number(&mut out, project.shape.count)?;
    for position in 0..project.shape.count {
        put_file(&mut out, project, file_at(project, position))?;
    }
    put(&mut out, b"")?;
    Ok(out)
}

/// The graph of a project.
pub(super) fn graph_of(alloc: Global, project: &Project) -> Result<Graph, Fail> {
    let bytes = bytes_of(alloc, project)?;
    let Some(Record { view, artefact: _ }) = read_record(alloc, bytes.as_slice())? else {
        return Err(Fail::from("the bytes are a record"));
    };
    Ok(view)
}

/// What the compiler of a file is handed, where each file has its letter and one of these as its artefact.
pub(super) fn input_of(
    alloc: Global,
    project: &Project,
    made: &[u8; 8],
    at: u8,
) -> Result<Vec<u8>, NoMemory> {
    let mut out = Vec::new(alloc);
    out.extend_from_slice(b"VRC1")?;
    put_name(&mut out, project, at)?;
    put(&mut out, &[text(project, at)])?;
    let deps = deps_of(project, at);
    put_count(&mut out, deps)?;
    for position in 0..8u8 {
        let dep = file_at(project, position);
        if has(deps, dep) {
            put_name(&mut out, project, dep)?;
            put(&mut out, &[letter(dep), made[(dep % 8) as usize]])?;
        }
    }
    Ok(out)
}

/// The file whose compiler gets this input, or 8 for the input of no file.
pub(super) fn file_of(input: &[u8]) -> u8 {
    if input.len() < 16 || input[15] < b'a' || input[15] > b'h' {
        return 8;
    }
    input[15] - b'a'
}
