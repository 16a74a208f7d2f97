//! The other units of a project that are missing.

use crate::locations::{Source, push_location, source_of};
use crate::{Pattern, declared_units, is_matched, patterns_of, project_text, unresolved};
use base::{FileName, NAME_LIMIT, NoMemory, Text};
use outside::{NamesEnd, Tree};
use std::alloc::Global;
use std::collections::BTreeSet;
use system_files::FileTree;

/// How many pairs of a name and a pattern are tried at most.
const TRIES: usize = 200_000;

/// How many missing units are shown.
const SHOWN: usize = 100;

/// A file of a project, and its source.
#[derive(Drop)]
struct Read {
    library: Vec<u8>,
    path: Vec<u8>,
    source: Source,
}

/// Adds where any other unit is named that a library of the project hasn't. The one that was found first is named before.
pub fn push_missing(
    rt: &HostRuntime,
    lines: &mut Vec<Vec<u8>>,
    first: &FileName,
    library: &[u8],
    unit: &[u8],
) -> Result<(), NoMemory> {
    let alloc = rt.alloc();
    let files = files_of(rt)?;
    let units = units_of(alloc, files.as_slice())?;
    let mut told = BTreeSet::new(alloc);
    told.insert(key_of(alloc, library, unit, first.path.bytes())?)?;
    for file in &files {
        push_of_file(rt, lines, file, &units, &mut told)?;
    }
    Ok(())
}

/// The names of the units of all files, each after its library and a zero byte.
fn units_of(alloc: Global, files: &[Read]) -> Result<BTreeSet<Vec<u8>>, NoMemory> {
    let mut units = BTreeSet::new(alloc);
    for file in files {
        units.insert(key_of(alloc, file.library.as_slice(), b"", b"")?)?;
        for unit in declared_units(alloc, file.source.words.as_slice())? {
            units.insert(key_of(alloc, file.library.as_slice(), unit, b"")?)?;
        }
    }
    Ok(units)
}

fn key_of(alloc: Global, a: &[u8], b: &[u8], c: &[u8]) -> Result<Vec<u8>, NoMemory> {
    let mut key = Vec::from_slice(alloc, a)?;
    key.push(0)?;
    key.extend_from_slice(b)?;
    key.push(0)?;
    key.extend_from_slice(c)?;
    Ok(key)
}

fn push_of_file(
    rt: &HostRuntime,
    lines: &mut Vec<Vec<u8>>,
    file: &Read,
    units: &BTreeSet<Vec<u8>>,
    told: &mut BTreeSet<Vec<u8>>,
) -> Result<(), NoMemory> {
    let alloc = rt.alloc();
    for mention in unresolved(alloc, file.source.words.as_slice())? {
        let library = if mention.library == b"work".as_slice() {
            file.library.as_slice()
        } else {
            mention.library
        };
        let is_known = units.contains(&key_of(alloc, library, b"", b"")?);
        let is_there = units.contains(&key_of(alloc, library, mention.unit, b"")?);
        if told.len() > SHOWN {
            return Ok(());
        }
        if is_known && !is_there {
            let key = key_of(alloc, library, mention.unit, file.path.as_slice())?;
            if told.insert(key)? {
                let mut words = Vec::from_slice(alloc, b"no unit ")?;
                words.extend_from_slice(library)?;
                words.push(b'.')?;
                words.extend_from_slice(mention.unit)?;
                let path = file.path.as_slice();
                push_location(rt, lines, path, &file.source, mention.at, words.as_slice())?;
            }
        }
    }
    Ok(())
}

/// The files of the project by `vunit.toml`, with their sources; none where there are too many names and patterns.
fn files_of(rt: &HostRuntime) -> Result<Vec<Read>, NoMemory> {
    let alloc = rt.alloc();
    let mut files = Vec::new(alloc);
    let Some(project) = project_text(rt) else {
        return Ok(files);
    };
    let patterns = patterns_of(alloc, &project)?;
    let names = names_of(rt)?;
    if names.len().saturating_mul(patterns.len()) > TRIES {
        return Ok(files);
    }
    for pattern in &patterns {
        for name in &names {
            push_file(rt, &mut files, pattern, name)?;
        }
    }
    Ok(files)
}

fn push_file(
    rt: &HostRuntime,
    files: &mut Vec<Read>,
    pattern: &Pattern,
    name: &Text,
) -> Result<(), NoMemory> {
    let alloc = rt.alloc();
    if !is_matched(alloc, pattern.project.as_slice(), name.bytes())? {
        return Ok(());
    }
    if let Some(source) = source_of(rt, name.bytes())? {
        files.push(Read {
            library: Vec::from_slice(alloc, pattern.library.as_slice())?,
            path: Vec::from_slice(alloc, name.bytes())?,
            source,
        })?;
    }
    Ok(())
}

/// The names of all files below the present folder.
fn names_of(rt: &HostRuntime) -> Result<Vec<Text>, NoMemory> {
    let mut tree = FileTree::new(rt.alloc(), *rt)?;
    match tree.names(rt.alloc(), NAME_LIMIT as u64) {
        Ok(NamesEnd::Got(names)) => Ok(names.into_vec()),
        _ => Ok(Vec::new(rt.alloc())),
    }
}
