//! The locations of a refusal.

use crate::cycles::push_cycle;
use crate::locations::{is_of_library, push_location, source_of};
use crate::missing::push_missing;
use crate::{reference_at, unit_at};
use base::{FileName, NoMemory};
use base_outcomes::Refusal;
use std::alloc::Global;

/// Adds the locations that a refusal of sources is about.
pub fn push_source_locations(
    rt: &HostRuntime,
    lines: &mut Vec<Vec<u8>>,
    refusal: &Refusal,
) -> Result<(), NoMemory> {
    match refusal {
        Refusal::MissingUnit {
            file,
            library,
            unit,
        } => {
            push_reference(rt, lines, file, library.bytes(), unit.bytes(), b"no unit ")?;
            push_missing(rt, lines, file, library.bytes(), unit.bytes())
        }
        Refusal::MissingArchitecture {
            file,
            library,
            entity,
            architecture,
        } => {
            let mut words = Vec::from_slice(rt.alloc(), b"no architecture ")?;
            words.extend_from_slice(architecture.bytes())?;
            words.extend_from_slice(b" of ")?;
            let words = words.as_slice();
            push_reference(rt, lines, file, library.bytes(), entity.bytes(), words)
        }
        Refusal::DuplicateUnit {
            unit,
            first,
            second,
        } => push_both(rt, lines, unit.bytes(), first, second),
        Refusal::Cycle { files } => push_cycle(rt, lines, files.as_slice()),
        _ => Ok(()),
    }
}

/// The words that name a unit.
fn about(alloc: Global, words: &[u8], library: &[u8], unit: &[u8]) -> Result<Vec<u8>, NoMemory> {
    let mut text = Vec::from_slice(alloc, words)?;
    text.extend_from_slice(library)?;
    text.push(b'.')?;
    text.extend_from_slice(unit)?;
    Ok(text)
}

/// Adds where a file names a unit that isn't there.
fn push_reference(
    rt: &HostRuntime,
    lines: &mut Vec<Vec<u8>>,
    file: &FileName,
    library: &[u8],
    unit: &[u8],
    words: &[u8],
) -> Result<(), NoMemory> {
    let path = file.path.bytes();
    let Some(source) = source_of(rt, path)? else {
        return Ok(());
    };
    let is_own = is_of_library(file, library);
    let Some(at) = reference_at(source.words.as_slice(), library, unit, is_own) else {
        return Ok(());
    };
    let words = about(rt.alloc(), words, library, unit)?;
    push_location(rt, lines, path, &source, at, words.as_slice())
}

/// Adds where both declarations of a unit are.
fn push_both(
    rt: &HostRuntime,
    lines: &mut Vec<Vec<u8>>,
    unit: &[u8],
    first: &FileName,
    second: &FileName,
) -> Result<(), NoMemory> {
    let is_one_file = first.path.bytes() == second.path.bytes();
    push_declaration(rt, lines, unit, first, 0)?;
    push_declaration(rt, lines, unit, second, if is_one_file { 1 } else { 0 })
}

fn push_declaration(
    rt: &HostRuntime,
    lines: &mut Vec<Vec<u8>>,
    unit: &[u8],
    file: &FileName,
    number: usize,
) -> Result<(), NoMemory> {
    let path = file.path.bytes();
    let Some(source) = source_of(rt, path)? else {
        return Ok(());
    };
    let Some(at) = unit_at(source.words.as_slice(), unit, number) else {
        return Ok(());
    };
    let mut words = Vec::from_slice(rt.alloc(), unit)?;
    words.extend_from_slice(b" is declared here")?;
    push_location(rt, lines, path, &source, at, words.as_slice())
}
