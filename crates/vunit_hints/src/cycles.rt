//! Where each file of a cycle names the next.

use crate::locations::{Source, is_of_library, push_location, source_of};
use crate::{declared_units, reference_at};
use base::{FileName, NoMemory};

/// Adds for each file of a cycle where it names a unit of the next.
pub fn push_cycle(
    rt: &HostRuntime,
    lines: &mut Vec<Vec<u8>>,
    files: &[FileName],
) -> Result<(), NoMemory> {
    for i in 0..files.len() {
        let next = i.saturating_add(1);
        let used = if next < files.len() { next } else { 0 };
        if let (Some(user), Some(used)) = (files.get(i), files.get(used)) {
            push_edge(rt, lines, user, used)?;
        }
    }
    Ok(())
}

fn push_edge(
    rt: &HostRuntime,
    lines: &mut Vec<Vec<u8>>,
    user: &FileName,
    used: &FileName,
) -> Result<(), NoMemory> {
    let Some(from) = source_of(rt, user.path.bytes())? else {
        return Ok(());
    };
    let Some(to) = source_of(rt, used.path.bytes())? else {
        return Ok(());
    };
    let is_own = is_of_library(user, used.library.bytes());
    for unit in declared_units(rt.alloc(), to.words.as_slice())? {
        if let Some(at) = reference_at(from.words.as_slice(), used.library.bytes(), unit, is_own) {
            return push_use(rt, lines, user, &from, at, used);
        }
    }
    Ok(())
}

fn push_use(
    rt: &HostRuntime,
    lines: &mut Vec<Vec<u8>>,
    user: &FileName,
    from: &Source,
    at: usize,
    used: &FileName,
) -> Result<(), NoMemory> {
    let mut words = Vec::from_slice(rt.alloc(), b"use of ")?;
    words.extend_from_slice(used.library.bytes())?;
    words.extend_from_slice(b", ")?;
    words.extend_from_slice(used.path.bytes())?;
    push_location(rt, lines, user.path.bytes(), from, at, words.as_slice())
}
