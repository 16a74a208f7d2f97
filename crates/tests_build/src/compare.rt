//! Builds are compared with a plain build that is fed the same ends.

use crate::kept::AllKept;
use crate::objects::{Told, told_build};
use crate::plain::{Plain, Way, plain_build, status_of};
use crate::shapes::{Project, artefact_of, file_at, letter, library};
use base::NoMemory;
use memory_outside::MemDisk;
use std::alloc::Global;
use std::process::Abort;
use std::test::Fail;

/// The statuses of a plain build.
pub(super) fn plain_statuses(
    alloc: Global,
    plain: &Plain,
    project: &Project,
    keep_going: bool,
) -> Result<Vec<u8>, NoMemory> {
    let mut statuses = Vec::new(alloc);
    for position in 0..project.shape.count {
        statuses.push(status_of(plain, keep_going, file_at(project, position)))?;
    }
    Ok(statuses)
}

/// The artefacts of a plain build, where each file is made.
fn plain_whole(alloc: Global, plain: &Plain, project: &Project) -> Result<Vec<u8>, NoMemory> {
    let mut whole = Vec::new(alloc);
    for position in 0..project.shape.count {
        let at = file_at(project, position);
        let made = plain.made[(at % 8) as usize];
        if made == 0 {
            return Ok(Vec::new(alloc));
        }
        whole.push(letter(at))?;
        whole.push(made)?;
    }
    Ok(whole)
}

/// What is printed of a file with this status.
fn put_file_line(out: &mut Vec<u8>, project: &Project, at: u8, status: u8) -> Result<(), NoMemory> {
    if status == b'f' || status == b'l' {
        return Ok(());
    }
    out.extend_from_slice(b"Compiling into ")?;
    out.extend_from_slice(library(project, at))?;
    out.extend_from_slice(&[b':', b' ', letter(at)])?;
    if status == b'c' {
        out.extend_from_slice(b" passed\n")?;
    } else if status == b's' {
        out.extend_from_slice(b" skipped\n")?;
    } else {
        out.extend_from_slice(b" failed\n")?;
        out.extend_from_slice(&[letter(at), artefact_of(project, at), b'\n'])?;
    }
    Ok(())
}

/// The last line that is printed of these statuses.
fn last_line(statuses: &[u8]) -> &'static [u8] {
    if statuses.contains(&b'r') {
        return b"Compile failed\n";
    }
    if statuses.contains(&b'c') {
        return b"Compile passed\n";
    }
    b"Re-compile not needed\n"
}

/// What is printed of these statuses, which are those of the files in order.
fn plain_text(alloc: Global, project: &Project, statuses: &[u8]) -> Result<Vec<u8>, NoMemory> {
    let mut out = Vec::new(alloc);
    for position in 0..8u8 {
        if (position as usize) < statuses.len() {
            let at = file_at(project, position);
            put_file_line(&mut out, project, at, statuses[position as usize])?;
        }
    }
    out.extend_from_slice(last_line(statuses))?;
    Ok(out)
}

/// Whether the build started, answered and would print what the plain one did.
pub(super) fn agree(
    alloc: Global,
    told: &Told,
    plain: &Plain,
    project: &Project,
    keep_going: bool,
) -> Result<bool, NoMemory> {
    if told.events.as_slice() != plain.events.as_slice() {
        return Ok(false);
    }
    if plain.fault.is_some() {
        return Ok(told.fault == plain.fault);
    }
    let statuses = plain_statuses(alloc, plain, project, keep_going)?;
    let whole = plain_whole(alloc, plain, project)?;
    let printed = plain_text(alloc, project, statuses.as_slice())?;
    Ok(
        told.fault.is_none()
            && told.statuses.as_slice() == statuses.as_slice()
            && told.whole.as_slice() == whole.as_slice()
            && told.text.as_slice() == printed.as_slice(),
    )
}

/// Builds a project over a disk that has these records, as the plain build does.
pub(super) fn build_alike(
    rt: &impl Abort,
    alloc: Global,
    project: &Project,
    kept: &AllKept,
    way: &Way,
    disk: &mut MemDisk,
) -> Result<Plain, Fail> {
    let plain = plain_build(alloc, project, kept, way)?;
    let told = told_build(rt, alloc, project, &plain.made, way, disk)?;
    assert!(rt; agree(alloc, &told, &plain, project, way.keep_going)?);
    Ok(plain)
}
