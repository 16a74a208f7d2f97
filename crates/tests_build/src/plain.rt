//! A plain build over lists. It skips each file that is made, or whose record is current over files that are made. It starts the
//! first file that is ready while a slot is free, and else waits for an end.

use crate::kept::{AllKept, current, keep};
use crate::picks::take_child;
use crate::sets::{has, with};
use crate::shapes::{Project, artefact_of, deps_of, file_at};
use base::NoMemory;
use run_spec::RunFault;
use std::alloc::Global;

/// Past all calls.
pub(super) const NEVER: u32 = 1000;

/// How a build goes: its slots, the files that are refused, which child each wait takes, and the calls that fail.
#[derive(Clone, Copy)]
pub(super) struct Way {
    pub limit: u32,
    pub keep_going: bool,
    pub refused: u8,
    /// Four bits a wait, the low ones first: the index among the running children, in order of their starts.
    pub picks: u32,
    /// The start or wait that fails, counted from 0.
    pub failing: u32,
    /// The commit that fails, counted from 0.
    pub failing_commit: u32,
}

/// A build whose calls don't fail, with an index of four bits for each wait.
pub(super) fn steady_way(limit: u32, keep_going: bool, refused: u8, picks: u32) -> Way {
    Way {
        limit,
        keep_going,
        refused,
        picks,
        failing: NEVER,
        failing_commit: NEVER,
    }
}

/// What has happened: in the events `+0` is a start of file 0, `-0` its end, `!0` its refusal, `?0` its loss.
#[derive(Drop)]
pub(super) struct Plain {
    pub events: Vec<u8>,
    pub running: Vec<u8>,
    pub started: u8,
    pub compiled: u8,
    pub refused: u8,
    /// What the artefact of each file that is made has after its letter, and 0 of each other file.
    pub made: [u8; 8],
    pub kept: AllKept,
    /// The file whose commit failed; 8 where none did.
    pub torn: u8,
    pub halted: bool,
    pub fault: Option<RunFault>,
    pub calls: u32,
    pub waits: u32,
    pub commits: u32,
}

fn new(alloc: Global, kept: &AllKept) -> Plain {
    Plain {
        events: Vec::new(alloc),
        running: Vec::new(alloc),
        started: 0,
        compiled: 0,
        refused: 0,
        made: [0; 8],
        kept: *kept,
        torn: 8,
        halted: false,
        fault: None,
        calls: 0,
        waits: 0,
        commits: 0,
    }
}

fn note(plain: &mut Plain, kind: u8, at: u8) -> Result<(), NoMemory> {
    plain.calls = plain.calls.wrapping_add(1);
    plain.events.push(kind)?;
    plain.events.push(b'0' + at % 8)?;
    Ok(())
}

fn fail(plain: &mut Plain, fault: RunFault) {
    plain.halted = true;
    if plain.fault.is_none() {
        plain.fault = Some(fault);
    }
}

/// The files that aren't made.
fn unmade(made: &[u8; 8]) -> u8 {
    let mut unmade = 0;
    for at in 0..8u8 {
        if made[(at % 8) as usize] == 0 {
            unmade = with(unmade, at);
        }
    }
    unmade
}

/// Whether a file isn't made and wasn't started, though all that it depends on is made.
fn is_ready(plain: &Plain, project: &Project, at: u8) -> bool {
    let unmade = unmade(&plain.made);
    has(unmade, at) && !has(plain.started, at) && deps_of(project, at) & unmade == 0
}

/// Makes all files whose records are current over files that are made.
fn find_fresh(plain: &mut Plain, project: &Project) {
    for position in 0..project.shape.count {
        let at = file_at(project, position);
        if is_ready(plain, project, at) {
            plain.made[(at % 8) as usize] = current(&plain.kept, project, &plain.made, at);
        }
    }
}

/// The file to start, where one may be started.
fn next(plain: &Plain, project: &Project, limit: u32) -> Option<u8> {
    if plain.halted || plain.running.len() >= limit as usize {
        return None;
    }
    for position in 0..project.shape.count {
        let at = file_at(project, position);
        if is_ready(plain, project, at) {
            return Some(at);
        }
    }
    None
}

fn start(plain: &mut Plain, way: &Way, at: u8) -> Result<(), NoMemory> {
    if plain.calls == way.failing {
        plain.calls = plain.calls.wrapping_add(1);
        fail(plain, RunFault::StartFailed);
        return Ok(());
    }
    plain.started = with(plain.started, at);
    plain.running.push(at)?;
    note(plain, b'+', at)
}

fn commit(plain: &mut Plain, project: &Project, way: &Way, at: u8) {
    if plain.torn < 8 {
        return;
    }
    if plain.commits == way.failing_commit {
        plain.torn = at;
        fail(plain, RunFault::DiskFailed);
        return;
    }
    plain.commits = plain.commits.wrapping_add(1);
    keep(&mut plain.kept, project, &plain.made, at);
}

fn end(plain: &mut Plain, project: &Project, way: &Way, at: u8) -> Result<(), NoMemory> {
    if plain.calls == way.failing {
        fail(plain, RunFault::ChildLost);
        return note(plain, b'?', at);
    }
    if has(way.refused, at) {
        plain.refused = with(plain.refused, at);
        plain.halted = plain.halted || !way.keep_going;
        return note(plain, b'!', at);
    }
    plain.compiled = with(plain.compiled, at);
    plain.made[(at % 8) as usize] = artefact_of(project, at);
    commit(plain, project, way, at);
    note(plain, b'-', at)
}

/// Takes the child that the next wait takes; nothing where none runs.
fn take(plain: &mut Plain, way: &Way) -> Option<u8> {
    let taken = take_child(&mut plain.running, way.picks, plain.waits)?;
    plain.waits = plain.waits.wrapping_add(1);
    Some(taken)
}

/// One event, or nothing where the build has ended.
fn step(plain: &mut Plain, project: &Project, way: &Way) -> Result<bool, NoMemory> {
    find_fresh(plain, project);
    if let Some(at) = next(plain, project, way.limit) {
        start(plain, way, at)?;
        return Ok(true);
    }
    match take(plain, way) {
        Some(at) => {
            end(plain, project, way, at)?;
            Ok(true)
        }
        None => Ok(false),
    }
}

/// The whole build of a project, over these records.
pub(super) fn plain_build(
    alloc: Global,
    project: &Project,
    kept: &AllKept,
    way: &Way,
) -> Result<Plain, NoMemory> {
    let mut plain = new(alloc, kept);
    for _ in 0..40 {
        if !step(&mut plain, project, way)? {
            break;
        }
    }
    Ok(plain)
}

/// The status of a file, as a letter: fresh, compiled, refused, skipped or left.
pub(super) fn status_of(plain: &Plain, keep_going: bool, at: u8) -> u8 {
    if has(plain.compiled, at) {
        b'c'
    } else if has(plain.refused, at) {
        b'r'
    } else if plain.made[(at % 8) as usize] != 0 {
        b'f'
    } else if keep_going {
        b's'
    } else {
        b'l'
    }
}

/// The files that are fresh, though they depend on a file that was compiled.
pub(super) fn late_fresh(plain: &Plain, project: &Project) -> u8 {
    let mut late = 0;
    for at in 0..project.shape.count {
        if status_of(plain, true, at) == b'f' && deps_of(project, at) & plain.compiled != 0 {
            late = with(late, at);
        }
    }
    late
}
