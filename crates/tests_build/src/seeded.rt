//! Random projects, refusals, edits and orders of ends, compared with a plain build that is fed the same ends.

use crate::compare::{build_alike, plain_statuses};
use crate::kept::{AllKept, none_kept};
use crate::objects::empty_disk;
use crate::picks::{byte, mixed};
use crate::plain::{NEVER, Plain, Way, late_fresh, plain_build, steady_way};
use crate::sets::{has, upto};
use crate::shapes::{Project, Shape, files_of, first};
use base::NoMemory;
use memory_outside::MemDisk;
use std::alloc::Global;
use std::process::Abort;
use std::test::Fail;

/// How many random rows there are.
const ROWS: u32 = 200;

/// Few of the files.
fn few(seed: u32, turn: u32) -> u8 {
    byte(seed, turn) & byte(seed, turn.wrapping_add(100))
}

/// These files, and what they depend on.
fn close_deps(deps: &[u8; 8], chosen: u8) -> u8 {
    let mut all = chosen;
    for at in 0..8u8 {
        if has(chosen, at) {
            all |= deps[(at % 8) as usize];
        }
    }
    all
}

/// A graph of 2 to 8 files. Its last file depends on all others.
fn shape_of(seed: u32) -> Shape {
    let count = 2 + byte(seed, 1) % 7;
    let mut deps = [0u8; 8];
    for at in 0..8u8 {
        let chosen = few(seed, 2u32.wrapping_add(at as u32)) & upto(at);
        deps[(at % 8) as usize] = close_deps(&deps, chosen);
    }
    deps[(count.wrapping_sub(1) % 8) as usize] = upto(count.wrapping_sub(1));
    Shape { count, deps }
}

/// A way of a build: how many slots there are, and whether it goes on after a refusal.
fn way_of(seed: u32, limit: u32, keep_going: bool) -> Way {
    let refused = if byte(seed, 20) % 3 == 0 {
        0
    } else {
        few(seed, 21)
    };
    let picks = mixed(seed, limit.wrapping_add(30));
    steady_way(limit, keep_going, refused, picks)
}

/// A project of which random files are other than at first: some texts, and in half of all one thing more.
fn edit_files(seed: u32, shape: &Shape) -> Project {
    let mut project = first(shape);
    let files = files_of(&project);
    project.changed = few(seed, 40) & few(seed, 41) & files;
    project.commented = few(seed, 42) & files;
    match byte(seed, 43) % 8 {
        0 => project.optioned = few(seed, 44) & files,
        1 => project.moved = few(seed, 44) & files,
        2 => project.newer = few(seed, 44) & files,
        3 => project.swapped = !has(shape.deps[1], 0),
        _ => {}
    }
    project
}

/// Whether two plain builds give the same statuses.
fn same_statuses(
    alloc: Global,
    plain: &Plain,
    other: &Plain,
    project: &Project,
    keep_going: bool,
) -> Result<bool, NoMemory> {
    let statuses = plain_statuses(alloc, plain, project, keep_going)?;
    let others = plain_statuses(alloc, other, project, keep_going)?;
    Ok(statuses.as_slice() == others.as_slice())
}

/// Builds a copy of a disk that has these records. With `keep_going`, or if no file is refused, the statuses must be those of a
/// plain build with one slot. Returns whether a file is fresh although it depends on a compiled one.
fn build_copy(
    rt: &impl Abort,
    alloc: Global,
    project: &Project,
    kept: &AllKept,
    way: &Way,
    disk: &MemDisk,
) -> Result<bool, Fail> {
    let mut copy = disk.crash(alloc, u64::MAX, 0, 0)?;
    let plain = build_alike(rt, alloc, project, kept, way, &mut copy)?;
    if way.keep_going || plain.refused == 0 {
        let mut slow = *way;
        slow.limit = 1;
        let other = plain_build(alloc, project, kept, &slow)?;
        assert!(rt; same_statuses(alloc, &plain, &other, project, way.keep_going)?);
    }
    Ok(late_fresh(&plain, project) != 0)
}

/// Builds copies of a disk with each number of slots.
fn build_copies(
    rt: &impl Abort,
    alloc: Global,
    seed: u32,
    project: &Project,
    kept: &AllKept,
    keep_going: bool,
    disk: &MemDisk,
) -> Result<bool, Fail> {
    let mut late = false;
    for limit in [1, 2, 3, 64] {
        let way = way_of(seed, limit, keep_going);
        if build_copy(rt, alloc, project, kept, &way, disk)? {
            late = true;
        }
    }
    Ok(late)
}

/// A project after `edits` edits. After an even number no file differs from the first project, else random files do. Its shape is
/// seldom another one.
fn project_after(seed: u32, edits: u32) -> Project {
    let other = mixed(seed, edits.wrapping_add(60));
    let shape = if byte(other, 0) % 8 == 0 {
        shape_of(other)
    } else {
        shape_of(seed)
    };
    if edits % 2 == 0 {
        first(&shape)
    } else {
        edit_files(other, &shape)
    }
}

/// Builds a project on a disk after 0, 1, .. and `edits - 1` edits, and then copies of the disk after `edits` edits. Returns whether
/// one of the last builds finds a file fresh although it depends on a compiled one.
fn row(
    rt: &impl Abort,
    alloc: Global,
    seed: u32,
    edits: u32,
    disk: &mut MemDisk,
) -> Result<bool, Fail> {
    let mut kept = none_kept();
    for edit in 0..edits {
        let way = way_of(mixed(seed, edit), 3, seed % 3 != 0);
        let plain = build_alike(rt, alloc, &project_after(seed, edit), &kept, &way, disk)?;
        kept = plain.kept;
    }
    let project = project_after(seed, edits);
    build_copies(rt, alloc, seed, &project, &kept, seed % 2 == 0, disk)
}

/// The same from an empty disk on.
fn row_over(rt: &impl Abort, alloc: Global, seed: u32, edits: u32) -> Result<bool, Fail> {
    let mut disk = empty_disk(alloc, NEVER)?;
    row(rt, alloc, seed, edits, &mut disk)
}

/// Builds rows with `edits` edits. More than `least` of them must have a file that is fresh although it depends on a compiled one.
fn rows_go(rt: &impl Abort, alloc: Global, edits: u32, least: u32) -> Result<(), Fail> {
    let mut found = 0u32;
    for seed in 0..ROWS {
        if row_over(rt, alloc, seed, edits)? {
            found = found.wrapping_add(1);
        }
    }
    assert!(rt; found > least, "{found}");
    Ok(())
}

#[test]
fn random_projects_are_built_as_by_a_plain_build(rt: HostRuntime) -> Result<(), Fail> {
    rows_go(&rt, rt.alloc(), 1, 10)
}

#[test]
fn random_edits_are_undone_as_by_a_plain_build(rt: HostRuntime) -> Result<(), Fail> {
    rows_go(&rt, rt.alloc(), 2, 10)
}

#[test]
fn random_edits_are_built_one_after_the_other(rt: HostRuntime) -> Result<(), Fail> {
    rows_go(&rt, rt.alloc(), 5, 10)
}
