//! Builds on what a stop leaves, and after calls that fail.

use crate::compare::agree;
use crate::kept::{AllKept, keep, none_kept};
use crate::objects::{Told, empty_disk, told_build};
use crate::parts::USERS;
use crate::plain::{NEVER, Plain, Way, plain_build, steady_way};
use crate::shapes::{Project, artefact_of, change_texts, first};
use memory_outside::MemDisk;
use outside::{Side, write_durably};
use run_spec::RunFault;
use std::alloc::Global;
use std::process::Abort;
use std::test::Fail;

const LONG: u64 = (1 << 63) - 1;

/// More calls than any build here makes.
const MANY: u32 = 100;

/// The calls that write the first bytes of a disk.
const WRITING: u32 = 2;

/// The files that are compiled once the package has changed, in the order of their commits. A commit takes four calls
/// of the disk, and the last one ends the build.
const COMMITS: [u8; 5] = [0, 1, 3, 4, 5];

/// The users before the package has changed.
fn before() -> Project {
    first(&USERS)
}

/// The users after the package has changed.
fn after() -> Project {
    change_texts(&USERS, 0b1)
}

/// What artefacts are once all files of a project are compiled.
fn all_made(project: &Project) -> [u8; 8] {
    let mut made = [0; 8];
    for at in 0..8u8 {
        made[(at % 8) as usize] = artefact_of(project, at);
    }
    made
}

/// The fault of a build of the users, if there is one.
fn build_fault(
    rt: &impl Abort,
    alloc: Global,
    project: &Project,
    limit: u32,
    disk: &mut MemDisk,
) -> Result<Option<RunFault>, Fail> {
    let way = steady_way(limit, false, 0, 0);
    let told = told_build(rt, alloc, project, &all_made(project), &way, disk)?;
    Ok(told.fault)
}

/// Builds all users, before the package changes or after, without a fault.
fn build_users(
    rt: &impl Abort,
    alloc: Global,
    project: &Project,
    disk: &mut MemDisk,
) -> Result<(), Fail> {
    let fault = build_fault(rt, alloc, project, 3, disk)?;
    assert!(rt; fault.is_none());
    Ok(())
}

/// Writes the bytes of one side of a disk on another one.
fn copy_side(disk: &mut MemDisk, from: &MemDisk) -> Result<(), Fail> {
    write_durably(disk, Side::A, 0, from.reads(Side::A))?;
    Ok(())
}

/// Writes what a disk has after a build of all users.
fn write_built(rt: &impl Abort, alloc: Global, disk: &mut MemDisk) -> Result<(), Fail> {
    let mut first = empty_disk(alloc, NEVER)?;
    build_users(rt, alloc, &before(), &mut first)?;
    copy_side(disk, &first)
}

/// A disk after a build of all users, of which one call is to fail.
fn built_disk(rt: &impl Abort, alloc: Global, failing: u32) -> Result<MemDisk, Fail> {
    let mut disk = empty_disk(alloc, failing)?;
    write_built(rt, alloc, &mut disk)?;
    Ok(disk)
}

/// The records after the first `count` commits of a build, once the package has changed.
fn kept_after(count: u32) -> AllKept {
    let mut kept = none_kept();
    for at in 0..6u8 {
        keep(&mut kept, &before(), &all_made(&before()), at);
    }
    for i in 0..5u32 {
        if i < count {
            keep(
                &mut kept,
                &after(),
                &all_made(&after()),
                COMMITS[(i % 5) as usize],
            );
        }
    }
    kept
}

/// Whether a build is as the plain one over these records.
fn is_of(alloc: Global, told: &Told, kept: &AllKept, way: &Way) -> Result<bool, Fail> {
    let plain = plain_build(alloc, &after(), kept, way)?;
    Ok(agree(alloc, told, &plain, &after(), false)?)
}

/// Builds without a fault, over these records, or those.
fn builds_on(
    rt: &impl Abort,
    alloc: Global,
    disk: &mut MemDisk,
    kept: &AllKept,
    other: &AllKept,
) -> Result<(), Fail> {
    let way = steady_way(2, false, 0, 0);
    let told = told_build(rt, alloc, &after(), &all_made(&after()), &way, disk)?;
    assert!(rt; is_of(alloc, &told, kept, &way)? || is_of(alloc, &told, other, &way)?);
    Ok(())
}

/// Whether a build after the change has no fault where one call is to fail.
fn builds_at_all(rt: &impl Abort, alloc: Global, call: u32) -> Result<bool, Fail> {
    let mut disk = built_disk(rt, alloc, call)?;
    let fault = build_fault(rt, alloc, &after(), 1, &mut disk)?;
    Ok(fault.is_none())
}

/// How many disk calls are made until the end of a build after the change, with the calls that first write the disk. This
/// is the first call whose failure the build doesn't notice.
fn calls_of(rt: &impl Abort, alloc: Global) -> Result<u32, Fail> {
    for call in WRITING..MANY {
        if builds_at_all(rt, alloc, call)? {
            return Ok(call);
        }
    }
    Err(Fail::from("a build ends"))
}

/// How many of the five commits were acknowledged before a call.
fn acknowledged_before(moment: u32, calls: u32) -> u32 {
    let left = calls.saturating_sub(moment);
    5u32.saturating_sub(left.saturating_add(3) / 4)
}

/// Builds on each image of a stop inside one call of the disk: what was acknowledged is there, and one more may be.
fn builds_on_all(
    rt: &impl Abort,
    alloc: Global,
    disk: &MemDisk,
    moment: u32,
    acknowledged: u32,
) -> Result<(), Fail> {
    let kept = kept_after(acknowledged);
    let other = kept_after(acknowledged.wrapping_add(1));
    for fill in [0, 1, 255] {
        for length in [0, LONG] {
            let mut image = disk.crash(alloc, moment as u64, length, fill)?;
            builds_on(rt, alloc, &mut image, &kept, &other)?;
        }
    }
    Ok(())
}

#[test]
fn what_was_acknowledged_outlives_a_stop(rt: HostRuntime) -> Result<(), Fail> {
    let alloc = rt.alloc();
    let calls = calls_of(&rt, alloc)?;
    let mut disk = built_disk(&rt, alloc, NEVER)?;
    build_users(&rt, alloc, &after(), &mut disk)?;
    for moment in WRITING..calls.saturating_add(2) {
        builds_on_all(
            &rt,
            alloc,
            &disk,
            moment,
            acknowledged_before(moment, calls),
        )?;
    }
    Ok(())
}

/// Builds once more after a plain build: the file whose commit failed may have been recorded. Where no commit failed
/// the call that is to fail may be to come, so that a copy of the disk is built.
fn builds_after(
    rt: &impl Abort,
    alloc: Global,
    disk: &mut MemDisk,
    plain: &Plain,
) -> Result<(), Fail> {
    if plain.torn < 8 {
        let mut torn = plain.kept;
        keep(&mut torn, &after(), &plain.made, plain.torn);
        return builds_on(rt, alloc, disk, &plain.kept, &torn);
    }
    builds_copy(rt, alloc, disk, &plain.kept)
}

/// Builds a copy of a disk.
fn builds_copy(rt: &impl Abort, alloc: Global, disk: &MemDisk, kept: &AllKept) -> Result<(), Fail> {
    let mut copy = disk.crash(alloc, u64::MAX, 0, 0)?;
    builds_on(rt, alloc, &mut copy, kept, kept)
}

/// The number of the call of the disk that fails with a commit, which may be any of its four.
fn failing_call(way: &Way, calls: u32, inside: u32) -> u32 {
    if way.failing_commit >= NEVER {
        return NEVER;
    }
    calls
        .saturating_sub(20)
        .saturating_add(way.failing_commit.saturating_mul(4))
        .saturating_add(inside)
}

/// Builds where calls fail, as the plain build does.
fn fails_as(
    rt: &impl Abort,
    alloc: Global,
    way: &Way,
    plain: &Plain,
    disk: &mut MemDisk,
) -> Result<(), Fail> {
    let told = told_build(rt, alloc, &after(), &plain.made, way, disk)?;
    assert!(rt; agree(alloc, &told, plain, &after(), false)?);
    Ok(())
}

/// The same, and then once more.
fn fails_so(
    rt: &impl Abort,
    alloc: Global,
    way: &Way,
    calls: u32,
    inside: u32,
) -> Result<(), Fail> {
    let plain = plain_build(alloc, &after(), &kept_after(0), way)?;
    let mut disk = built_disk(rt, alloc, failing_call(way, calls, inside))?;
    fails_as(rt, alloc, way, &plain, &mut disk)?;
    builds_after(rt, alloc, &mut disk, &plain)
}

/// A build of which a start or wait fails, and a commit.
fn failing(limit: u32, call: u32, commit: u32) -> Way {
    let mut way = steady_way(limit, false, 0, 0);
    way.failing = call;
    way.failing_commit = commit;
    way
}

#[test]
fn each_start_and_wait_can_fail(rt: HostRuntime) -> Result<(), Fail> {
    for limit in [1, 3] {
        for call in 0..11 {
            fails_so(&rt, rt.alloc(), &failing(limit, call, NEVER), 0, 0)?;
        }
    }
    Ok(())
}

#[test]
fn each_commit_can_fail(rt: HostRuntime) -> Result<(), Fail> {
    let calls = calls_of(&rt, rt.alloc())?;
    for commit in 0..5 {
        for inside in 0..4 {
            fails_so(&rt, rt.alloc(), &failing(1, NEVER, commit), calls, inside)?;
            fails_so(&rt, rt.alloc(), &failing(3, NEVER, commit), calls, inside)?;
        }
    }
    Ok(())
}

#[test]
fn the_first_of_two_faults_is_answered(rt: HostRuntime) -> Result<(), Fail> {
    let calls = calls_of(&rt, rt.alloc())?;
    for commit in 0..5 {
        for call in 0..10 {
            fails_so(&rt, rt.alloc(), &failing(3, call, commit), calls, 0)?;
        }
    }
    Ok(())
}

/// The store can't be opened, and nothing is started.
fn refuses(rt: &impl Abort, alloc: Global, disk: &mut MemDisk) -> Result<(), Fail> {
    let way = steady_way(3, false, 0, 0);
    let told = told_build(rt, alloc, &after(), &all_made(&after()), &way, disk)?;
    assert!(rt; told.events.is_empty() && told.fault == Some(RunFault::DiskFailed));
    Ok(())
}

/// The same, and then it can.
fn opening_fails(rt: &impl Abort, alloc: Global, call: u32) -> Result<(), Fail> {
    let mut disk = built_disk(rt, alloc, call)?;
    refuses(rt, alloc, &mut disk)?;
    builds_on(rt, alloc, &mut disk, &kept_after(0), &kept_after(0))
}

#[test]
fn each_call_of_the_opening_can_fail(rt: HostRuntime) -> Result<(), Fail> {
    let calls = calls_of(&rt, rt.alloc())?;
    for call in WRITING..calls.saturating_sub(20) {
        opening_fails(&rt, rt.alloc(), call)?;
    }
    Ok(())
}
