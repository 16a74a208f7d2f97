//! Runs over what a stop at any moment of a run leaves.

use crate::parts::{disk_calls, part, told_on};
use crate::records::stale_on;
use base::{NoMemory, Numbers};
use memory_outside::MemDisk;
use std::alloc::Global;
use std::process::Abort;
use std::test::Fail;

const LONG: u64 = (1 << 63) - 1;

/// More calls of the disk than any run makes over what a stop of a run leaves.
const MANY: u64 = 50;

/// One row per line, with `|` between its parts: earlier runs, the run that is stopped, the disk calls of both, and the stages of
/// later runs. A run is its stage and its arguments. The disk calls of a run are the letter of an opening and the number of records.
///
/// Stage 1 compiles five files. After it, stage 2 compiles the package, its three users and the bench. After that, stage 3 compiles the
/// package alone, and then stage 2 compiles it alone again.
static ROWS: &str = "\
|1--compile||E5|123
|2||E6|123
|2-p 3 -x out.xml||E6|2
1--compile|2|E5|L5|123
1--compile|2-p 3 -k|E5|L5|2
1--compile|2--clean|E5|C6|12
2|2--clean --compile -p 3|E6|C6|23
2|1--compile|E6|L4|12
1--compile;2|1--compile|E5 L5|L4|123
2|3|E6|L1|123
3|2--compile|E6|L1|23
1--compile;2;3|1--compile|E5 L5 L1|L4|13";

/// What a run is to tell that compiles these files one after the other, and then runs the tests of its stage.
fn wanted(alloc: Global, stale: &[u8], stage: u8) -> Result<Vec<u8>, NoMemory> {
    let mut wanted = Vec::new(alloc);
    for letter in stale {
        wanted.extend_from_slice(&[*letter, b'.'])?;
    }
    if stage != b'1' {
        wanted.extend_from_slice(b"!.!.")?;
    }
    wanted.push(b'd')?;
    Ok(wanted)
}

/// Whether a run over a disk compiles exactly the files that a plain reading of its records finds stale, and then runs the
/// tests.
fn goes_on(
    rt: &impl Abort,
    alloc: Global,
    disk: &mut MemDisk,
    stage: u8,
) -> Result<bool, NoMemory> {
    let stale = stale_on(alloc, disk, stage)?;
    let wanted = wanted(alloc, stale.as_slice(), stage)?;
    let words = if stage == b'1' { "--compile" } else { "" };
    let told = told_on(rt, alloc, disk, stage, words)?;
    Ok(told.as_slice() == wanted.as_slice())
}

/// The same over an image of a moment.
fn goes_on_after(
    rt: &impl Abort,
    alloc: Global,
    disk: &MemDisk,
    moment: u64,
    length: u64,
    fill: u8,
    stage: u8,
) -> Result<bool, NoMemory> {
    let mut image = disk.crash(alloc, moment, length, fill)?;
    goes_on(rt, alloc, &mut image, stage)
}

/// The same over each image of a moment.
fn leaves(
    rt: &impl Abort,
    alloc: Global,
    disk: &MemDisk,
    moment: u64,
    stage: u8,
) -> Result<bool, NoMemory> {
    for fill in [0, 1, 255] {
        if !goes_on_after(rt, alloc, disk, moment, 0, fill, stage)?
            || !goes_on_after(rt, alloc, disk, moment, LONG, fill, stage)?
        {
            return Ok(false);
        }
    }
    Ok(true)
}

/// The same of each moment from one up to another.
fn leaves_each(
    rt: &impl Abort,
    alloc: Global,
    disk: &MemDisk,
    first: u64,
    end: u64,
    stage: u8,
) -> Result<bool, NoMemory> {
    for moment in first..end {
        if !leaves(rt, alloc, disk, moment, stage)? {
            return Ok(false);
        }
    }
    Ok(true)
}

/// Whether exactly `count` files are stale on the shortest sides that a stop inside a call leaves.
fn has_stale(
    alloc: Global,
    disk: &MemDisk,
    moment: u64,
    stage: u8,
    count: usize,
) -> Result<bool, NoMemory> {
    let image = disk.crash(alloc, moment, 0, 0)?;
    Ok(stale_on(alloc, &image, stage)?.len() == count)
}

/// Whether the calls of a run are those from one up to another: before its last call one file is stale, and then none.
fn ends_at(alloc: Global, disk: &MemDisk, end: u64, stage: u8) -> Result<bool, NoMemory> {
    Ok(
        has_stale(alloc, disk, end.saturating_sub(2), stage, 1)?
            && has_stale(alloc, disk, end, stage, 0)?,
    )
}

/// The stage of a run.
fn stage_of(run: &str) -> u8 {
    run.as_bytes().first().copied().unwrap_or(b'1')
}

/// The words of a run, after its stage.
fn words_in(run: &str) -> &str {
    run.split_at_checked(1).map_or("", |parts| parts.1)
}

/// Whether a run is done. An empty text stands for no run, and counts as done.
fn is_done(
    rt: &impl Abort,
    alloc: Global,
    disk: &mut MemDisk,
    run: &str,
) -> Result<bool, NoMemory> {
    if run.is_empty() {
        return Ok(true);
    }
    let told = told_on(rt, alloc, disk, stage_of(run), words_in(run))?;
    Ok(told.as_slice().ends_with(b"d"))
}

fn are_done(
    rt: &impl Abort,
    alloc: Global,
    disk: &mut MemDisk,
    runs: &str,
) -> Result<bool, NoMemory> {
    for run in runs.split(';') {
        if !is_done(rt, alloc, disk, run)? {
            return Ok(false);
        }
    }
    Ok(true)
}

/// Whether a run that is stopped at any moment leaves what runs of these stages go on from, where it made the calls of the disk
/// from one up to another.
fn stops(
    rt: &impl Abort,
    alloc: Global,
    disk: &MemDisk,
    first: u64,
    end: u64,
    stages: &[u8],
) -> Result<bool, NoMemory> {
    for stage in stages {
        if !leaves_each(rt, alloc, disk, first, end.saturating_add(1), *stage)? {
            return Ok(false);
        }
    }
    Ok(true)
}

/// How many calls of the disk some runs make.
fn calls_of(runs: &str) -> u64 {
    let mut calls = 0u64;
    for run in runs.split(' ') {
        calls = calls.saturating_add(disk_calls(run));
    }
    calls
}

/// The same of the runs of a row.
fn passes(rt: &impl Abort, alloc: Global, disk: &mut MemDisk, row: &str) -> Result<bool, NoMemory> {
    if !are_done(rt, alloc, disk, part(row, 0))? || !is_done(rt, alloc, disk, part(row, 1))? {
        return Ok(false);
    }
    let first = calls_of(part(row, 2));
    let end = first.saturating_add(calls_of(part(row, 3)));
    Ok(
        ends_at(alloc, disk, end, stage_of(part(row, 1)))?
            && stops(rt, alloc, disk, first, end, part(row, 4).as_bytes())?,
    )
}

fn passes_row(rt: &impl Abort, alloc: Global, row: &str) -> Result<bool, NoMemory> {
    let mut disk = MemDisk::new(alloc, Numbers::new(alloc));
    passes(rt, alloc, &mut disk, row)
}

/// The same where the run after the stop is itself stopped at any moment. A moment past its last call is the end of the run.
fn goes_on_twice(
    rt: &impl Abort,
    alloc: Global,
    disk: &MemDisk,
    moment: u64,
    length: u64,
    fill: u8,
    stage: u8,
) -> Result<bool, NoMemory> {
    let mut image = disk.crash(alloc, moment, length, fill)?;
    Ok(goes_on(rt, alloc, &mut image, stage)? && leaves_each(rt, alloc, &image, 0, MANY, stage)?)
}

/// The same of each moment from one up to another, where free bytes are open commit bytes, and each side is as short or as long as
/// it may be.
fn leaves_twice(
    rt: &impl Abort,
    alloc: Global,
    disk: &MemDisk,
    first: u64,
    end: u64,
    stage: u8,
) -> Result<bool, NoMemory> {
    for moment in first..end {
        if !goes_on_twice(rt, alloc, disk, moment, 0, 1, stage)?
            || !goes_on_twice(rt, alloc, disk, moment, LONG, 1, stage)?
        {
            return Ok(false);
        }
    }
    Ok(true)
}

fn stops_twice(rt: &impl Abort, alloc: Global, disk: &mut MemDisk) -> Result<bool, NoMemory> {
    Ok(
        is_done(rt, alloc, disk, "1--compile")?
            && is_done(rt, alloc, disk, "2--clean")?
            && leaves_twice(
                rt,
                alloc,
                disk,
                calls_of("E5"),
                calls_of("E5 C6").saturating_add(1),
                b'2',
            )?,
    )
}

#[test]
fn a_stop_of_the_run_after_a_stop_leaves_the_same(rt: HostRuntime) -> Result<(), Fail> {
    let mut disk = MemDisk::new(rt.alloc(), Numbers::new(rt.alloc()));
    assert!(rt; stops_twice(&rt, rt.alloc(), &mut disk)?);
    Ok(())
}

/// Whether a run whose call of the disk fails says so, another one goes on, and a stop at any moment of both leaves what the
/// next one goes on from.
fn fails_and_stops(
    rt: &impl Abort,
    alloc: Global,
    disk: &mut MemDisk,
    call: u64,
) -> Result<bool, NoMemory> {
    let told = told_on(rt, alloc, disk, b'2', "")?;
    Ok(
        told.as_slice().ends_with(b"k")
            && goes_on(rt, alloc, disk, b'2')?
            && leaves_each(rt, alloc, disk, 0, call.saturating_add(MANY), b'2')?,
    )
}

fn stops_after_fault(rt: &impl Abort, alloc: Global, call: u64) -> Result<bool, NoMemory> {
    let mut failing = Numbers::new(alloc);
    failing.push(call)?;
    let mut disk = MemDisk::new(alloc, failing);
    fails_and_stops(rt, alloc, &mut disk, call)
}

#[test]
fn a_stop_of_the_run_after_a_failed_disk_call_leaves_the_same(rt: HostRuntime) -> Result<(), Fail> {
    for call in 0..calls_of("E6") {
        assert!(rt; stops_after_fault(&rt, rt.alloc(), call)?, "{call}");
    }
    Ok(())
}

#[test]
fn a_stop_at_any_moment_leaves_what_the_next_run_goes_on_from(rt: HostRuntime) -> Result<(), Fail> {
    for row in ROWS.lines() {
        assert!(rt; passes_row(&rt, rt.alloc(), row)?, "{row}");
    }
    Ok(())
}
