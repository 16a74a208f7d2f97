//! Stops inside the calls of a store over a disk in memory, and calls that fail.

use crate::tests::changes::{Change, disk_of, run};
use crate::tests::sides::SIDE;
use crate::trials::{Trial, empty_disk, fails_all, goes, is_refused, leaves_all};
use memory_outside::MemDisk;
use outside::{Disk, Side, StoreFault};
use std::alloc::Global;
use std::test::Fail;
use store_journal::{Journal, Opened, Payloads};

/// The letter of payloads: `y` for the first of `SIDE` alone, `v` for the second alone, `2` for both, `-` for none.
fn letter_of(payloads: &Payloads) -> u8 {
    let first = &SIDE[23..66];
    let second = &SIDE[71..114];
    match payloads.len() {
        0 => b'-',
        1 if payloads.get(0) == first => b'y',
        1 if payloads.get(0) == second => b'v',
        2 if payloads.get(0) == first && payloads.get(1) == second => b'2',
        _ => b'?',
    }
}

fn observe_held<D: Disk>(alloc: Global, disk: &mut D) -> Result<u8, StoreFault> {
    let Opened { payloads, .. } = Journal::from_disk(alloc, disk, 3, Payloads::new(alloc))?;
    Ok(letter_of(&payloads))
}

/// A payload, and a last commit byte that is open though none follows.
fn open_commit_byte(alloc: Global, failing: &[u64]) -> Result<MemDisk, StoreFault> {
    let mut bytes = SIDE;
    bytes[66] = 1;
    disk_of(alloc, failing, &bytes[..67])
}

/// Whether the sides of a disk are those after a change.
fn has_sides(disk: &MemDisk, change: Change) -> bool {
    let a = disk.reads(Side::A);
    match change {
        Change::Opens => a.len() == 67 && a.ends_with(b"y\0"),
        Change::Commits => a.len() == 67 && a.starts_with(&SIDE[..66]),
        Change::Empties => {
            a.len() == 19 && a.starts_with(&SIDE[..18]) && disk.reads(Side::B).is_empty()
        }
        _ => true,
    }
}

impl Trial for Change {
    fn disk(&self, alloc: Global, failing: &[u64]) -> Result<MemDisk, StoreFault> {
        match *self {
            Change::Opens => open_commit_byte(alloc, failing),
            _ => Ok(empty_disk(alloc, failing)?),
        }
    }

    fn goes(&self, alloc: Global, disk: &mut MemDisk) -> Result<bool, StoreFault> {
        run(alloc, disk, *self)?;
        Ok(has_sides(disk, *self))
    }

    /// Whether a disk has the payloads of a letter, and its store lends the artefact of the last one.
    fn holds(&self, alloc: Global, disk: &mut MemDisk, letter: u8) -> Result<bool, StoreFault> {
        let last = if letter == b'2' { b'v' } else { letter };
        Ok(run(alloc, disk, Change::Opens)?[2] == last && observe_held(alloc, disk)? == letter)
    }
}

/// A change, and what a stop or a fault inside of each call leaves, from a call on. Opening an empty disk takes 14 calls, and a
/// commit 4: after the third of these its commit byte may be open. Once a side was written, 7 calls open a live side, and a write closes
/// its commit byte. After the commit, 6 calls of emptying sync both sides and read how they begin; then B is cut, A made dead, and A is
/// made. While A is made dead its first byte may be any.
static CHANGES: [(Change, u64, &'static str); 3] = [
    (
        Change::Commits,
        0,
        "----------------yyy\n------------------y",
    ),
    (Change::Opens, 2, "yyyyyyyyyy\nyyyyyyyyyy"),
    (
        Change::Empties,
        18,
        "yyyyyyyyyy---------\nyyyyyyyy-----------",
    ),
];

/// Whether a commit whose commit byte can't be written is answered by a fault of the disk, and the store can then be opened.
fn reopens(alloc: Global, disk: &mut MemDisk) -> Result<bool, StoreFault> {
    if !is_refused(alloc, &Change::Commits, disk) {
        return Ok(false);
    }
    run(alloc, disk, Change::Opens)?;
    Ok(true)
}

/// From the opening after such a commit on: the commit byte may be any up to the end of the first sync.
static REOPENING: &str = "y-------\n--------";

fn settles(alloc: Global) -> Result<bool, StoreFault> {
    let mut disk = empty_disk(alloc, &[16])?;
    Ok(reopens(alloc, &mut disk)? && leaves_all(alloc, &Change::Opens, &disk, 17, REOPENING)?)
}

#[test]
fn opening_after_a_torn_commit_settles_on_what_reads_gave(rt: HostRuntime) -> Result<(), Fail> {
    assert!(rt; settles(rt.alloc())?);
    Ok(())
}

#[test]
fn a_stop_or_fault_inside_a_change_leaves_its_records_or_those_before(
    rt: HostRuntime,
) -> Result<(), Fail> {
    for (change, first, table) in CHANGES {
        assert!(rt; goes(rt.alloc(), &change, first, table)?, "{table}");
        assert!(rt; fails_all(rt.alloc(), &change, first, table)?, "{table}");
    }
    Ok(())
}
