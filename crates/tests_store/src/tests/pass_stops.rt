//! Stops inside the calls of a store of passes over a disk in memory, and calls that fail.

use crate::tests::changes::{disk_of, full_disk};
use crate::tests::pass_changes::{PassChange, breaks, letter_on, make};
use crate::trials::{Trial, empty_disk, fails_all, goes};
use memory_outside::MemDisk;
use outside::{Side, StoreFault};
use std::alloc::Global;
use std::test::Fail;

/// A side of form 5 and generation 1. The run without cases whose texts are empty passed with the word `s` over the file `p` of `l` with
/// the artefact `a`, and printed `o`. Then it passed over the same list, and printed `q`.
static SIDE: [u8; 131] = [
    1, b'V', b'U', b'N', b'I', b'T', b'R', b'E', b'C', 5, 1, 0, 0, 0, 0, 0, 0, 0, //
    1, 57, 0, 0, 0, // an open commit byte, and the length of the payload
    0, 0, 0, 0, 0, 0, 0, 0, 0, 0, 0, 0, 0, 0, 0, 0, 0, 0, 0, 0, 1, 0, //
    1, 0, 0, 0, 1, 0, 0, 0, b's', //
    1, 1, 0, 0, 0, 1, 0, 0, 0, b'l', 1, 0, 0, 0, b'p', 1, 1, 0, 0, 0, b'a', //
    1, 0, 0, 0, b'o', //
    1, 45, 0, 0, 0, //
    0, 0, 0, 0, 0, 0, 0, 0, 0, 0, 0, 0, 0, 0, 0, 0, 0, 0, 0, 0, 1, 0, //
    1, 0, 0, 0, 1, 0, 0, 0, b's', //
    0, 0, 0, 0, 0, 0, 0, 0, 0, //
    1, 0, 0, 0, b'q', //
    0,
];

/// The side of generation 2 that keeps the second pass alone.
fn kept_side() -> [u8; 81] {
    let mut side = [0; 81];
    side.copy_from_slice(&SIDE[..81]);
    side[10] = 2;
    side[79] = b'q';
    side[80] = 0;
    side
}

/// The first pass, and a last commit byte that is open though none follows.
fn open_commit_byte(alloc: Global, failing: &[u64]) -> Result<MemDisk, StoreFault> {
    disk_of(alloc, failing, &SIDE[..81])
}

/// Whether the sides of a disk are those after a change.
fn has_sides(disk: &MemDisk, change: PassChange) -> bool {
    let a = disk.reads(Side::A);
    match change {
        PassChange::Opens => a.len() == 81 && a.ends_with(b"o\0"),
        PassChange::Commits => a == SIDE.as_slice(),
        PassChange::Compacts => disk.reads(Side::B) == kept_side().as_slice(),
        PassChange::Empties => {
            a.len() == 19 && a.starts_with(&SIDE[..18]) && disk.reads(Side::B).is_empty()
        }
    }
}

impl Trial for PassChange {
    fn disk(&self, alloc: Global, failing: &[u64]) -> Result<MemDisk, StoreFault> {
        match *self {
            PassChange::Opens => open_commit_byte(alloc, failing),
            PassChange::Compacts => full_disk(alloc, failing, &SIDE),
            _ => Ok(empty_disk(alloc, failing)?),
        }
    }

    fn goes(&self, alloc: Global, disk: &mut MemDisk) -> Result<bool, StoreFault> {
        make(alloc, disk, *self)?;
        Ok(has_sides(disk, *self))
    }

    /// Whether the output of a letter is recalled from a disk, and none for `-`. A disk that was to be compacted then is.
    fn holds(&self, alloc: Global, disk: &mut MemDisk, letter: u8) -> Result<bool, StoreFault> {
        let found = letter_on(alloc, disk, b"a", &[])?;
        match *self {
            PassChange::Compacts => Ok(found == letter && has_sides(disk, *self)),
            _ => Ok(found == letter),
        }
    }
}

/// A change, and what a stop or a fault inside of each call leaves, from a call on. Opening an empty disk takes 14 calls, and each commit
/// 4: after the third of these its commit byte may be open. Once a side was written, 7 calls open a live side. Then a write closes its
/// commit byte, or 8 calls make the other side. After the first commit, 6 calls of emptying sync both sides and read how they begin; then
/// B is cut, A made dead, and A is made. While A is made dead its first byte may be any.
static CHANGES: [(PassChange, u64, &'static str); 4] = [
    (
        PassChange::Commits,
        0,
        "----------------ooooqqq\n------------------ooooq",
    ),
    (PassChange::Opens, 2, "oooooooooo\noooooooooo"),
    (PassChange::Compacts, 9, "qqqqqqqqq\nqqqqqqqqq"),
    (
        PassChange::Empties,
        18,
        "oooooooooo---------\noooooooo-----------",
    ),
];

#[test]
fn a_stop_inside_a_change_leaves_its_passes_or_those_before(rt: HostRuntime) -> Result<(), Fail> {
    for (change, first, table) in CHANGES {
        assert!(rt; goes(rt.alloc(), &change, first, table)?, "{table}");
    }
    Ok(())
}

#[test]
fn a_fault_inside_a_change_leaves_its_passes_or_those_before(rt: HostRuntime) -> Result<(), Fail> {
    for (change, first, table) in CHANGES {
        assert!(rt; fails_all(rt.alloc(), &change, first, table)?, "{table}");
    }
    Ok(())
}

/// Whether a store whose commit fails in this call is broken.
fn breaks_at(alloc: Global, call: u64) -> Result<bool, StoreFault> {
    let mut disk = empty_disk(alloc, &[call])?;
    breaks(alloc, &mut disk)
}

#[test]
fn a_store_is_broken_once_a_commit_has_failed(rt: HostRuntime) -> Result<(), Fail> {
    for call in 14..18 {
        assert!(rt; breaks_at(rt.alloc(), call)?, "{call}");
    }
    Ok(())
}
