//! Tests of a journal over a disk in memory: its bytes, stops inside its calls, and calls that fail.

ghost use Rattle.std.specs.Prelude.{◌≡◌, false, IfOk};
ghost use Rattle.store_journal.specs.Journals.{IsInStep};
ghost use Rattle.memory_outside.specs.Disks.{moments_of};

use crate::trials::{LONG, Trial, empty_disk, fails_all, goes};
use base::NoMemory;
use memory_outside::MemDisk;
use outside::{Side, StoreFault, write_durably};
use std::alloc::Global;
use std::test::Fail;
use store_journal::{Journal, Opened, Payloads};

/// A side of form 1 and generation 1 without payloads.
static EMPTY: [u8; 19] = [
    1, b'V', b'U', b'N', b'I', b'T', b'R', b'E', b'C', 1, 1, 0, 0, 0, 0, 0, 0, 0, 0,
];

/// The same with the payload `ab`.
static WITH_AB: [u8; 26] = [
    1, b'V', b'U', b'N', b'I', b'T', b'R', b'E', b'C', 1, 1, 0, 0, 0, 0, 0, 0, 0, 1, 2, 0, 0, 0,
    b'a', b'b', 0,
];

/// A side of form 1 and generation 2 with the payload `cd`.
static WITH_CD: [u8; 26] = [
    1, b'V', b'U', b'N', b'I', b'T', b'R', b'E', b'C', 1, 2, 0, 0, 0, 0, 0, 0, 0, 1, 2, 0, 0, 0,
    b'c', b'd', 0,
];

/// The numbers of the disk calls: opening an empty disk takes 14, and a commit 4.
const COMMIT: u64 = 14;

const NEXT: u64 = 18;

/// Whether the payloads are those of a letter: `a` is `ab` alone, `c` is `cd` alone, and `-` none.
pub fn are(payloads: &Payloads, letter: u8) -> bool {
    match letter {
        b'a' => payloads.len() == 1 && payloads.get(0) == b"ab".as_slice(),
        b'c' => payloads.len() == 1 && payloads.get(0) == b"cd".as_slice(),
        _ => payloads.len() == 0,
    }
}

/// Whether a disk has the payloads of a letter.
fn holds(alloc: Global, disk: &mut MemDisk, letter: u8) -> Result<bool, StoreFault> {
    let Opened { payloads, .. } = Journal::from_disk(alloc, disk, 1, Payloads::new(alloc))?;
    Ok(are(&payloads, letter))
}

/// A journal with the payload `ab`.
fn with_ab(alloc: Global, disk: &mut MemDisk) -> Result<Journal, StoreFault>
    ensures usable { IfOk result (λ journal. journal.broken ≡ false) }
    ensures form { IfOk result (λ journal. journal.form ≡ 1) }
    ensures in_step { IfOk result (λ journal. IsInStep journal (moments_of disk.new.log).now) }
{
    let Opened { mut journal, .. } = Journal::from_disk(alloc, disk, 1, Payloads::new(alloc))?;
    let ready = journal.prepare(alloc, b"ab")?;
    journal.commit(disk, &ready)?;
    Ok(journal)
}

/// Puts the payload `cd` in the place of those of a journal.
fn replace_by_cd(alloc: Global, journal: &mut Journal, disk: &mut MemDisk) -> Result<(), StoreFault>
    requires usable { journal.old.broken ≡ false }
    requires form { journal.old.form ≡ 1 }
    requires in_step { IsInStep journal.old (moments_of disk.old.log).now }
{
    if journal.generation() == u64::MAX {
        return Err(StoreFault::DiskFailed);
    }
    let mut payloads = Payloads::new(alloc);
    payloads.push(alloc, b"cd")?;
    let side = journal.prepare_side(alloc, 1, &payloads)?;
    Ok(journal.replace(disk, side)?)
}

/// A journal with the payload `cd`, which took the index of `ab`.
fn with_cd(alloc: Global, disk: &mut MemDisk) -> Result<Journal, StoreFault> {
    let mut journal = with_ab(alloc, disk)?;
    replace_by_cd(alloc, &mut journal, disk)?;
    Ok(journal)
}

/// A journal that was emptied, with `ab` before.
fn open_empty(alloc: Global, disk: &mut MemDisk) -> Result<Journal, StoreFault> {
    with_ab(alloc, disk)?;
    Journal::open_empty(alloc, disk, 1, 1)
}

/// What is done to an empty disk: a journal is opened; `ab` is committed; then `cd` takes its index, or it is emptied.
#[derive(Clone, Copy)]
enum Change {
    Opens,
    Commits,
    Replaces,
    Empties,
}

/// Whether opening an empty disk finds no payload.
fn opens(alloc: Global, disk: &mut MemDisk) -> Result<bool, StoreFault> {
    holds(alloc, disk, b'-')
}

/// Whether a journal is of the first generation after a commit, and as long as its side.
fn commits(alloc: Global, disk: &mut MemDisk) -> Result<bool, StoreFault> {
    let journal = with_ab(alloc, disk)?;
    Ok(journal.generation() == 1 && journal.length() == 26)
}

/// Makes a change, and tells whether it goes so.
fn make(alloc: Global, disk: &mut MemDisk, change: Change) -> Result<bool, StoreFault> {
    match change {
        Change::Opens => opens(alloc, disk),
        Change::Commits => commits(alloc, disk),
        Change::Replaces => {
            with_cd(alloc, disk)?;
            Ok(true)
        }
        Change::Empties => {
            open_empty(alloc, disk)?;
            Ok(true)
        }
    }
}

/// Whether the sides of a disk are those after a change.
fn has_sides(disk: &MemDisk, change: Change) -> bool {
    let a = disk.reads(Side::A);
    let b = disk.reads(Side::B);
    match change {
        Change::Opens => a == EMPTY.as_slice() && b.is_empty(),
        Change::Commits => a == WITH_AB.as_slice(),
        Change::Replaces => a == WITH_AB.as_slice() && b == WITH_CD.as_slice(),
        Change::Empties => a == EMPTY.as_slice() && b.is_empty(),
    }
}

/// Whether a change goes so, and leaves its sides.
fn changes(alloc: Global, disk: &mut MemDisk, change: Change) -> Result<bool, StoreFault> {
    Ok(make(alloc, disk, change)? && has_sides(disk, change))
}

impl Trial for Change {
    fn goes(&self, alloc: Global, disk: &mut MemDisk) -> Result<bool, StoreFault> {
        changes(alloc, disk, *self)
    }

    fn holds(&self, alloc: Global, disk: &mut MemDisk, letter: u8) -> Result<bool, StoreFault> {
        holds(alloc, disk, letter)
    }
}

/// A change, and what a stop or a fault inside of each call leaves, from a call on. After the third call of a commit its commit byte may be
/// open. Of the calls that empty a disk 6 sync both sides and read how they begin; then B is cut, A made dead, and A is made, two calls for
/// each write or cut. While A is made dead its first byte may be any.
static CHANGES: [(Change, u64, &'static str); 4] = [
    (Change::Opens, 0, "\n"),
    (
        Change::Commits,
        0,
        "----------------aaa\n------------------a",
    ),
    (Change::Replaces, NEXT, "aaaaaaccc\naaaaaaaac"),
    (
        Change::Empties,
        NEXT,
        "aaaaaaaaaa---------\naaaaaaaa-----------",
    ),
];

#[test]
fn a_stop_or_fault_inside_a_change_leaves_either_list(rt: HostRuntime) -> Result<(), Fail> {
    for (change, first, table) in CHANGES {
        assert!(rt; goes(rt.alloc(), &change, first, table)?, "{table}");
        assert!(rt; fails_all(rt.alloc(), &change, first, table)?, "{table}");
    }
    Ok(())
}

/// Whether opening leaves these sides unchanged.
fn stays_on(alloc: Global, disk: &mut MemDisk, a: &[u8], b: &[u8]) -> Result<bool, StoreFault> {
    write_durably(disk, Side::A, 0, a)?;
    write_durably(disk, Side::B, 0, b)?;
    Journal::from_disk(alloc, disk, 1, Payloads::new(alloc))?;
    Ok(disk.reads(Side::A) == a && disk.reads(Side::B) == b)
}

fn stays(alloc: Global, a: &[u8], b: &[u8]) -> Result<bool, StoreFault> {
    let mut disk = empty_disk(alloc, &[])?;
    stays_on(alloc, &mut disk, a, b)
}

#[test]
fn opening_a_healthy_disk_writes_nothing(rt: HostRuntime) -> Result<(), Fail> {
    assert!(rt; stays(rt.alloc(), &EMPTY, &[])?);
    assert!(rt; stays(rt.alloc(), &[], &WITH_AB)?);
    assert!(rt; stays(rt.alloc(), &WITH_CD, &WITH_AB)?);
    assert!(rt; stays(rt.alloc(), &WITH_AB, &WITH_CD)?);
    Ok(())
}

/// Whether emptying a disk with `sides` leaves `left`.
fn empties_on(
    alloc: Global,
    disk: &mut MemDisk,
    sides: [&[u8]; 2],
    left: [&[u8]; 2],
) -> Result<bool, StoreFault> {
    write_durably(disk, Side::A, 0, sides[0])?;
    write_durably(disk, Side::B, 0, sides[1])?;
    Journal::open_empty(alloc, disk, 1, 1)?;
    Ok(disk.reads(Side::A) == left[0] && disk.reads(Side::B) == left[1])
}

fn empties(alloc: Global, sides: [&[u8]; 2], left: [&[u8]; 2]) -> Result<bool, StoreFault> {
    let mut disk = empty_disk(alloc, &[])?;
    empties_on(alloc, &mut disk, sides, left)
}

#[test]
fn an_emptied_disk_has_the_side_that_counted_or_a(rt: HostRuntime) -> Result<(), Fail> {
    assert!(rt; empties(rt.alloc(), [&WITH_AB, &[]], [&EMPTY, &[]])?);
    assert!(rt; empties(rt.alloc(), [&WITH_AB, &WITH_CD], [&[], &EMPTY])?);
    assert!(rt; empties(rt.alloc(), [&[0; 30], &WITH_AB], [&[], &EMPTY])?);
    assert!(rt; empties(rt.alloc(), [&[7; 30], &[9; 40]], [&EMPTY, &[]])?);
    Ok(())
}

/// Whether side A of an image of a moment begins with `EMPTY`, its bytes before the commit.
fn begins_empty(alloc: Global, disk: &MemDisk, moment: u64, length: u64) -> Result<bool, NoMemory> {
    let image = disk.crash(alloc, moment, length, 37)?;
    Ok(image.reads(Side::A).starts_with(&EMPTY))
}

/// The same of each image inside of the two calls of a commit before its first sync.
fn begins_so(alloc: Global, disk: &MemDisk) -> Result<bool, NoMemory> {
    for moment in [COMMIT, COMMIT + 1] {
        if !begins_empty(alloc, disk, moment, 0)? || !begins_empty(alloc, disk, moment, LONG)? {
            return Ok(false);
        }
    }
    Ok(true)
}

fn stays_until_synced(alloc: Global) -> Result<bool, StoreFault> {
    let mut disk = empty_disk(alloc, &[])?;
    Ok(commits(alloc, &mut disk)? && begins_so(alloc, &disk)?)
}

#[test]
fn a_stop_before_the_first_sync_leaves_the_side_as_it_was(rt: HostRuntime) -> Result<(), Fail> {
    assert!(rt; stays_until_synced(rt.alloc())?);
    Ok(())
}

/// Whether a disk whose side A has these bytes has the payloads of a letter.
fn side_holds(alloc: Global, bytes: &[u8], letter: u8) -> Result<bool, StoreFault> {
    let mut disk = empty_disk(alloc, &[])?;
    write_durably(&mut disk, Side::A, 0, bytes)?;
    holds(alloc, &mut disk, letter)
}

/// The same where one of the bytes of `WITH_AB` is changed.
fn changed_holds(alloc: Global, index: usize, byte: u8, letter: u8) -> Result<bool, StoreFault> {
    let mut bytes = WITH_AB;
    if index >= bytes.len() {
        return Ok(false);
    }
    bytes[index] = byte;
    side_holds(alloc, &bytes, letter)
}

/// An index, the byte there, and the payloads: a dead side, another mark, another form, a length past the end, a closed
/// commit byte that is 1.
static CHANGED: [(usize, u8, u8); 6] = [
    (0, 2, b'-'),
    (8, b'X', b'-'),
    (9, 2, b'-'),
    (18, 37, b'-'),
    (19, 3, b'-'),
    (25, 1, b'a'),
];

#[test]
fn any_bytes_stand_for_some_payloads(rt: HostRuntime) -> Result<(), Fail> {
    for row in CHANGED {
        assert!(rt; changed_holds(rt.alloc(), row.0, row.1, row.2)?);
    }
    Ok(())
}
