//! Tests of a journal of two forms over a disk in memory: which one counts, and stops and failing calls while a newer one
//! takes the index of an older one.

ghost use Rattle.std.specs.Prelude.{◌≡◌, false};
ghost use Rattle.store_journal.specs.Forms.{has_form};
ghost use Rattle.store_journal.specs.Journals.{IsInStep};
ghost use Rattle.memory_outside.specs.Disks.{moments_of};
ghost use Rattle.outside.specs.Disks.{reads_of};

use crate::tests::journals::are;
use crate::trials::{Trial, empty_disk, fails_all, goes};
use memory_outside::MemDisk;
use outside::{Side, StoreFault, write_durably};
use std::alloc::Global;
use std::test::Fail;
use store_journal::{FoundForm, Journal, Opened, Payloads};

pub const OLDER: u8 = 2;

pub const NEWER: u8 = 3;

/// A side of the older form and generation 1 with the payload `ab`.
pub static OLD_AB: [u8; 26] = [
    1, b'V', b'U', b'N', b'I', b'T', b'R', b'E', b'C', 2, 1, 0, 0, 0, 0, 0, 0, 0, 1, 2, 0, 0, 0,
    b'a', b'b', 0,
];

/// The same of generation 9, with an open commit byte at its end.
static OPEN_AB: [u8; 26] = [
    1, b'V', b'U', b'N', b'I', b'T', b'R', b'E', b'C', 2, 9, 0, 0, 0, 0, 0, 0, 0, 1, 2, 0, 0, 0,
    b'a', b'b', 1,
];

/// The same with the commit byte closed.
static SHUT_AB: [u8; 26] = [
    1, b'V', b'U', b'N', b'I', b'T', b'R', b'E', b'C', 2, 9, 0, 0, 0, 0, 0, 0, 0, 1, 2, 0, 0, 0,
    b'a', b'b', 0,
];

/// A side of the older form and generation 2 with the payload `cd`.
static OLD_CD: [u8; 26] = [
    1, b'V', b'U', b'N', b'I', b'T', b'R', b'E', b'C', 2, 2, 0, 0, 0, 0, 0, 0, 0, 1, 2, 0, 0, 0,
    b'c', b'd', 0,
];

/// A side of the newer form and generation 1 with the payload `cd`.
pub static NEW_CD: [u8; 26] = [
    1, b'V', b'U', b'N', b'I', b'T', b'R', b'E', b'C', 3, 1, 0, 0, 0, 0, 0, 0, 0, 1, 2, 0, 0, 0,
    b'c', b'd', 0,
];

/// A side of the newer form and generation 1 without payloads.
static NEW_EMPTY: [u8; 19] = [
    1, b'V', b'U', b'N', b'I', b'T', b'R', b'E', b'C', 3, 1, 0, 0, 0, 0, 0, 0, 0, 0,
];

/// The numbers of the disk calls: writing a side takes 2, and opening one 7.
const OPENING: u64 = 2;

const EMPTYING: u64 = 4;

/// What was found of a form, as a letter: `o` is `ab` of the older form, `c` is `cd` of it, `n` is `cd` of the newer one, and `-` none
/// of that.
fn letter_of(form: u8, opened: &Opened<Payloads>) -> u8 {
    let payloads = &opened.payloads;
    if opened.journal.form() != form {
        return b'?';
    }
    if form == OLDER && are(payloads, b'a') {
        return b'o';
    }
    if form == OLDER && are(payloads, b'c') {
        return b'c';
    }
    if form == NEWER && are(payloads, b'c') {
        return b'n';
    }
    if form == NEWER && are(payloads, b'-') {
        return b'-';
    }
    b'?'
}

/// What opening a disk finds.
fn find(alloc: Global, disk: &mut MemDisk) -> Result<u8, StoreFault> {
    let found = Journal::found_in(
        alloc,
        disk,
        NEWER,
        OLDER,
        Payloads::new(alloc),
        Payloads::new(alloc),
    )?;
    match found {
        FoundForm::Newer(opened) => Ok(letter_of(NEWER, &opened)),
        FoundForm::Older(opened) => Ok(letter_of(OLDER, &opened)),
    }
}

/// Whether opening a disk of two sides finds this, and leaves these.
fn finds_on(
    alloc: Global,
    disk: &mut MemDisk,
    sides: [&[u8]; 2],
    letter: u8,
    left: [&[u8]; 2],
) -> Result<bool, StoreFault> {
    write_durably(disk, Side::A, 0, sides[0])?;
    write_durably(disk, Side::B, 0, sides[1])?;
    let found = find(alloc, disk)?;
    Ok(found == letter && disk.reads(Side::A) == left[0] && disk.reads(Side::B) == left[1])
}

fn finds(
    alloc: Global,
    sides: [&[u8]; 2],
    letter: u8,
    left: [&[u8]; 2],
) -> Result<bool, StoreFault> {
    let mut disk = empty_disk(alloc, &[])?;
    finds_on(alloc, &mut disk, sides, letter, left)
}

/// Whether opening a healthy disk finds this, and writes nothing.
fn rests(alloc: Global, sides: [&[u8]; 2], letter: u8) -> Result<bool, StoreFault> {
    finds(alloc, sides, letter, sides)
}

#[test]
fn the_older_form_counts_where_it_alone_is_live(rt: HostRuntime) -> Result<(), Fail> {
    assert!(rt; rests(rt.alloc(), [&OLD_AB, &[]], b'o')?);
    assert!(rt; rests(rt.alloc(), [&[7; 30], &OLD_AB], b'o')?);
    assert!(rt; finds(rt.alloc(), [&OPEN_AB, &[]], b'o', [&SHUT_AB, &[]])?);
    Ok(())
}

#[test]
fn the_newer_form_counts_where_it_is_live(rt: HostRuntime) -> Result<(), Fail> {
    assert!(rt; rests(rt.alloc(), [&NEW_CD, &[]], b'n')?);
    assert!(rt; rests(rt.alloc(), [&OLD_AB, &NEW_CD], b'n')?);
    assert!(rt; rests(rt.alloc(), [&NEW_CD, &OPEN_AB], b'n')?);
    Ok(())
}

#[test]
fn where_neither_is_live_the_newer_one_is_made(rt: HostRuntime) -> Result<(), Fail> {
    assert!(rt; finds(rt.alloc(), [&[], &[]], b'-', [&NEW_EMPTY, &[]])?);
    assert!(rt;
        finds(
            rt.alloc(),
            [&[7; 30], &[9; 40]],
            b'-',
            [&NEW_EMPTY, &[9; 40]]
        )?
    );
    Ok(())
}

/// Puts the payload `cd` of the newer form in the place of those of the older one.
fn change_to_cd(alloc: Global, journal: &mut Journal, disk: &mut MemDisk) -> Result<(), StoreFault>
    requires usable { journal.old.broken ≡ false }
    requires form { journal.old.form ≡ 2 }
    requires in_step { IsInStep journal.old (moments_of disk.old.log).now }
    requires none { has_form 3 (reads_of (moments_of disk.old.log).now) ≡ false }
{
    let mut payloads = Payloads::new(alloc);
    payloads.push(alloc, b"cd")?;
    let side = Journal::first_side(alloc, NEWER, &payloads)?;
    Ok(journal.change_form(disk, side)?)
}

/// Whether a disk has the older form, which the newer one then takes the index of.
fn changes(alloc: Global, disk: &mut MemDisk) -> Result<bool, StoreFault> {
    let FoundForm::Older(opened) = Journal::found_in(
        alloc,
        disk,
        NEWER,
        OLDER,
        Payloads::new(alloc),
        Payloads::new(alloc),
    )?
    else {
        return Ok(false);
    };
    let Opened { mut journal, .. } = opened;
    change_to_cd(alloc, &mut journal, disk)?;
    Ok(true)
}

/// The same of a disk that has `ab` of the older form.
fn changes_ab(alloc: Global, disk: &mut MemDisk) -> Result<bool, StoreFault> {
    write_durably(disk, Side::A, 0, &OLD_AB)?;
    Ok(
        changes(alloc, disk)?
            && disk.reads(Side::A) == OLD_AB.as_slice()
            && disk.reads(Side::B) == NEW_CD.as_slice(),
    )
}

/// The newer form takes the index of the older one.
struct ChangesForm;

impl Trial for ChangesForm {
    fn goes(&self, alloc: Global, disk: &mut MemDisk) -> Result<bool, StoreFault> {
        changes_ab(alloc, disk)
    }

    fn holds(&self, alloc: Global, disk: &mut MemDisk, letter: u8) -> Result<bool, StoreFault> {
        Ok(find(alloc, disk)? == letter)
    }
}

/// From the first call of opening on, of which 7 come before the change: inside of its last write, and of its sync, the first byte
/// may be 1.
static CHANGED: &str = "ooooooooooooonnn\nooooooooooooooon";

#[test]
fn a_stop_or_fault_inside_a_change_of_form_leaves_either(rt: HostRuntime) -> Result<(), Fail> {
    assert!(rt; goes(rt.alloc(), &ChangesForm, OPENING, CHANGED)?);
    assert!(rt; fails_all(rt.alloc(), &ChangesForm, OPENING, CHANGED)?);
    Ok(())
}

/// A disk of two sides is emptied, which leaves two others, and a journal of the newer form.
#[derive(Drop)]
struct Empties {
    sides: [&'static [u8]; 2],
    left: [&'static [u8]; 2],
}

/// Whether emptying a disk of two sides leaves these, and a journal of the newer form.
fn empties_on(
    alloc: Global,
    disk: &mut MemDisk,
    sides: [&[u8]; 2],
    left: [&[u8]; 2],
) -> Result<bool, StoreFault> {
    write_durably(disk, Side::A, 0, sides[0])?;
    write_durably(disk, Side::B, 0, sides[1])?;
    let journal = Journal::open_empty(alloc, disk, NEWER, OLDER)?;
    Ok(journal.form() == NEWER && disk.reads(Side::A) == left[0] && disk.reads(Side::B) == left[1])
}

impl Trial for Empties {
    fn goes(&self, alloc: Global, disk: &mut MemDisk) -> Result<bool, StoreFault> {
        empties_on(alloc, disk, self.sides, self.left)
    }

    fn holds(&self, alloc: Global, disk: &mut MemDisk, letter: u8) -> Result<bool, StoreFault> {
        Ok(find(alloc, disk)? == letter)
    }
}

/// What a stop inside of each call leaves while a disk is emptied, beginning with the first of these calls. The first 6 sync both
/// sides and read how they begin, and 2 cut the side that doesn't count. Then 2 make the other side dead: meanwhile its first byte
/// may have any value. The last 8 write the empty journal there.
static EMPTYING_OLDER: &str = "cccccccccc---------\ncccccccc-----------";

static EMPTYING_NEWER: &str = "nnnnnnnnnn---------\nnnnnnnnn-----------";

/// Whether emptying a disk of two sides leaves these, and a stop at each moment what counted, as a letter, or none.
fn leaves_empty(
    alloc: Global,
    sides: [&'static [u8]; 2],
    left: [&'static [u8]; 2],
    letter: u8,
) -> Result<bool, StoreFault> {
    let table = if letter == b'c' {
        EMPTYING_OLDER
    } else {
        EMPTYING_NEWER
    };
    goes(alloc, &Empties { sides, left }, EMPTYING, table)
}

#[test]
fn a_stop_while_either_form_is_emptied_leaves_what_counted_or_none(
    rt: HostRuntime,
) -> Result<(), Fail> {
    assert!(rt; leaves_empty(rt.alloc(), [&OLD_AB, &OLD_CD], [&[], &NEW_EMPTY], b'c')?);
    assert!(rt; leaves_empty(rt.alloc(), [&OLD_CD, &OLD_AB], [&NEW_EMPTY, &[]], b'c')?);
    assert!(rt; leaves_empty(rt.alloc(), [&OLD_AB, &NEW_CD], [&[], &NEW_EMPTY], b'n')?);
    assert!(rt; leaves_empty(rt.alloc(), [&NEW_CD, &OPEN_AB], [&NEW_EMPTY, &[]], b'n')?);
    Ok(())
}

#[test]
fn each_disk_call_that_empties_the_older_form_may_fail(rt: HostRuntime) -> Result<(), Fail> {
    let trial = Empties {
        sides: [&OLD_AB, &OLD_CD],
        left: [&[], &NEW_EMPTY],
    };
    assert!(rt; fails_all(rt.alloc(), &trial, EMPTYING, EMPTYING_OLDER)?);
    Ok(())
}
