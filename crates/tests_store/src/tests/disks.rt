//! Tests of the disk over memory: what a stop can leave.
use base::{DiskFailed, Items, NoMemory, Numbers};
use memory_outside::MemDisk;
use outside::{Disk, Side};
use std::alloc::Global;
use std::test::Fail;

const LONG: u64 = (1 << 63) - 1;

/// Steps for side A, one per line: the kind, the offset, `!` if the step fails (else a blank), and the bytes. `w` writes the
/// bytes at the offset, `c` cuts the side to no bytes, `s` syncs it; the last two have the offset 0. Here `abcd` is written and
/// synced, which are the calls 0 and 1. Then `XYZ` is written from the third byte on, and synced.
static TORN: &str = "w0 abcd\ns0 \nw2 XYZ\ns0 \n";

/// What a stop can leave, one image a line: a moment, a length (`L` is the longest), a fill (`F` is 255), and side A, where a
/// dot is a byte of the fill. Inside of the first call, inside of the write over the third byte, inside of the sync after
/// it, and after that.
static TORN_IMAGES: &str =
    "0L7 ....\n200 ab..\n2L0 ab...\n251 ab...\n2LF ab...\n301 ab..\n401 abXYZ\n4L1 abXYZ\n";

/// After the same two calls a cut, a write of one byte after it, and a sync.
static CUT: &str = "w0 abcd\ns0 \nc0 \nw0 Z\ns0 \n";

/// Inside of the cut, inside of the sync after the write, and after that: what was cut may be there until then.
static CUT_IMAGES: &str = "200 \n231 abc\n2L1 abcd\n401 \n4LF .bcd\n5LF Z\n";

/// After the same two calls a write, a cut and a sync that fail, and a sync that doesn't.
static FAILED: &str = "w0 abcd\ns0 \nw3!XY\nc0!\ns0!\ns0 \n";

/// Inside of the last sync, where each failed call counts, and after it.
static FAILED_IMAGES: &str = "500 \n520 ab\n5L0 abc..\n6L0 abcd\n";

/// The number that a letter of a table is.
fn number(letter: u8) -> u64 {
    match letter {
        b'L' => LONG,
        b'F' => 255,
        _ => letter.saturating_sub(b'0') as u64,
    }
}

/// Whether a step fails. A write past the end isn't made.
fn fails(disk: &mut MemDisk, kind: u8, at: u64, bytes: &[u8]) -> bool {
    match kind {
        b'w' => write_at(disk, at, bytes).is_err(),
        b'c' => disk.cut(Side::A).is_err(),
        _ => disk.sync(Side::A).is_err(),
    }
}

fn write_at(disk: &mut MemDisk, at: u64, bytes: &[u8]) -> Result<(), DiskFailed> {
    if (disk.reads(Side::A).len() as u64) < at {
        return Err(DiskFailed);
    }
    disk.write(Side::A, at, bytes)
}

/// Whether a step fails or not as its line says.
fn goes(disk: &mut MemDisk, line: &[u8]) -> bool {
    if line.len() < 3 {
        return false;
    }
    fails(disk, line[0], number(line[1]), &line[3..]) == (line[2] == b'!')
}

fn go_all(disk: &mut MemDisk, steps: &str) -> bool {
    for line in steps.lines() {
        if !goes(disk, line.as_bytes()) {
            return false;
        }
    }
    true
}

/// A disk whose calls of these numbers are to fail, after steps; nothing where one of them goes otherwise than foreseen.
fn disk_after(alloc: Global, failing: &[u64], steps: &str) -> Result<Option<MemDisk>, NoMemory> {
    let failing: Numbers = Items::from_vec(Vec::from_slice(alloc, failing)?);
    let mut disk = MemDisk::new(alloc, failing);
    if go_all(&mut disk, steps) {
        Ok(Some(disk))
    } else {
        Ok(None)
    }
}

/// Whether bytes are as a row of a table says.
fn are(bytes: &[u8], row: &[u8], fill: u8) -> bool {
    if bytes.len() != row.len() {
        return false;
    }
    for i in 0..bytes.len() {
        let wanted = if row[i] == b'.' { fill } else { row[i] };
        if bytes[i] != wanted {
            return false;
        }
    }
    true
}

/// Whether side A of the image of a moment has the bytes of a row, and side B none.
fn leaves(alloc: Global, disk: &MemDisk, line: &[u8]) -> Result<bool, NoMemory> {
    if line.len() < 4 {
        return Ok(false);
    }
    let fill = (number(line[2]) % 256) as u8;
    let image = disk.crash(alloc, number(line[0]), number(line[1]), fill)?;
    Ok(are(image.reads(Side::A), &line[4..], fill) && image.reads(Side::B).is_empty())
}

fn leaves_each(alloc: Global, disk: &MemDisk, images: &str) -> Result<bool, NoMemory> {
    for line in images.lines() {
        if !leaves(alloc, disk, line.as_bytes())? {
            return Ok(false);
        }
    }
    Ok(true)
}

/// Whether each image remains after the steps.
fn leaves_all(alloc: Global, failing: &[u64], steps: &str, images: &str) -> Result<bool, NoMemory> {
    match disk_after(alloc, failing, steps)? {
        Some(disk) => leaves_each(alloc, &disk, images),
        None => Ok(false),
    }
}

#[test]
fn a_stop_leaves_what_the_calls_say(rt: HostRuntime) -> Result<(), Fail> {
    assert!(rt; leaves_all(rt.alloc(), &[], TORN, TORN_IMAGES)?);
    assert!(rt; leaves_all(rt.alloc(), &[], CUT, CUT_IMAGES)?);
    assert!(rt; leaves_all(rt.alloc(), &[2, 3, 4], FAILED, FAILED_IMAGES)?);
    Ok(())
}

/// The second and the third byte, unless there are fewer.
fn second_and_third(disk: &mut MemDisk) -> Result<[u8; 2], DiskFailed> {
    let mut into = [0; 2];
    if disk.reads(Side::A).len() < 3 {
        return Err(DiskFailed);
    }
    disk.read(Side::A, 1, &mut into)?;
    Ok(into)
}

/// Whether the first read fails, the second doesn't, and then a call for the length does.
fn reads_by_turns(disk: &mut MemDisk) -> bool {
    second_and_third(disk).is_err()
        && second_and_third(disk) == Ok(*b"bX")
        && disk.len(Side::A).is_err()
}

#[test]
fn a_listed_read_fails(rt: HostRuntime) -> Result<(), Fail> {
    match disk_after(rt.alloc(), &[4, 6], TORN)? {
        Some(mut disk) => assert!(rt; reads_by_turns(&mut disk)),
        None => return Err(Fail::from("a step that failed")),
    }
    Ok(())
}
