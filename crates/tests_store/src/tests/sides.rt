//! Sides that were written by hand: what is read of them, what is committed, and what compaction leaves.

ghost use Rattle.std.specs.Prelude.{◌<◌, length};

use crate::tests::changes::{Change, both, disk_of, fitting_on, full_disk, run, seen_on};
use crate::trials::empty_disk;
use base::{Graph, NoMemory};
use memory_outside::MemDisk;
use outside::{Side, StoreFault};
use std::alloc::Global;
use std::test::Fail;

/// A side of form 3 and generation 1: file `a.vhd` of `lib`, compiled by `cc`, with the text `x` and the artefact `y`, and
/// then with the text `w` and the artefact `v`.
pub(super) static SIDE: [u8; 115] = [
    1, b'V', b'U', b'N', b'I', b'T', b'R', b'E', b'C', 3, 1, 0, 0, 0, 0, 0, 0, 0, //
    1, 43, 0, 0, 0, // an open commit byte, and the length of the payload
    1, 3, 0, 0, 0, b'l', b'i', b'b', 5, 0, 0, 0, b'a', b'.', b'v', b'h', b'd', //
    1, 0, 0, 0, 2, 0, 0, 0, b'c', b'c', //
    1, 1, 0, 0, 0, b'x', 0, 0, 0, 0, 1, 1, 0, 0, 0, b'y', //
    1, 43, 0, 0, 0, //
    1, 3, 0, 0, 0, b'l', b'i', b'b', 5, 0, 0, 0, b'a', b'.', b'v', b'h', b'd', //
    1, 0, 0, 0, 2, 0, 0, 0, b'c', b'c', //
    1, 1, 0, 0, 0, b'w', 0, 0, 0, 0, 1, 1, 0, 0, 0, b'v', //
    0,
];

/// The side of generation 2 that keeps the second record alone.
static KEPT: [u8; 67] = [
    1, b'V', b'U', b'N', b'I', b'T', b'R', b'E', b'C', 3, 2, 0, 0, 0, 0, 0, 0, 0, //
    1, 43, 0, 0, 0, //
    1, 3, 0, 0, 0, b'l', b'i', b'b', 5, 0, 0, 0, b'a', b'.', b'v', b'h', b'd', //
    1, 0, 0, 0, 2, 0, 0, 0, b'c', b'c', //
    1, 1, 0, 0, 0, b'w', 0, 0, 0, 0, 1, 1, 0, 0, 0, b'v', //
    0,
];

/// A side of generation 1 of the file, and then of `b.vhd` with the same text, which depends on it, with the artefact `z`.
static EXAMPLE: [u8; 126] = [
    1, b'V', b'U', b'N', b'I', b'T', b'R', b'E', b'C', 3, 1, 0, 0, 0, 0, 0, 0, 0, //
    1, 43, 0, 0, 0, //
    1, 3, 0, 0, 0, b'l', b'i', b'b', 5, 0, 0, 0, b'a', b'.', b'v', b'h', b'd', //
    1, 0, 0, 0, 2, 0, 0, 0, b'c', b'c', //
    1, 1, 0, 0, 0, b'x', 0, 0, 0, 0, 1, 1, 0, 0, 0, b'y', //
    1, 54, 0, 0, 0, //
    1, 3, 0, 0, 0, b'l', b'i', b'b', 5, 0, 0, 0, b'b', b'.', b'v', b'h', b'd', //
    1, 0, 0, 0, 2, 0, 0, 0, b'c', b'c', //
    0, 0, 0, 0, 0, 0, 0, 0, 0, //
    1, 0, 0, 0, 0, 0, 0, 0, 0, 0, 0, 0, //
    1, 1, 0, 0, 0, b'z', //
    0,
];

/// The side of generation 2 that compaction leaves of the example, after `a.vhd` was recorded anew with the text `w` and the
/// artefact `v`. Its payloads are the old product of `a.vhd`, over which `b.vhd` was compiled, and the records of `b.vhd` and
/// `a.vhd`.
static COMPACTED: [u8; 151] = [
    1, b'V', b'U', b'N', b'I', b'T', b'R', b'E', b'C', 3, 2, 0, 0, 0, 0, 0, 0, 0, //
    1, 23, 0, 0, 0, //
    0, 3, 0, 0, 0, b'l', b'i', b'b', 5, 0, 0, 0, b'a', b'.', b'v', b'h', b'd', //
    1, 1, 0, 0, 0, b'y', //
    1, 51, 0, 0, 0, //
    1, 3, 0, 0, 0, b'l', b'i', b'b', 5, 0, 0, 0, b'b', b'.', b'v', b'h', b'd', //
    1, 0, 0, 0, 2, 0, 0, 0, b'c', b'c', //
    1, 1, 0, 0, 0, b'x', 1, 0, 0, 0, 0, 0, 0, 0, 0, 0, 0, 0, //
    1, 1, 0, 0, 0, b'z', //
    1, 43, 0, 0, 0, //
    1, 3, 0, 0, 0, b'l', b'i', b'b', 5, 0, 0, 0, b'a', b'.', b'v', b'h', b'd', //
    1, 0, 0, 0, 2, 0, 0, 0, b'c', b'c', //
    1, 1, 0, 0, 0, b'w', 0, 0, 0, 0, 1, 1, 0, 0, 0, b'v', //
    0,
];

/// Adds a payload of the first file by the number of its text, whose artefact has this number of bytes, all one letter.
fn put_long(alloc: Global, bytes: &mut Vec<u8>, letter: u8, length: u32) -> Result<(), NoMemory> {
    let artefact = vec![in alloc; letter; length as usize]?;
    bytes.push(1)?;
    bytes.extend_from_slice(&length.saturating_add(45).to_le_bytes())?;
    bytes.extend_from_slice(&SIDE[23..50])?;
    bytes.extend_from_slice(&[0, 0, 0, 0, 0, 0, 0, 0, 0, 0, 0, 0, 0, 1])?;
    bytes.extend_from_slice(&length.to_le_bytes())?;
    bytes.extend_from_slice(&artefact)?;
    Ok(())
}

/// The bytes of a side of the first payload and four more of its file, whose artefacts have these numbers of bytes, and then one
/// with the artefact `z`.
fn long_side(alloc: Global, lengths: &[u32]) -> Result<Vec<u8>, NoMemory> {
    let mut bytes = Vec::from_slice(alloc, &SIDE[..66])?;
    let mut letter = b'e';
    for length in lengths {
        put_long(alloc, &mut bytes, letter, *length)?;
        letter = letter.saturating_add(1);
    }
    put_long(alloc, &mut bytes, b'z', 1)?;
    bytes.push(0)?;
    Ok(bytes)
}

fn long_disk(alloc: Global, lengths: &[u32]) -> Result<MemDisk, StoreFault> {
    let side = long_side(alloc, lengths)?;
    disk_of(alloc, &[], &side)
}

/// Whether side B has these bytes once the store of a disk whose side A is long was opened.
fn makes_side(alloc: Global, lengths: &[u32], wanted: &[u8]) -> Result<bool, StoreFault> {
    let mut disk = long_disk(alloc, lengths)?;
    run(alloc, &mut disk, Change::Opens)?;
    Ok(disk.reads(Side::B) == wanted)
}

/// The side that keeps the first payload's file with the last artefact.
fn kept_side() -> [u8; 67] {
    let mut bytes = KEPT;
    bytes[55] = b'x';
    bytes[65] = b'z';
    bytes
}

/// The lengths of four artefacts. Each of their payloads takes 50 bytes more, and the last payload takes 51 bytes. The live bytes
/// are as many as the first payload takes. So 1,048,576 bytes are dead here, and one more in `PAST_THE_LIMIT`.
static AT_THE_LIMIT: [u32; 4] = [262144, 262144, 262144, 261893];

static PAST_THE_LIMIT: [u32; 4] = [262144, 262144, 262144, 261894];

#[test]
fn a_store_is_compacted_past_the_limit_of_dead_bytes(rt: HostRuntime) -> Result<(), Fail> {
    assert!(rt; makes_side(rt.alloc(), &AT_THE_LIMIT, &[])?);
    assert!(rt; makes_side(rt.alloc(), &PAST_THE_LIMIT, &kept_side())?);
    Ok(())
}

/// The same of a disk of the example, over files with these texts.
fn example(alloc: Global, first: u8, second: u8) -> Result<[u8; 4], StoreFault> {
    let graph = both(alloc, first, second)?;
    let mut disk = disk_of(alloc, &[], &EXAMPLE)?;
    seen_on(alloc, &mut disk, Change::Opens, &graph)
}

#[test]
fn the_example_is_opened_and_its_records_fit(rt: HostRuntime) -> Result<(), Fail> {
    assert!(rt; example(rt.alloc(), b'x', b'x')? == *b"ffyz");
    assert!(rt; example(rt.alloc(), b'x', b'w')? == *b"fsyz");
    assert!(rt; example(rt.alloc(), b'w', b'x')? == *b"sfyz");
    Ok(())
}

/// Which of the files fit a disk of the example whose texts are borrowed from them.
fn example_borrowed(alloc: Global, first: u8, second: u8) -> Result<[u8; 2], StoreFault> {
    let graph = both(alloc, first, second)?;
    let mut disk = disk_of(alloc, &[], &EXAMPLE)?;
    fitting_on(alloc, &mut disk, &graph)
}

#[test]
fn records_of_the_example_fit_by_texts_that_are_borrowed(rt: HostRuntime) -> Result<(), Fail> {
    assert!(rt; example_borrowed(rt.alloc(), b'x', b'x')? == *b"ff");
    assert!(rt; example_borrowed(rt.alloc(), b'x', b'w')? == *b"fs");
    assert!(rt; example_borrowed(rt.alloc(), b'w', b'x')? == *b"sf");
    assert!(rt; example_borrowed(rt.alloc(), b'w', b'w')? == *b"ss");
    Ok(())
}

/// Whether side A has these bytes once both files were committed to the store of a disk.
fn commits_both(alloc: Global, disk: &mut MemDisk, wanted: &[u8]) -> Result<bool, StoreFault> {
    run(alloc, disk, Change::CommitsBoth)?;
    Ok(disk.reads(Side::A) == wanted)
}

#[test]
fn the_example_is_committed(rt: HostRuntime) -> Result<(), Fail> {
    let mut disk = empty_disk(rt.alloc(), &[])?;
    assert!(rt; commits_both(rt.alloc(), &mut disk, &EXAMPLE)?);
    Ok(())
}

/// The example, and then the second payload of `SIDE`.
fn recorded_anew(alloc: Global) -> Result<Vec<u8>, NoMemory> {
    let mut bytes = Vec::from_slice(alloc, &EXAMPLE[..125])?;
    bytes.extend_from_slice(&SIDE[66..])?;
    Ok(bytes)
}

fn anew_disk(alloc: Global) -> Result<MemDisk, StoreFault> {
    let side = recorded_anew(alloc)?;
    full_disk(alloc, &[], &side)
}

/// What is seen of such a disk once it is opened, and so compacted, where side B has these bytes then.
fn seen_compacted(alloc: Global, wanted: &[u8], graph: &Graph) -> Result<[u8; 4], StoreFault>
    requires { 1 < length graph.now }
{
    let mut disk = anew_disk(alloc)?;
    let letters = seen_on(alloc, &mut disk, Change::Compacts, graph)?;
    if disk.reads(Side::B) != wanted {
        return Ok(*b"????");
    }
    Ok(letters)
}

/// The same over files with these texts.
fn observe_compaction(alloc: Global, first: u8, second: u8) -> Result<[u8; 4], StoreFault> {
    let graph = both(alloc, first, second)?;
    seen_compacted(alloc, &COMPACTED, &graph)
}

#[test]
fn compaction_keeps_the_product_that_a_record_stands_over(rt: HostRuntime) -> Result<(), Fail> {
    assert!(rt; observe_compaction(rt.alloc(), b'w', b'x')? == *b"fsvz");
    assert!(rt; observe_compaction(rt.alloc(), b'x', b'x')? == *b"ssvz");
    Ok(())
}
