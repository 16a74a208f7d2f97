//! Tests of how a long side is read: payloads that end where what is read at once does, just before or after it, and longer ones.

use crate::trials::empty_disk;
use base::NoMemory;
use memory_outside::MemDisk;
use outside::{Side, StoreFault, write_durably};
use std::alloc::Global;
use std::test::Fail;
use store_journal::{Journal, Opened, Payloads};

/// What a side of form 1 and generation 1 has before its first commit byte.
static HEAD: [u8; 18] = [
    1, b'V', b'U', b'N', b'I', b'T', b'R', b'E', b'C', 1, 1, 0, 0, 0, 0, 0, 0, 0,
];

/// The byte at an index of a payload, by its number.
fn byte_at(number: usize, index: usize) -> u8 {
    (number.wrapping_mul(7).wrapping_add(index) % 251) as u8
}

/// Puts the bytes of a payload.
pub fn put_bytes(side: &mut Vec<u8>, number: usize, length: u32) -> Result<(), NoMemory> {
    for index in 0..length as usize {
        side.push(byte_at(number, index))?;
    }
    Ok(())
}

/// Puts an open commit byte, the length of a payload, and its bytes.
fn put_payload(side: &mut Vec<u8>, number: usize, length: u32) -> Result<(), NoMemory> {
    side.push(1)?;
    side.extend_from_slice(&length.to_le_bytes())?;
    put_bytes(side, number, length)
}

/// A side with payloads of these lengths and a closed commit byte at the end, without its last `dropped` bytes.
pub fn side_of(alloc: Global, lengths: &[u32], dropped: usize) -> Result<Vec<u8>, NoMemory> {
    let mut side = Vec::from_slice(alloc, &HEAD)?;
    for number in 0..lengths.len() {
        put_payload(&mut side, number, lengths[number])?;
    }
    side.push(0)?;
    side.truncate(side.len().saturating_sub(dropped));
    Ok(side)
}

/// Whether a payload is the one of this number and length.
pub fn is_payload(payload: &[u8], number: usize, length: u32) -> bool {
    if payload.len() != length as usize {
        return false;
    }
    for index in 0..payload.len() {
        if payload[index] != byte_at(number, index) {
            return false;
        }
    }
    true
}

/// Whether the payloads are the first `whole` ones of these lengths.
fn are_first(payloads: &Payloads, lengths: &[u32], whole: usize) -> bool {
    if payloads.len() != whole as u64 || whole > lengths.len() {
        return false;
    }
    for number in 0..whole {
        if !is_payload(payloads.get(number as u64), number, lengths[number]) {
            return false;
        }
    }
    true
}

/// Whether opening a disk finds the first `whole` payloads of these lengths.
fn opens_to(
    alloc: Global,
    disk: &mut MemDisk,
    lengths: &[u32],
    whole: usize,
) -> Result<bool, StoreFault> {
    let Opened { payloads, .. } = Journal::from_disk(alloc, disk, 1, Payloads::new(alloc))?;
    Ok(are_first(&payloads, lengths, whole))
}

/// The same of a disk with these bytes as side A, and of a second opening.
fn finds(
    alloc: Global,
    disk: &mut MemDisk,
    side: &[u8],
    lengths: &[u32],
    whole: usize,
) -> Result<bool, StoreFault> {
    write_durably(disk, Side::A, 0, side)?;
    Ok(opens_to(alloc, disk, lengths, whole)? && opens_to(alloc, disk, lengths, whole)?)
}

/// The same of an empty disk.
fn finds_on(alloc: Global, side: &[u8], lengths: &[u32], whole: usize) -> Result<bool, StoreFault> {
    let mut disk = empty_disk(alloc, &[])?;
    finds(alloc, &mut disk, side, lengths, whole)
}

/// The same of a side with payloads of these lengths, without its last `dropped` bytes.
fn is_read(
    alloc: Global,
    lengths: &[u32],
    dropped: usize,
    whole: usize,
) -> Result<bool, StoreFault> {
    let side = side_of(alloc, lengths, dropped)?;
    finds_on(alloc, &side, lengths, whole)
}

/// Lengths of payloads. 131,072 bytes are read at once, from the first commit byte on: with one payload of 131,066 bytes the commit byte
/// after it is the last of these. A longer payload is read alone.
static LENGTHS: [[u32; 3]; 14] = [
    [131_065, 3, 9],
    [131_066, 3, 9],
    [131_067, 3, 9],
    [131_071, 0, 9],
    [131_072, 0, 0],
    [131_073, 0, 9],
    [0, 131_061, 4],
    [0, 131_062, 4],
    [1, 262_144, 131_066],
    [131_073, 131_073, 131_072],
    [131_054, 2, 2],
    [131_055, 2, 2],
    [100_000, 100_000, 100_000],
    [7, 1_000_000, 7],
];

#[test]
fn each_payload_of_a_long_side_is_read(rt: HostRuntime) -> Result<(), Fail> {
    for lengths in LENGTHS {
        assert!(rt; is_read(rt.alloc(), &lengths, 0, 3)?);
    }
    Ok(())
}

/// A payload counts only if it is complete and a commit byte follows it.
#[test]
fn a_long_side_that_breaks_off_has_the_payloads_before(rt: HostRuntime) -> Result<(), Fail> {
    for lengths in LENGTHS {
        assert!(rt; is_read(rt.alloc(), &lengths, 1, 2)?);
        assert!(rt; is_read(rt.alloc(), &lengths, lengths[2] as usize + 4, 2)?);
    }
    Ok(())
}
