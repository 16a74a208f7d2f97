//! Sides of hostile payloads of passes, written by hand: what is recalled of them.

use crate::tests::changes::disk_of;
use crate::tests::pass_changes::letter_on;
use crate::tests::random_sides::bytes_of;
use crate::tests::sides::SIDE;
use base::NoMemory;
use memory_outside::MemDisk;
use outside::{Side, StoreFault};
use std::alloc::Global;
use std::test::Fail;

/// What a side of form 5 and generation 1 has before its first commit byte.
static HEAD: [u8; 18] = [
    1, b'V', b'U', b'N', b'I', b'T', b'R', b'E', b'C', 5, 1, 0, 0, 0, 0, 0, 0, 0,
];

/// One row per line: the payloads of a side, with ` / ` between them, and after `|` two letters. The first is what is recalled over the
/// file `p` of `l` with the artefact `a`. The second is what is recalled over this file and `q` of `l` with the same artefact. A payload
/// begins with the empty texts of its run and no case. Its other parts are named, or are in hexadecimal digits. The names of parts:
///
/// - `W`: the word `s` of the simulator; `S`: the flags 1 and 0, and this word;
/// - `P` and `Q`: the names of both files; `A`: the artefact, as a new one;
/// - `N`: a new list of the first file; `K`: the list of number 0;
/// - `o` and `q`: the outputs.
static ROWS: &str = "S N o|o-
S N o / S K q|q-
S 0102000000 P A Q 000000000000000000 o|-o
S K o|--
S N o / S 000100000000000000 q|o-
S K o / S N q / S K o|o-
S N o / S N q|o-
S N o / S 0101000000 P 000000000000000000 q|o-
S N o / S 0101000000 P 000100000000000000 q|o-
S N o / S 0101000000 Q A q|o-
S 0102000000 P A Q A o|--
S 0102000000 P 000000000000000000 Q A o|--
S 01ffffffff P A o|--
S 020000000000000000 o|--
S N o / 0200 W K q|o-
S N o / 0102 W K q|o-
S N o / 0100 00000000 K q|o-
S N o / S K q 00|o-
S N o / S K 02000000 71|o-
S N o / S K|o-";

/// The digits of a part.
fn digits_of(part: &str) -> &str {
    match part {
        "S" => "0100010000000100000073",
        "W" => "010000000100000073",
        "P" => "010000006c0100000070",
        "Q" => "010000006c0100000071",
        "A" => "010100000061",
        "N" => "0101000000010000006c0100000070010100000061",
        "K" => "000000000000000000",
        "o" => "010000006f",
        "q" => "0100000071",
        _ => part,
    }
}

/// The bytes of a payload.
fn payload_of(alloc: Global, parts: &str) -> Result<Vec<u8>, NoMemory> {
    let mut bytes = vec![in alloc; 0; 20]?;
    for part in parts.split(' ') {
        bytes.extend_from_slice(&bytes_of(alloc, digits_of(part).as_bytes())?)?;
    }
    Ok(bytes)
}

/// Puts an open commit byte, the length of a payload, and its bytes.
fn put_payload(side: &mut Vec<u8>, payload: &[u8]) -> Result<(), NoMemory> {
    side.push(1)?;
    side.extend_from_slice(&(payload.len() as u64).to_le_bytes()[..4])?;
    side.extend_from_slice(payload)?;
    Ok(())
}

/// The bytes of a side.
fn side_of(alloc: Global, payloads: &str) -> Result<Vec<u8>, NoMemory> {
    let mut side = Vec::from_slice(alloc, &HEAD)?;
    for parts in payloads.split(" / ") {
        put_payload(&mut side, &payload_of(alloc, parts)?)?;
    }
    side.push(0)?;
    Ok(side)
}

/// Both letters that are recalled of the store of a disk.
fn letters_on(alloc: Global, disk: &mut MemDisk) -> Result<[u8; 2], StoreFault> {
    let first = letter_on(alloc, disk, b"a", &[])?;
    Ok([first, letter_on(alloc, disk, b"a", b"a")?])
}

/// Whether a row is as it says.
fn is_right(alloc: Global, row: &str) -> Result<bool, StoreFault> {
    let Some((payloads, letters)) = row.split_once('|') else {
        return Ok(false);
    };
    let mut disk = disk_of(alloc, &[], &side_of(alloc, payloads)?)?;
    Ok(letters_on(alloc, &mut disk)?.as_slice() == letters.as_bytes())
}

#[test]
fn a_wrong_list_text_number_or_flag_adds_nothing(rt: HostRuntime) -> Result<(), Fail> {
    for row in ROWS.lines() {
        assert!(rt; is_right(rt.alloc(), row)?, "{row}");
    }
    Ok(())
}

/// Puts a text of bytes that are all one letter.
fn put_long(out: &mut Vec<u8>, letter: u8, length: u32) -> Result<(), NoMemory> {
    out.extend_from_slice(&length.to_le_bytes())?;
    for _ in 0..length {
        out.push(letter)?;
    }
    Ok(())
}

/// A payload whose new list has the file `p` of `l`, with an artefact of this number of bytes, and whose output has that number.
fn long_payload(alloc: Global, artefact: u32, output: u32) -> Result<Vec<u8>, NoMemory> {
    let mut payload = payload_of(alloc, "S 0101000000 P 01")?;
    put_long(&mut payload, b'b', artefact)?;
    put_long(&mut payload, b'o', output)?;
    Ok(payload)
}

/// The letter that is recalled over the artefact `a` of such a payload, then one with a new list, and one with the list of number 0.
fn letter_after(alloc: Global, artefact: u32, output: u32) -> Result<u8, StoreFault> {
    let mut side = Vec::from_slice(alloc, &HEAD)?;
    put_payload(&mut side, &long_payload(alloc, artefact, output)?)?;
    put_payload(&mut side, &payload_of(alloc, "S N o")?)?;
    put_payload(&mut side, &payload_of(alloc, "S K q")?)?;
    side.push(0)?;
    letter_on(alloc, &mut disk_of(alloc, &[], &side)?, b"a", &[])
}

#[test]
fn an_artefact_or_output_above_its_limit_adds_nothing(rt: HostRuntime) -> Result<(), Fail> {
    assert!(rt; letter_after(rt.alloc(), 262_144, 4_096)? == b'-');
    assert!(rt; letter_after(rt.alloc(), 262_145, 4_096)? == b'q');
    assert!(rt; letter_after(rt.alloc(), 262_144, 4_097)? == b'q');
    Ok(())
}

/// Whether nothing is recalled of a disk with these bytes as side A, which then has no payload.
fn opens_bare(alloc: Global, bytes: &[u8]) -> Result<bool, StoreFault> {
    let mut disk = disk_of(alloc, &[], bytes)?;
    let letters = letters_on(alloc, &mut disk)?;
    let a = disk.reads(Side::A);
    Ok(letters == *b"--" && a.len() == 19 && a.starts_with(&HEAD))
}

#[test]
fn other_sides_are_no_passes(rt: HostRuntime) -> Result<(), Fail> {
    assert!(rt; opens_bare(rt.alloc(), &SIDE)?);
    assert!(rt; opens_bare(rt.alloc(), &HEAD)?);
    assert!(rt; opens_bare(rt.alloc(), &[255; 30])?);
    Ok(())
}
