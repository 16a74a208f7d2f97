//! Counts the records on both sides of a store that can't be read.

use crate::side::SideBytes;
use crate::walk::{payloads_behind_header, unread_payloads};
use base_bytes::ByteReader;

/// The bytes of a side up to its first commit byte, and with it.
const HEADER: usize = 19;

/// What a side begins with that counts, before its form.
const MAGIC: &[u8] = b"\x01VUNITREC";

/// The form of the payloads that are looked at.
const FORM: u8 = 3;

/// How many records of each side can't be read.
#[derive(Clone, Copy)]
pub struct Unread {
    pub a: u64,
    pub b: u64,
}

/// The header of a side.
#[derive(Clone, Copy)]
struct Header {
    /// Whether it is live, and of the form that is looked at.
    is_live: bool,
    /// Whether it is live, but with bytes that no program writes.
    is_damaged: bool,
    generation: u64,
}

/// The header of a side that is neither live nor damaged.
const NOTHING: Header = Header {
    is_live: false,
    is_damaged: false,
    generation: 0,
};

/// How many records of the store in two files can't be read. Only the side that counts is looked at, and one that would count
/// but for damaged first bytes.
pub fn unread_records(rt: &HostRuntime, a: &str, b: &str) -> Unread {
    let mut side_a = SideBytes::open(rt, a);
    let mut side_b = SideBytes::open(rt, b);
    let first = header_of(&mut side_a);
    let second = header_of(&mut side_b);
    let is_b_newer = first.generation < second.generation;
    let counts_b = second.is_live && (!first.is_live || is_b_newer);
    let counts_a = first.is_live && !counts_b;
    let hides_a = first.is_damaged && (!counts_b || !is_b_newer);
    let hides_b = second.is_damaged && (!counts_a || is_b_newer);
    Unread {
        a: unread_of(&mut side_a, counts_a, hides_a),
        b: unread_of(&mut side_b, counts_b, hides_b),
    }
}

/// How many records of a side can't be read: 0 unless it counts, or would count but for damaged first bytes.
fn unread_of(side: &mut Option<SideBytes>, counts: bool, would_count: bool) -> u64 {
    match side {
        Some(side) if counts => unread_payloads(side),
        Some(side) if would_count => payloads_behind_header(side),
        _ => 0,
    }
}

/// The header of a side; `NOTHING` if the side is missing or too short.
fn header_of(side: &mut Option<SideBytes>) -> Header {
    match side {
        Some(side) => match side.bytes(0, HEADER) {
            Some(bytes) => header_in(bytes),
            None => NOTHING,
        },
        None => NOTHING,
    }
}

fn header_in(bytes: &[u8]) -> Header {
    let magic = bytes.get(..MAGIC.len()).unwrap_or(b"");
    let rest = bytes.get(MAGIC.len()..).unwrap_or(b"");
    let form = rest.first().copied().unwrap_or(0);
    let number = rest.get(1..).unwrap_or(b"");
    let is_written = magic == MAGIC && form >= 1 && form <= FORM;
    Header {
        is_live: magic == MAGIC && form == FORM,
        is_damaged: magic.first() == MAGIC.first() && !is_written,
        generation: ByteReader::new(number).u64().unwrap_or(0),
    }
}
