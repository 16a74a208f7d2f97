//! Walking over the payloads of a side, and over the payloads behind damaged bytes.

use crate::payloads::{There, after_payload};
use crate::side::{SideBytes, WINDOW};
use base_bytes::ByteReader;

/// Where the first commit byte stands.
const FIRST_COMMIT_BYTE: u64 = 18;

/// How many payloads are tried behind a damage at most.
const TRIES: usize = 100_000;

/// How many bytes behind a damage are looked through at most, so that a file of any length is soon passed.
const SEARCHED: u64 = 67_108_864;

/// A commit byte is open where it has this value.
const OPEN: u8 = 1;

/// The bounds for a payload that is found behind damaged bytes: its numbers aren't checked.
const ANYTHING: There = There {
    texts: u64::MAX,
    products: u64::MAX,
};

/// A payload, from its first byte up to the commit byte after it.
#[derive(Clone, Copy)]
struct Span {
    at: u64,
    end: u64,
}

/// The whole payload after a commit byte, with one more commit byte behind it, whatever the commit byte is.
fn span_after(side: &mut SideBytes, commit_byte: u64) -> Option<Span> {
    let count = ByteReader::new(side.bytes(commit_byte.saturating_add(1), 4)?).u32()?;
    let at = commit_byte.saturating_add(5);
    let end = at.saturating_add(u64::from(count));
    if end < side.len() {
        Some(Span { at, end })
    } else {
        None
    }
}

fn is_open(side: &mut SideBytes, commit_byte: u64) -> bool {
    match side.bytes(commit_byte, 1) {
        Some(bytes) => bytes.first() == Some(&OPEN),
        None => false,
    }
}

/// How many payloads of the side that counts can't be read: payloads without the form of a record or a product, and payloads
/// that have such a form but can't be reached any more.
pub fn unread_payloads(side: &mut SideBytes) -> u64 {
    let mut commit_byte = FIRST_COMMIT_BYTE;
    let mut there = There {
        texts: 0,
        products: 0,
    };
    let mut unread: u64 = 0;
    let mut last_unread = None;
    for _ in 0..u64::MAX {
        if !is_open(side, commit_byte) {
            break;
        }
        let Some(span) = span_after(side, commit_byte) else {
            // (a commit opens a commit byte only once its payload is whole)
            return unread
                .saturating_add(1)
                .saturating_add(found_behind(side, commit_byte));
        };
        match after_payload(side, span.at, span.end, there) {
            Some(after) => {
                there = after;
                last_unread = None;
            }
            None => {
                unread = unread.saturating_add(1);
                last_unread = Some(commit_byte);
            }
        }
        commit_byte = span.end;
    }
    let behind = match last_unread {
        Some(damaged) => found_behind(side, damaged),
        None => closed_off(side, commit_byte),
    };
    unread.saturating_add(behind)
}

/// Counts the valid payloads in a row from a commit byte on, with open commit bytes between them. Gives their number and the
/// offset of the commit byte after the last one.
fn in_a_row(side: &mut SideBytes, from: u64) -> (u64, u64) {
    let mut commit_byte = from;
    let mut count: u64 = 0;
    for _ in 0..u64::MAX {
        let Some(span) = span_after(side, commit_byte) else {
            return (count, commit_byte);
        };
        if after_payload(side, span.at, span.end, ANYTHING).is_none() {
            return (count, commit_byte);
        }
        count = count.saturating_add(1);
        commit_byte = span.end;
        if !is_open(side, commit_byte) {
            return (count, commit_byte);
        }
    }
    (count, commit_byte)
}

/// How many payloads a closed commit byte keeps from being read. A stop in a commit leaves one at most.
fn closed_off(side: &mut SideBytes, commit_byte: u64) -> u64 {
    let (count, _) = in_a_row(side, commit_byte);
    if count > 1 { count } else { 0 }
}

/// How many payloads after an open commit byte are found behind a damage.
fn found_behind(side: &mut SideBytes, damaged: u64) -> u64 {
    let mut from = damaged.saturating_add(1);
    let until = from.saturating_add(SEARCHED);
    let mut found: u64 = 0;
    for _ in 0..TRIES {
        let Some(commit_byte) = next_open(side, from, until) else {
            return found;
        };
        let (count, end) = in_a_row(side, commit_byte);
        found = found.saturating_add(count);
        from = if count > 0 {
            end
        } else {
            commit_byte.saturating_add(1)
        };
    }
    found
}

/// The offset of the next byte before a limit that an open commit byte may be.
fn next_open(side: &mut SideBytes, from: u64, until: u64) -> Option<u64> {
    let end = side.len().min(until);
    let mut at = from;
    for _ in 0..u64::MAX {
        if at >= end {
            return None;
        }
        let left = end.saturating_sub(at).min(WINDOW as u64);
        let bytes = side.bytes(at, usize::try_from(left).ok()?)?;
        if let Some(index) = bytes.iter().position(|byte| *byte == OPEN) {
            return Some(at.saturating_add(index as u64));
        }
        at = at.saturating_add(left);
    }
    None
}

/// How many payloads of a side whose first bytes are damaged have the form of one.
pub fn payloads_behind_header(side: &mut SideBytes) -> u64 {
    if is_open(side, FIRST_COMMIT_BYTE) {
        in_a_row(side, FIRST_COMMIT_BYTE).0
    } else {
        0
    }
}
