//! The pattern that bytes mean.

ghost use Rattle.std.specs.Prelude.{◌≡◌, ◌+◌, ◌<◌, ◌≤◌, ◌∷◌, ℕ, None, length, drop, option_map, slice_index, IfOk, IfSome, MatchOption};
ghost use Rattle.testbench_select.specs.Patterns.{one_byte, before_closing, ranges_of, set_length, set_after, opened_set, first_pattern_part, pattern_parts_of};
ghost use Rattle.testbench_select.specs.Segments.{found_pattern_part};

use crate::pattern::{ByteRange, Pattern, PatternPart};
use base::{Items, NoMemory};
use std::alloc::Global;

/// A pattern part, and how many of the bytes after its first one belong to it.
#[derive(Drop)]
struct Found {
    pattern_part: PatternPart,
    taken: usize,
}

/// What stands for the ranges of a set.
fn ranges(alloc: Global, members: &[u8]) -> Result<Items<ByteRange>, NoMemory>
    ensures { IfOk result (λ ranges. ranges ≡ ranges_of members.now) }
{
    let mut ranges = Items::new(alloc);
    let mut rest = members;
    while let [first, others @ ..] = rest {
        match range_end(others) {
            Some(last) => {
                ranges.push(ByteRange {
                    first: *first,
                    last,
                })?;
                rest = &others[2..];
            }
            None => {
                ranges.push(ByteRange {
                    first: *first,
                    last: *first,
                })?;
                rest = others;
            }
        }
    }
    Ok(ranges)
}

/// The last byte of a range, where these bytes after its first are a `-` and one more.
#[tactic(auto, unfolding(crate::specs::Patterns::ranges_of))]
fn range_end(bytes: &[u8]) -> Option<u8>
    ensures { MatchOption result
        ((first : ℕ) → ranges_of (first ∷ bytes.now) ≡ one_byte first ∷ ranges_of bytes.now)
        (λ last. (2 ≤ length bytes.now)
        × ((first : ℕ) → ranges_of (first ∷ bytes.now) ≡
        record { first = first; last = last } ∷ ranges_of (drop 2 bytes.now))) }
{
    if bytes.len() < 2 {
        return None;
    }
    if bytes[0] != b'-' {
        return None;
    }
    Some(bytes[1])
}

/// The offset after the last `]`.
fn end_of_sets(bytes: &[u8]) -> usize
    ensures within { result ≤ length bytes.now }
    ensures none { before_closing (drop result bytes.now) ≡ None }
{
    let mut end = bytes.len();
    while end > 0 && bytes[end - 1] != b']' {
        end -= 1;
    }
    end
}

/// How many bytes of a set come before its `]`, where the set's bytes begin at an offset, and no `]` comes after the end.
fn members_count(bytes: &[u8], at: usize, end: usize) -> Option<usize>
    requires within { at ≤ length bytes.now }
    requires end { end ≤ length bytes.now }
    requires none { before_closing (drop end bytes.now) ≡ None }
    ensures count { result ≡ set_length (drop at bytes.now) }
    ensures within { IfSome result (λ count. at + count < length bytes.now) }
{
    for i in at + 1..end {
        if bytes[i] == b']' {
            return Some(i - at);
        }
    }
    None
}

/// The set whose bytes begin at an offset.
#[tactic(auto, unfolding(crate::specs::Patterns::set_after))]
fn set_at(
    alloc: Global,
    bytes: &[u8],
    at: usize,
    end: usize,
    negated: bool,
    taken: usize,
) -> Result<Option<Found>, NoMemory>
    requires within { at ≤ length bytes.now }
    requires taken { taken ≤ at }
    requires end { end ≤ length bytes.now }
    requires none { before_closing (drop end bytes.now) ≡ None }
    ensures found { IfOk result (λ found.
        option_map found_pattern_part found ≡ set_after negated taken (drop at bytes.now)) }
    ensures within { IfOk result (λ found. IfSome found (λ found.
        at + found.taken ≤ length bytes.now + taken)) }
{
    match members_count(bytes, at, end) {
        Some(count) => Ok(Some(Found {
            pattern_part: PatternPart::OneOf {
                negated,
                ranges: ranges(alloc, &bytes[at..at + count])?,
            },
            taken: taken + count + 1,
        })),
        None => Ok(None),
    }
}

/// The set that the `[` before an offset opens, if it opens one.
#[tactic(auto, using(crate::proofs::Sets::opened_at, crate::proofs::Sets::none_opened))]
fn read_set(alloc: Global, bytes: &[u8], at: usize, end: usize) -> Result<Option<Found>, NoMemory>
    requires within { at ≤ length bytes.now }
    requires end { end ≤ length bytes.now }
    requires none { before_closing (drop end bytes.now) ≡ None }
    ensures found { IfOk result (λ found.
        option_map found_pattern_part found ≡ opened_set (drop at bytes.now)) }
    ensures within { IfOk result (λ found. IfSome found (λ found.
        at + found.taken ≤ length bytes.now)) }
{
    if at >= bytes.len() {
        return Ok(None);
    }
    if bytes[at] == b'!' {
        set_at(alloc, bytes, at + 1, end, true, 1)
    } else {
        set_at(alloc, bytes, at, end, false, 0)
    }
}

/// The pattern part that begins at an offset.
#[tactic(auto, unfolding(crate::specs::Patterns::first_pattern_part))]
fn pattern_part_at(alloc: Global, bytes: &[u8], at: usize, end: usize) -> Result<Found, NoMemory>
    requires within { at < length bytes.now }
    requires end { end ≤ length bytes.now }
    requires none { before_closing (drop end bytes.now) ≡ None }
    ensures found { IfOk result (λ found.
        found_pattern_part found ≡ first_pattern_part (slice_index bytes.now at) (drop (at + 1) bytes.now)) }
    ensures within { IfOk result (λ found. at + 1 + found.taken ≤ length bytes.now) }
{
    let pattern_part = match bytes[at] {
        b'*' => PatternPart::AnyBytes,
        b'?' => PatternPart::AnyByte,
        b'[' => match read_set(alloc, bytes, at + 1, end)? {
            Some(found) => return Ok(found),
            None => PatternPart::Byte(b'['),
        },
        byte => PatternPart::Byte(byte),
    };
    Ok(Found {
        pattern_part,
        taken: 0,
    })
}

/// The pattern that bytes mean:
///
/// - `*` stands for any bytes.
/// - `?` stands for one byte.
/// - `[..]` stands for one byte of a set or, with a `!` first, for one byte outside of the set.
/// - Any other byte stands for itself.
///
/// The time is in proportion to the bytes.
pub fn read_pattern(alloc: Global, bytes: &[u8]) -> Result<Pattern, NoMemory>
    ensures { IfOk result (λ pattern. pattern ≡ pattern_parts_of bytes.now) }
{
    let end = end_of_sets(bytes);
    let mut pattern_parts = Items::new(alloc);
    let mut at = 0;
    while at < bytes.len() {
        let Found {
            pattern_part,
            taken,
        } = pattern_part_at(alloc, bytes, at, end)?;
        pattern_parts.push(pattern_part)?;
        at += 1 + taken;
    }
    Ok(Pattern::of_pattern_parts(pattern_parts))
}
