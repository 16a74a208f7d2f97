//! Whether a pattern matches a name.

ghost use Rattle.std.specs.Prelude.{◌≡◌, ◌↔◌, ◌++◌, ◌-◌, ◌+◌, ◌≤◌, ◌∷◌, ◌&&◌, nat_le, length, drop, IsTrue, IfSome, MatchOption};
ghost use Rattle.std.specs.List.{list_any};
ghost use Rattle.testbench_select.specs.declared.pattern.PatternPart.TheVariants.{AnyBytes};
ghost use Rattle.testbench_select.specs.Matching.{is_in_range, Matches};
ghost use Rattle.testbench_select.specs.Segments.{is_any_bytes, is_right, is_match, has_prefix, AreSingle, BeginsAnyBytes, IsFirstIndex, HasNoIndex, IsWhatRemains};

use crate::pattern::{ByteRange, Pattern, PatternPart};

fn is_in(ranges: &[ByteRange], byte: u8) -> bool
    ensures { result ≡ list_any (is_in_range byte) ranges.now }
{
    ranges
        .iter()
        .any(|range| range.first <= byte && byte <= range.last)
}

fn is_any_bytes(pattern_part: &PatternPart) -> bool
    ensures { result ≡ is_any_bytes pattern_part.now }
{
    matches!(pattern_part, PatternPart::AnyBytes)
}

/// Whether a pattern part may stand for a byte.
fn is_right(pattern_part: &PatternPart, byte: u8) -> bool
    ensures { result ≡ is_right pattern_part.now byte }
{
    match pattern_part {
        PatternPart::AnyBytes => true,
        PatternPart::AnyByte => true,
        PatternPart::Byte(other) => *other == byte,
        PatternPart::OneOf { negated, ranges } => is_in(ranges.as_slice(), byte) != *negated,
    }
}

/// Whether a name begins with a byte for each of these pattern parts, in order.
fn begins(pattern_parts: &[PatternPart], name: &[u8]) -> bool
    ensures is { result ≡ has_prefix pattern_parts.now name.now }
    ensures within { IsTrue result → length pattern_parts.now ≤ length name.now }
{
    if name.len() < pattern_parts.len() {
        return false;
    }
    for i in 0..pattern_parts.len() {
        if !is_right(&pattern_parts[i], name[i]) {
            return false;
        }
    }
    true
}

/// Whether a name ends with a byte for each of these pattern parts, in order.
fn ends(pattern_parts: &[PatternPart], name: &[u8]) -> bool
    ensures { result ≡ (nat_le (length pattern_parts.now) (length name.now)
        && has_prefix pattern_parts.now (drop (length name.now - length pattern_parts.now) name.now)) }
{
    name.len() >= pattern_parts.len()
        && begins(pattern_parts, &name[name.len() - pattern_parts.len()..])
}

/// The pattern parts before the first one that stands for any bytes, and the others.
fn split_at_star(pattern_parts: &[PatternPart]) -> (&[PatternPart], &[PatternPart])
    ensures parts { result.0.now ++ result.1.now ≡ pattern_parts.now }
    ensures single { AreSingle result.0.now }
    ensures after { BeginsAnyBytes result.1.now }
{
    let mut count = 0;
    while count < pattern_parts.len() && !is_any_bytes(&pattern_parts[count]) {
        count += 1;
    }
    pattern_parts.split_at(count)
}

/// The first offset in a name from which on it begins with a byte for each of these pattern parts.
fn find(pattern_parts: &[PatternPart], name: &[u8]) -> Option<usize>
    ensures part_index { MatchOption result
        (HasNoIndex pattern_parts.now name.now)
        (IsFirstIndex pattern_parts.now name.now) }
    ensures room { IfSome result (λ at. at + length pattern_parts.now ≤ length name.now) }
{
    for at in 0..=name.len() {
        if begins(pattern_parts, &name[at..]) {
            return Some(at);
        }
    }
    None
}

/// After a pattern part for any bytes: the pattern parts from the next such one on, and what they have to match of a name; `None` where
/// nothing matches.
fn after_any<'a>(others: &'a [PatternPart], name: &'a [u8]) -> Option<(&'a [PatternPart], &'a [u8])>
    ensures { MatchOption result
        (Matches (AnyBytes ∷ others.now) name.now → ⊥)
        (IsWhatRemains others.now name.now) }
{
    let (segment, after) = split_at_star(others);
    if after.is_empty() {
        if ends(segment, name) {
            return Some((after, &name[name.len()..]));
        }
        return None;
    }
    match find(segment, name) {
        Some(at) => Some((after, &name[at + segment.len()..])),
        None => None,
    }
}

/// Whether pattern parts match the whole of a name. The first one stands for any bytes.
fn matches_any(pattern_parts: &[PatternPart], name: &[u8]) -> bool
    requires { BeginsAnyBytes pattern_parts.now }
    ensures { IsTrue result ↔ Matches pattern_parts.now name.now }
{
    let mut left = pattern_parts;
    let mut rest = name;
    while let [_any, others @ ..] = left {
        match after_any(others, rest) {
            Some((after, end)) => {
                left = after;
                rest = end;
            }
            None => return false,
        }
    }
    rest.is_empty()
}

/// Whether the pattern matches all of the name. It takes no memory, and time in proportion to pattern and name where at
/// most one pattern part stands for any bytes; else at most as many comparisons as the product of both.
pub fn matches(pattern: &Pattern, name: &[u8]) -> bool
    ensures relation { IsTrue result ↔ Matches pattern.now name.now }
    ensures test { result ≡ is_match pattern.now name.now }
{
    let (first, others) = split_at_star(pattern.pattern_parts());
    if !begins(first, name) {
        return false;
    }
    matches_any(others, &name[first.len()..])
}
