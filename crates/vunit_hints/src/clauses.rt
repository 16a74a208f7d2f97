//! Names in the tokens of a VHDL text.

use crate::location_words::Word;
use base::NoMemory;
use std::alloc::Global;

/// A name `LIBRARY.UNIT` in a text, and its offset.
#[derive(Clone, Copy)]
pub struct Mention<'a> {
    pub library: &'a [u8],
    pub unit: &'a [u8],
    pub at: usize,
}

/// The bytes of the token at an index; empty after the last token.
fn text_at(words: &[Word], i: usize) -> &[u8] {
    match words.get(i) {
        Some(word) => word.text.as_slice(),
        None => b"",
    }
}

fn is_at(words: &[Word], i: usize, text: &[u8]) -> bool {
    text_at(words, i) == text
}

/// Whether a word comes before a name that can only be of a design unit.
fn leads_to_unit(word: &[u8]) -> bool {
    word == b"use".as_slice() || word == b"entity".as_slice() || word == b"context".as_slice()
}

/// The names `LIBRARY.UNIT` after `use`, `entity` and `context`, in their order.
pub fn unresolved<'a>(alloc: Global, words: &'a [Word]) -> Result<Vec<Mention<'a>>, NoMemory> {
    let mut found = Vec::new(alloc);
    for i in 0..words.len() {
        let first = i.saturating_add(1);
        let second = i.saturating_add(3);
        if leads_to_unit(text_at(words, i)) && is_at(words, i.saturating_add(2), b".") {
            if let Some(word) = words.get(first) {
                let mention = Mention {
                    library: text_at(words, first),
                    unit: text_at(words, second),
                    at: word.at,
                };
                found.push(mention)?;
            }
        }
    }
    Ok(found)
}

/// The offset of the first name `LIBRARY.UNIT`, or else of the first name `UNIT` alone. `work` is taken for the library
/// where `is_own` is true.
pub fn reference_at(words: &[Word], library: &[u8], unit: &[u8], is_own: bool) -> Option<usize> {
    let mut alone = None;
    for i in 0..words.len() {
        if is_at(words, i, unit) {
            let before = i.saturating_sub(2);
            let is_dotted = i >= 2 && is_at(words, i.saturating_sub(1), b".");
            let prefix = text_at(words, before);
            if is_dotted && (prefix == library || is_own && prefix == b"work".as_slice()) {
                return offset_of(words, before);
            }
            if alone.is_none() {
                alone = offset_of(words, i);
            }
        }
    }
    alone
}

fn offset_of(words: &[Word], i: usize) -> Option<usize> {
    match words.get(i) {
        Some(word) => Some(word.at),
        None => None,
    }
}

/// The names of the primary units that a text declares.
pub fn declared_units<'a>(alloc: Global, words: &'a [Word]) -> Result<Vec<&'a [u8]>, NoMemory> {
    let mut units: Vec<&'a [u8]> = Vec::new(alloc);
    for i in 0..words.len() {
        if let Some(unit) = primary_at(words, i) {
            units.push(unit)?;
        }
    }
    Ok(units)
}

/// The name of the primary unit that begins with the token of an index, if one does.
fn primary_at(words: &[Word], i: usize) -> Option<&[u8]> {
    let word = text_at(words, i);
    let is_primary = word == b"entity".as_slice()
        || word == b"package".as_slice()
        || word == b"configuration".as_slice()
        || word == b"context".as_slice();
    if !is_primary || i > 0 && is_at(words, i.saturating_sub(1), b"end") {
        return None;
    }
    let after = text_at(words, i.saturating_add(2));
    if after == b"is".as_slice() || after == b"of".as_slice() {
        Some(text_at(words, i.saturating_add(1)))
    } else {
        None
    }
}

/// The offset of the name of a unit, where this declares it for the time of a number, counted from 0. The unit is as a
/// refusal names it: `LIBRARY.UNIT`, `LIBRARY.ENTITY(ARCHITECTURE)` or `body LIBRARY.PACKAGE`.
pub fn unit_at(words: &[Word], unit: &[u8], number: usize) -> Option<usize> {
    let mut left = number;
    for i in 0..words.len() {
        if let Some(at) = declared_at(words, i, unit) {
            if left == 0 {
                return Some(at);
            }
            left -= 1;
        }
    }
    None
}

/// The offset of the name of a unit, where the token of an index begins its declaration.
fn declared_at(words: &[Word], i: usize, unit: &[u8]) -> Option<usize> {
    if let Some(name) = unit.strip_prefix(b"body ".as_slice()) {
        let is_body = is_at(words, i, b"package") && is_at(words, i.saturating_add(1), b"body");
        let is_name = is_at(words, i.saturating_add(2), own_name(name));
        return if is_body && is_name {
            offset_of(words, i.saturating_add(2))
        } else {
            None
        };
    }
    let name = own_name(unit);
    if let Some(inner) = name.strip_suffix(b")".as_slice()) {
        let (entity, architecture) = parts_at(inner, b'(');
        let is_there = is_at(words, i, b"architecture")
            && is_at(words, i.saturating_add(1), architecture)
            && is_at(words, i.saturating_add(2), b"of")
            && is_at(words, i.saturating_add(3), entity);
        return if is_there {
            offset_of(words, i.saturating_add(1))
        } else {
            None
        };
    }
    if primary_at(words, i)? == name {
        offset_of(words, i.saturating_add(1))
    } else {
        None
    }
}

/// What follows the name of the library.
fn own_name(unit: &[u8]) -> &[u8] {
    let (library, name) = parts_at(unit, b'.');
    if name.is_empty() { library } else { name }
}

/// The parts of a text before and after the first byte of a value. Without such a byte they are the whole text and an empty
/// one.
fn parts_at(text: &[u8], byte: u8) -> (&[u8], &[u8]) {
    match text.iter().position(|other| *other == byte) {
        Some(at) => (
            text.get(..at).unwrap_or(text),
            text.get(at.saturating_add(1)..).unwrap_or(b""),
        ),
        None => (text, b""),
    }
}
