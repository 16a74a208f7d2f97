//! Why a project file is not valid TOML, and which of its values is wrong.

use crate::keys::{FoundKey, TableKind};
use base::NoMemory;
use std::alloc::Global;

/// The bytes of a value that are shown at most.
const SHOWN_LIMIT: usize = 60;

/// A fault of a text that is not valid TOML: its offset, and the message of the parser.
#[derive(Drop)]
pub struct TomlFault {
    pub at: usize,
    pub said: Vec<u8>,
}

/// Where and why a text is not valid TOML; nothing if it is valid.
pub fn toml_fault(alloc: Global, text: &[u8]) -> Result<Option<TomlFault>, NoMemory> {
    let error = match toml::table_from_slice(alloc, text) {
        Ok(_) => return Ok(None),
        Err(error) => error,
    };
    if error.is_memory() {
        return Err(NoMemory);
    }
    let at = match error.span() {
        Some(span) => span.start,
        None => 0,
    };
    Ok(Some(TomlFault {
        at,
        said: Vec::from_slice(alloc, error.message().as_bytes())?,
    }))
}

/// Whether a key is meant by a name as `library.files`.
fn is_meant(key: &FoundKey, name: &str) -> bool {
    let (table, own) = match name.split_once('.') {
        Some(("library", own)) => (TableKind::Library, own),
        Some(("depends", own)) => (TableKind::Depends, own),
        _ => (TableKind::Root, name),
    };
    key.table == table && key.name.as_str() == own
}

/// The key of a name as `library.files` in the table of a number, or in the first table that has one.
pub fn key_of<'a>(keys: &'a [FoundKey], name: &str, number: usize) -> Option<&'a FoundKey> {
    let mut first = None;
    for key in keys {
        if is_meant(key, name) {
            if key.number == number {
                return Some(key);
            }
            if first.is_none() {
                first = Some(key);
            }
        }
    }
    first
}

/// The first bytes of a value, up to the end of its line.
pub fn shown_value(text: &str, at: usize) -> &[u8] {
    let rest = text.as_bytes().get(at..).unwrap_or(b"");
    cut_to(first_line(rest), SHOWN_LIMIT)
}

/// The first `most` bytes, or all if there are fewer.
fn cut_to(bytes: &[u8], most: usize) -> &[u8] {
    if bytes.len() > most {
        &bytes[..most]
    } else {
        bytes
    }
}

fn first_line(text: &[u8]) -> &[u8] {
    match text.split(|byte| *byte == b'\n').next() {
        Some(line) => line,
        None => text,
    }
}
