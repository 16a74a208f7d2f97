//! Keys that the program doesn't know.

use crate::keys::{FoundKey, TableKind};
use crate::nearest_name;
use base::NoMemory;
use std::alloc::Global;

const ROOT_KEYS: &[&'static str] = &[
    "library",
    "compiler",
    "simulator",
    "external",
    "depends",
    "users_depend_on_bodies",
];

const LIBRARY_KEYS: &[&'static str] = &["name", "files", "options"];

const DEPENDS_KEYS: &[&'static str] = &["library", "path", "on_library", "on_path"];

/// A key that isn't known, and the one that was probably meant.
#[derive(Clone, Copy)]
pub struct UnknownKey<'a> {
    pub key: &'a FoundKey,
    pub meant: Option<&'static str>,
}

/// The first keys that aren't known, and how many more there are.
#[derive(Drop)]
pub struct UnknownKeys<'a> {
    pub first: Vec<UnknownKey<'a>>,
    pub more: usize,
}

/// The first `most` unknown keys, in their order, each with the known key that was probably meant, and how many more there
/// are. Keys in unknown tables are skipped.
pub fn unknown_keys(
    alloc: Global,
    keys: &[FoundKey],
    most: usize,
) -> Result<UnknownKeys<'_>, NoMemory> {
    let mut first = Vec::new(alloc);
    let mut more: usize = 0;
    for key in keys {
        let names = known_in(key.table);
        if !names.is_empty() && !is_among(key.name.as_str(), names) {
            if first.len() < most {
                let meant = nearest_name(alloc, key.name.as_str(), names)?;
                first.push(UnknownKey { key, meant })?;
            } else {
                more = more.saturating_add(1);
            }
        }
    }
    Ok(UnknownKeys { first, more })
}

/// The keys of a table; none where all are passed over.
fn known_in(table: TableKind) -> &'static [&'static str] {
    match table {
        TableKind::Root => ROOT_KEYS,
        TableKind::Library => LIBRARY_KEYS,
        TableKind::Depends => DEPENDS_KEYS,
        TableKind::Other => &[],
    }
}

fn is_among(name: &str, names: &[&str]) -> bool {
    names.iter().any(|known| *known == name)
}
