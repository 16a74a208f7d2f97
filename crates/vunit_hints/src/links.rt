//! Folders behind links, which no pattern enters.

use crate::LineWriter;
use crate::matching::{Pattern, is_matched, patterns_of};
use crate::patterns::is_linked_folder;
use crate::project::ProjectText;
use base::{NAME_LIMIT, NoMemory, PATH_LIMIT};
use std::alloc::Global;
use std::fs;
use system_files::OUTPUT_FOLDER;

/// How many names below a link are looked at.
const BELOW_LIMIT: usize = 1_000;

/// How many links are looked behind.
const LINKS_TRIED: usize = 20;

/// How many pairs of a name and a pattern are tried for one link.
const TRIES: usize = 10_000;

/// The names of one walk.
#[derive(Drop)]
struct Walk {
    folders: Vec<String>,
    links: Vec<String>,
    files: Vec<String>,
    seen: usize,
}

/// Adds a warning for each link to a folder below which a file lies that a pattern would match.
pub fn push_linked_folders(
    rt: &HostRuntime,
    lines: &mut Vec<Vec<u8>>,
    project: &ProjectText,
) -> Result<(), NoMemory> {
    let alloc = rt.alloc();
    let links = walk_links(rt, String::new(alloc), NAME_LIMIT, false)?.links;
    if links.is_empty() {
        return Ok(());
    }
    let patterns = patterns_of(alloc, project)?;
    for link in links.into_iter().take(LINKS_TRIED) {
        let below = walk_links(rt, link, BELOW_LIMIT, true)?;
        push_link(alloc, lines, &below.files, patterns.as_slice())?;
    }
    Ok(())
}

/// Adds a warning where one of these files would be matched.
fn push_link(
    alloc: Global,
    lines: &mut Vec<Vec<u8>>,
    files: &Vec<String>,
    patterns: &[Pattern],
) -> Result<(), NoMemory> {
    let mut tries: usize = 0;
    for file in files {
        for pattern in patterns {
            tries = tries.saturating_add(1);
            if tries > TRIES {
                return Ok(());
            }
            if is_matched(alloc, pattern.project.as_slice(), file.as_bytes())? {
                return push_about_link(alloc, lines, file.as_bytes());
            }
        }
    }
    Ok(())
}

fn push_about_link(alloc: Global, lines: &mut Vec<Vec<u8>>, file: &[u8]) -> Result<(), NoMemory> {
    let mut line = LineWriter::warning(alloc)?;
    line.put(file)?;
    line.put(b" lies behind a link to a folder, which no pattern enters")?;
    line.finish(lines)
}

/// Walks a folder and the folders below it. Gives the links to folders in them and, if `wants_files` is true, the files. It
/// follows no link that it finds, and looks at no more than `limit` names.
fn walk_links(
    rt: &HostRuntime,
    from: String,
    limit: usize,
    wants_files: bool,
) -> Result<Walk, NoMemory> {
    let alloc = rt.alloc();
    let mut walk = Walk {
        folders: Vec::new(alloc),
        links: Vec::new(alloc),
        files: Vec::new(alloc),
        seen: 0,
    };
    walk.folders.push(from)?;
    for _ in 0..limit {
        let Some(folder) = walk.folders.pop() else {
            return Ok(walk);
        };
        walk_folder(rt, &mut walk, folder.as_str(), limit, wants_files)?;
    }
    Ok(walk)
}

/// Takes the names of one folder. A folder that can't be read counts as empty.
fn walk_folder(
    rt: &HostRuntime,
    walk: &mut Walk,
    folder: &str,
    limit: usize,
    wants_files: bool,
) -> Result<(), NoMemory> {
    let location = if folder.is_empty() { "." } else { folder };
    let Ok(entries) = fs::read_dir(rt, location) else {
        return Ok(());
    };
    for entry in entries {
        let Ok(entry) = entry else {
            continue;
        };
        if walk.seen >= limit {
            return Ok(());
        }
        walk.seen += 1;
        let Ok(kind) = entry.file_type() else {
            continue;
        };
        let name = entry.file_name();
        if name.starts_with('.') {
            continue;
        }
        let path = join_path(rt.alloc(), folder, name)?;
        if path.len() > PATH_LIMIT || path.as_str() == OUTPUT_FOLDER {
            continue;
        }
        if kind.is_dir() {
            walk.folders.push(path)?;
        } else if kind.is_symlink() && is_linked_folder(rt, path.as_str()) {
            walk.links.push(path)?;
        } else if wants_files {
            walk.files.push(path)?;
        }
    }
    Ok(())
}

fn join_path(alloc: Global, folder: &str, name: &str) -> Result<String, NoMemory> {
    let mut path = String::from_str(alloc, folder)?;
    if !folder.is_empty() {
        path.push('/')?;
    }
    path.push_str(name)?;
    Ok(path)
}
