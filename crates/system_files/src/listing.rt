//! The names of all files of the present folder that a listing shows.

ghost use Rattle.std.specs.Prelude.{◌≡◌, ◌↔◌, IsTrue, IfOk};
ghost use Rattle.std.specs.Ordering.{nat_cmp};
ghost use Rattle.std.specs.Cmp.Lexicographic.{slice_cmp};
ghost use Rattle.std.specs.declared.cmp.Ordering.TheVariants.{Less};
ghost use Rattle.std.specs.List.{AllByRecursion};
ghost use Rattle.outside.specs.Trees.{IsListing, IsName, IsRising};

use crate::IoFault;
use base::{Items, PATH_LIMIT, Text};
use outside::NamesEnd;
use std::alloc::Global;
use std::cmp::Ordering;
use std::fs::Files;
use std::io::{ErrorKind, Read};
use std::{fs, io};

/// The folder of the program's own output, which isn't listed.
pub const OUTPUT_FOLDER: &str = "vunit_out";

/// The folders that are still to be read, by their paths, the files that were found, and whether a link was that leads to no
/// file.
#[derive(Drop)]
struct Walk {
    folders: Vec<String>,
    found: Vec<String>,
    has_link: bool,
}

/// The listing of the present folder, if it has at most `limit` names. Its form is tested, and a listing that hasn't
/// this form fails. Where it fails at a folder or at an entry of one, the path of this is left. So is whether it found a link
/// that leads to no file, once it has walked all folders. The buffer is what one read of a folder takes at most.
pub fn list_names<R: Files>(
    files: &R,
    buffer: &mut [u8],
    alloc: Global,
    limit: u64,
    failed_at: &mut Option<String>,
    has_link: &mut Option<bool>,
) -> Result<NamesEnd, IoFault>
    ensures { IfOk result (IsListing limit) }
{
    *has_link = None;
    let walk = find_files(files, buffer, alloc, limit as usize, failed_at)?;
    let mut found = walk.found;
    if found.len() as u64 > limit {
        return Ok(NamesEnd::TooMany);
    }
    *has_link = Some(walk.has_link);
    found.sort_unstable();
    let names = texts(alloc, found)?;
    if names.len() as u64 <= limit && is_listing(names.as_slice()) {
        Ok(NamesEnd::Got(Items::from_vec(names)))
    } else {
        Err(IoFault::own_fault("list", "a name that isn't one of a file"))
    }
}

/// The texts of the paths, in their order.
fn texts(alloc: Global, paths: Vec<String>) -> Result<Vec<Text>, IoFault> {
    let mut texts = Vec::new(alloc);
    texts.reserve(paths.len())?;
    for path in paths {
        texts.push(Text::from_vec(path.into_bytes()))?;
    }
    Ok(texts)
}

/// Walks one folder after another, until none remains or more than `limit` files were found.
fn find_files<R: Files>(
    files: &R,
    buffer: &mut [u8],
    alloc: Global,
    limit: usize,
    failed_at: &mut Option<String>,
) -> Result<Walk, IoFault> {
    let mut walk = Walk {
        folders: vec![in alloc; String::new(alloc)]?,
        found: Vec::new(alloc),
        has_link: false,
    };
    for _ in 0..u64::MAX {
        if walk.found.len() > limit {
            return Ok(walk);
        }
        let Some(folder) = walk.folders.pop() else {
            return Ok(walk);
        };
        *failed_at = None;
        if let Err(fault) = read_folder(
            files,
            buffer,
            alloc,
            folder.as_str(),
            limit,
            &mut walk,
            failed_at,
        ) {
            if failed_at.is_none() {
                *failed_at = Some(folder);
            }
            return Err(fault);
        }
    }
    Err(IoFault::own_fault("list", "it has no end"))
}

/// Takes the entries of one folder. The present folder has the empty path. A folder that has gone since it was seen has
/// no entries. One that can't be read fails.
fn read_folder<R: Files>(
    files: &R,
    buffer: &mut [u8],
    alloc: Global,
    folder: &str,
    limit: usize,
    walk: &mut Walk,
    failed_at: &mut Option<String>,
) -> Result<(), IoFault> {
    let is_present = folder.is_empty();
    let mut entries = match files.open_dir(if is_present { "." } else { folder }) {
        Ok(entries) => entries,
        Err(error) if !is_present && has_gone(&error) => return Ok(()),
        Err(error) => return Err(IoFault::of("list", error)),
    };
    for _ in 0..u64::MAX {
        match entries.read(buffer) {
            Ok(0) => return Ok(()),
            Ok(count) => take_entries(files, alloc, folder, &buffer[..count], walk, failed_at)?,
            Err(error) if error.kind() == ErrorKind::Interrupted => {}
            Err(error) => return Err(IoFault::of("list", error)),
        }
        if walk.found.len() > limit {
            return Ok(());
        }
    }
    Err(IoFault::own_fault("list", "it has no end"))
}

/// Takes entries of a folder by their names, each of which is ended by a byte 0.
fn take_entries<R: Files>(
    files: &R,
    alloc: Global,
    folder: &str,
    names: &[u8],
    walk: &mut Walk,
    failed_at: &mut Option<String>,
) -> Result<(), IoFault> {
    for name in names.split(|byte| *byte == 0) {
        if !name.is_empty() && !name.starts_with(b".") {
            take_entry(files, alloc, folder, name, walk, failed_at)?;
        }
    }
    Ok(())
}

/// Adds an entry to the files or to the folders, if it is one that is listed. A name that isn't UTF-8 fails, since no
/// path can have it.
fn take_entry<R: Files>(
    files: &R,
    alloc: Global,
    folder: &str,
    name: &[u8],
    walk: &mut Walk,
    failed_at: &mut Option<String>,
) -> Result<(), IoFault> {
    let Ok(name) = str::from_utf8(name) else {
        *failed_at = Some(join_path(alloc, folder, text_of_name(alloc, name)?.as_str())?);
        return Err(IoFault::own_fault("list", "its name isn't UTF-8"));
    };
    let path = join_path(alloc, folder, name)?;
    if path.len() > PATH_LIMIT {
        return Ok(());
    }
    match kind_of(files, path.as_str()) {
        Ok(Kind::File) => walk.found.push(path)?,
        Ok(Kind::Folder) if path.as_str() != OUTPUT_FOLDER => walk.folders.push(path)?,
        Ok(Kind::Folder | Kind::Other) => {}
        Ok(Kind::Link) => walk.has_link = true,
        Err(fault) => {
            *failed_at = Some(path);
            return Err(fault);
        }
    }
    Ok(())
}

/// The path of an entry of a folder.
fn join_path(alloc: Global, folder: &str, name: &str) -> Result<String, IoFault> {
    let mut path = String::from_str(alloc, folder)?;
    if !folder.is_empty() {
        path.push('/')?;
    }
    path.push_str(name)?;
    Ok(path)
}

/// The shown form of a name that isn't UTF-8. A question mark replaces each byte that isn't a printable ASCII character.
fn text_of_name(alloc: Global, name: &[u8]) -> Result<String, IoFault> {
    let mut shown = String::new(alloc);
    for byte in name {
        let is_printable = *byte >= 0x20 && *byte < 0x7f;
        shown.push(if is_printable { *byte as char } else { '?' })?;
    }
    Ok(shown)
}

#[derive(Clone, Copy)]
enum Kind {
    File,
    Folder,
    Link,
    Other,
}

/// What lies at the path of an entry. A link to a file is a file. So is one that can't be followed, which then fails when
/// it is read: it is never passed over. A link to a folder isn't followed, so that no walk goes in a circle.
fn kind_of<R: Files>(files: &R, path: &str) -> Result<Kind, IoFault> {
    match fs::symlink_metadata(files, path) {
        Ok(data) if data.is_file() => Ok(Kind::File),
        Ok(data) if data.is_dir() => Ok(Kind::Folder),
        Ok(data) if data.is_symlink() => kind_of_target(fs::metadata(files, path)),
        Ok(_) => Ok(Kind::Other),
        Err(error) if has_gone(&error) => Ok(Kind::Other),
        Err(error) => Err(IoFault::of("look at an entry", error)),
    }
}

/// What a link leads to.
fn kind_of_target(target: io::Result<fs::Metadata>) -> Result<Kind, IoFault> {
    match target {
        Ok(data) if data.is_file() => Ok(Kind::File),
        Ok(_) => Ok(Kind::Link),
        Err(error) if error.kind() == ErrorKind::OutOfMemory => Err(IoFault::NoMemory),
        Err(_) => Ok(Kind::File),
    }
}

/// Whether an error says that an entry has gone since it was seen.
fn has_gone(error: &io::Error) -> bool {
    matches!(error.kind(), ErrorKind::NotFound | ErrorKind::NotADirectory)
}

/// Whether the paths are strictly rising, and each is a name.
fn is_listing(paths: &[Text]) -> bool
    ensures { IsTrue result ↔ (IsRising paths.now × AllByRecursion IsName paths.now) }
{
    let mut at = paths.len();
    while at > 0 {
        at -= 1;
        if !is_name(paths[at].bytes()) {
            return false;
        }
        if at + 1 < paths.len() && !is_less(paths[at].bytes(), paths[at + 1].bytes()) {
            return false;
        }
    }
    true
}

fn is_name(path: &[u8]) -> bool
    ensures { IsTrue result ↔ IsName path.now }
{
    !path.is_empty() && path.len() <= PATH_LIMIT && str::from_utf8(path).is_ok()
}

fn is_less(path: &[u8], next: &[u8]) -> bool
    ensures { IsTrue result ↔ (slice_cmp nat_cmp path.now next.now ≡ Less) }
{
    path.cmp(next) == Ordering::Less
}
