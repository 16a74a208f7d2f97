//! Why a pattern of files matches nothing.

use crate::LineWriter;
use base::NoMemory;
use std::fs;

/// Adds why a pattern matches nothing, where that can be seen.
pub fn push_pattern_cause(
    rt: &HostRuntime,
    lines: &mut Vec<Vec<u8>>,
    pattern: &[u8],
) -> Result<(), NoMemory> {
    let Ok(text) = str::from_utf8(pattern) else {
        return Ok(());
    };
    let mut line = LineWriter::new(rt.alloc())?;
    line.put(pattern)?;
    if let Some(why) = form_cause(text) {
        line.put(why)?;
        return line.finish(lines);
    }
    let Some(folder) = linked_part(rt, text)? else {
        return Ok(());
    };
    line.put(b": ")?;
    line.put(folder.as_bytes())?;
    line.put(b" is a link to a folder, which no pattern enters")?;
    line.finish(lines)
}

/// Why a pattern matches nothing, whatever files there are.
fn form_cause(pattern: &str) -> Option<&'static [u8]> {
    if pattern.starts_with('/') {
        return Some(b": an absolute path matches nothing: paths are below the present folder");
    }
    if has_part(pattern, "..") {
        return Some(b": a part .. matches nothing: paths are below the present folder");
    }
    if has_part(pattern, ".") {
        return Some(b": a part . matches nothing: leave it out");
    }
    None
}

fn has_part(pattern: &str, part: &str) -> bool {
    pattern.split('/').any(|other| other == part)
}

/// The first folder of a pattern that is a link, of those before its first part with a wildcard.
fn linked_part(rt: &HostRuntime, pattern: &str) -> Result<Option<String>, NoMemory> {
    let alloc = rt.alloc();
    let mut folder = String::new(alloc);
    for part in pattern.split('/') {
        if part.is_empty() || part.bytes().any(is_wildcard) {
            return Ok(None);
        }
        if !folder.is_empty() {
            folder.push('/')?;
        }
        folder.push_str(part)?;
        if is_linked_folder(rt, folder.as_str()) {
            return Ok(Some(folder));
        }
    }
    Ok(None)
}

fn is_wildcard(byte: u8) -> bool {
    byte == b'*' || byte == b'?' || byte == b'['
}

/// Whether a path is a link to a folder.
pub fn is_linked_folder(rt: &HostRuntime, path: &str) -> bool {
    match fs::symlink_metadata(rt, path) {
        Ok(own) if own.is_symlink() => {}
        _ => return false,
    }
    match fs::metadata(rt, path) {
        Ok(target) => target.is_dir(),
        Err(_) => false,
    }
}
