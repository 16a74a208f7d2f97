//! The current texts of files.

use base::TEXT_LIMIT;
use outside::ReadEnd;
use std::fs;
use system_files::read_file;

/// The bytes that one read takes at most.
const CHUNK: usize = 65536;

/// The text of a regular file of at most `TEXT_LIMIT` bytes, if it can be read. Other files are not read: a pipe, for
/// example, may keep a second reader waiting.
pub fn text_of(rt: &HostRuntime, path: &[u8]) -> Option<Vec<u8>> {
    let name = str::from_utf8(path).ok()?;
    if !fs::metadata(rt, name).ok()?.is_file() {
        return None;
    }
    let mut buffer = vec![in rt.alloc(); 0; CHUNK].ok()?;
    let limit = TEXT_LIMIT as u64;
    match read_file(rt, buffer.as_mut_slice(), rt.alloc(), path, limit) {
        Ok(ReadEnd::Got(text)) => Some(text.into_vec()),
        _ => None,
    }
}
