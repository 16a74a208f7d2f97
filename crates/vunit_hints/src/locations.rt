//! Lines that name a location.

use crate::{Word, text_of, words_of};
use base::{FileName, NoMemory};
use system_files::{location_line, location_of};

/// The current text of a source file, and its tokens.
#[derive(Drop)]
pub struct Source {
    pub text: Vec<u8>,
    pub words: Vec<Word>,
}

/// The source of a path, if it can be read.
pub fn source_of(rt: &HostRuntime, path: &[u8]) -> Result<Option<Source>, NoMemory> {
    let Some(text) = text_of(rt, path) else {
        return Ok(None);
    };
    let words = words_of(rt.alloc(), text.as_slice())?;
    Ok(Some(Source { text, words }))
}

/// Adds the line of an offset in a source.
pub fn push_location(
    rt: &HostRuntime,
    lines: &mut Vec<Vec<u8>>,
    path: &[u8],
    source: &Source,
    at: usize,
    words: &[u8],
) -> Result<(), NoMemory> {
    let text = source.text.as_slice();
    if at <= text.len() {
        let location = location_of(text, at);
        lines.push(location_line(rt.alloc(), path, location, words)?)?;
    }
    Ok(())
}

/// Whether two names are of one library.
pub fn is_of_library(file: &FileName, library: &[u8]) -> bool {
    file.library.bytes() == library
}
