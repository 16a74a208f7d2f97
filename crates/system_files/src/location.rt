//! Locations in a text, as editors count them.

ghost use Rattle.std.specs.Prelude.{◌≡◌, ◌≤◌, length, take};
ghost use Rattle.system_files.specs.Locations.{line_after, column_after};

use crate::visible::push_visible;
use base::NoMemory;
use std::alloc::Global;

/// A line and a column, both counted from 1; the column in bytes.
#[derive(Clone, Copy)]
pub struct Location {
    pub line: usize,
    pub column: usize,
}

/// The location of the byte at an offset, or of the end of the text.
pub fn location_of(text: &[u8], at: usize) -> Location
    requires { at ≤ length text.now }
    ensures line { result.line ≡ line_after (take at text.now) }
    ensures column { result.column ≡ column_after 1 (take at text.now) }
{
    let before = &text[..at];
    let mut line = 1;
    let mut column = 1;
    for i in 0..before.len() {
        if before[i] == b'\n' {
            line += 1;
            column = 1;
        } else {
            column += 1;
        }
    }
    Location { line, column }
}

/// The line that names a location, as compilers write it: `PATH:LINE:COLUMN: WORDS`.
pub fn location_line(
    alloc: Global,
    path: &[u8],
    location: Location,
    words: &[u8],
) -> Result<Vec<u8>, NoMemory> {
    let mut line = Vec::new(alloc);
    push_visible(&mut line, path)?;
    let Location {
        line: number,
        column,
    } = location;
    let numbers = format!(in alloc; ":{number}:{column}: ")?;
    line.extend_from_slice(numbers.as_bytes())?;
    push_visible(&mut line, words)?;
    line.push(b'\n')?;
    Ok(line)
}
