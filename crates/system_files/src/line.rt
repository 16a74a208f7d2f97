//! How long a line is at most.

use base::NoMemory;

/// The bytes that a line has at most, with its end: what a pipe takes in one piece.
pub const LINE_LIMIT: usize = 4096;

/// What stands at the end of a line that was cut.
const CUT: &[u8] = b" ..";

/// Ends a line. One that is too long is cut before that, between two letters.
pub fn end_line(line: &mut Vec<u8>) -> Result<(), NoMemory> {
    if line.len() >= LINE_LIMIT {
        let at = letter_start(line.as_slice(), LINE_LIMIT - 1 - CUT.len());
        line.truncate(at);
        line.extend_from_slice(CUT)?;
    }
    line.push(b'\n')?;
    Ok(())
}

/// Cuts a line with its end that is too long, as `end_line` does.
pub fn shorten_line(line: &mut Vec<u8>) -> Result<(), NoMemory> {
    if line.len() > LINE_LIMIT {
        line.truncate(LINE_LIMIT);
        end_line(line)?;
    }
    Ok(())
}

/// Where the letter begins that the byte at an offset is part of, in UTF-8. Other bytes count as letters of their own.
fn letter_start(bytes: &[u8], at: usize) -> usize {
    let mut start = at;
    for _ in 0..3 {
        if start == 0 || start >= bytes.len() || !is_inside(bytes[start]) {
            return start;
        }
        start -= 1;
    }
    start
}

/// Whether a byte goes on with a letter that bytes before it began.
fn is_inside(byte: u8) -> bool {
    byte >= 0x80 && byte < 0xc0
}
