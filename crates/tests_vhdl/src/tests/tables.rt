//! Tables of texts: a row a line, each with what is wanted after a `^`. A `~` is an end of a line within either.

use std::alloc::Global;
use std::test::Fail;

/// The two parts of a row.
pub(super) fn halves(row: &[u8]) -> (&[u8], &[u8]) {
    let mut parts = row.split(|b| *b == b'^');
    (parts.next().unwrap_or(b""), parts.next().unwrap_or(b""))
}

/// The bytes with the ends of lines in place of what stands for them.
pub(super) fn expand_lines(alloc: Global, bytes: &[u8]) -> Result<Vec<u8>, Fail> {
    let mut out = Vec::new(alloc);
    for byte in bytes {
        out.push(if *byte == b'~' { b'\n' } else { *byte })?;
    }
    Ok(out)
}

/// The number that digits say.
fn number(digits: &[u8]) -> usize {
    let mut number = 0usize;
    for digit in digits {
        let value = digit.saturating_sub(b'0') as usize;
        number = number.saturating_mul(10).saturating_add(value);
    }
    number
}

/// Adds a part: how often it is repeated, a star, and what is.
fn put_part(alloc: Global, out: &mut Vec<u8>, part: &[u8]) -> Result<(), Fail> {
    let mut halves = part.split(|b| *b == b'*');
    let times = number(halves.next().unwrap_or(b""));
    let part = halves.next().unwrap_or(b"");
    out.extend_from_slice(&part.repeat(alloc, times)?)?;
    Ok(())
}

/// A text of parts that are parted by `~`.
pub(super) fn repeat_parts(alloc: Global, parts: &[u8]) -> Result<Vec<u8>, Fail> {
    let mut out = Vec::new(alloc);
    for part in parts.split(|b| *b == b'~') {
        put_part(alloc, &mut out, part)?;
    }
    Ok(out)
}
