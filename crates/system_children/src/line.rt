//! The lines that standard error gets.

use crate::counts::Counts;
use base::NoMemory;
use std::alloc::Global;
use system_files::{end_line, push_visible};

/// Back to the start of the line, which is emptied. What is written by others then begins there.
pub const EMPTY_LINE: &[u8] = b"\r\x1b[K";

/// How a test or a file ended that didn't pass.
#[derive(Clone, Copy)]
pub struct Failure<'a> {
    pub name: &'a [u8],
    /// How long it ran, in milliseconds.
    pub millis: u64,
    /// The folder of its output; empty for a file.
    pub folder: &'a [u8],
    /// The cause, if it is known; empty if only the output can say it.
    pub cause: &'a [u8],
}

/// The line of a test or a file that didn't pass.
pub fn failure_line(alloc: Global, failure: &Failure<'_>) -> Result<Vec<u8>, NoMemory> {
    let mut line = Vec::from_slice(alloc, b"vunit_run: fail ")?;
    push_visible(&mut line, failure.name)?;
    let seconds = failure.millis / 1_000;
    let tenths = failure.millis % 1_000 / 100;
    let time = format!(in alloc; " ({seconds}.{tenths} s)")?;
    line.extend_from_slice(time.as_bytes())?;
    push_part(&mut line, failure.folder)?;
    push_part(&mut line, failure.cause)?;
    end_line(&mut line)?;
    Ok(line)
}

fn push_part(line: &mut Vec<u8>, part: &[u8]) -> Result<(), NoMemory> {
    if !part.is_empty() {
        line.extend_from_slice(b": ")?;
        push_visible(line, part)?;
    }
    Ok(())
}

/// The line of a folder whose name is longer than a limit.
pub fn long_name_line(alloc: Global, name: &[u8], limit: usize) -> Result<Vec<u8>, NoMemory> {
    let length = name.len();
    let text = format!(in alloc;
        "vunit_run: a folder's name has at most {limit} bytes, and this has {length}: "
    )?;
    let mut line = Vec::from_slice(alloc, text.as_bytes())?;
    push_visible(&mut line, name)?;
    end_line(&mut line)?;
    Ok(line)
}

/// The cause of a failure, by the code and the signal that a child ended with. Empty unless it is a signal, or the code 126 or
/// 127.
pub fn end_cause(alloc: Global, code: u32, signal: Option<i32>) -> Result<Vec<u8>, NoMemory> {
    if let Some(signal) = signal {
        let text = format!(in alloc; "ended by signal {signal}")?;
        return Ok(Vec::from_slice(alloc, text.as_bytes())?);
    }
    if code == 126 || code == 127 {
        let text = format!(in alloc; "could not be run, code {code}")?;
        return Ok(Vec::from_slice(alloc, text.as_bytes())?);
    }
    Ok(Vec::new(alloc))
}

/// How many of the due children have ended, and how many passed and failed.
fn counts_text(alloc: Global, counts: &Counts) -> Result<Vec<u8>, NoMemory> {
    let Counts {
        ended,
        due,
        passed,
        failed,
        ..
    } = *counts;
    let text = format!(in alloc; "[{ended}/{due}] {passed} passed, {failed} failed")?;
    Ok(Vec::from_slice(alloc, text.as_bytes())?)
}

/// The line that reports the progress of a run from time to time.
pub fn summary_line(alloc: Global, counts: &Counts) -> Result<Vec<u8>, NoMemory> {
    let mut line = Vec::from_slice(alloc, b"vunit_run: ")?;
    line.extend_from_slice(counts_text(alloc, counts)?.as_slice())?;
    end_line(&mut line)?;
    Ok(line)
}

/// The line that a terminal shows. The terminal cuts it, since it isn't to wrap, and the cursor is left at its start.
pub fn screen_line(
    alloc: Global,
    counts: &Counts,
    millis: u64,
    title: &[u8],
) -> Result<Vec<u8>, NoMemory> {
    let mut line = Vec::from_slice(alloc, b"\x1b[?7l")?;
    line.extend_from_slice(EMPTY_LINE)?;
    line.extend_from_slice(counts_text(alloc, counts)?.as_slice())?;
    let seconds = millis / 1_000;
    let time = format!(in alloc; ", {seconds} s: ")?;
    line.extend_from_slice(time.as_bytes())?;
    push_visible(&mut line, title)?;
    line.extend_from_slice(b"\x1b[?7h\r")?;
    Ok(line)
}
