//! Warnings of tools and tests, of which none changes a status.

use crate::line::{LineWriter, push_warning};
use base::NoMemory;
use std::alloc::Global;
use system_files::Unread;

/// The warning if nothing was simulated.
const NOT_SIMULATED: &[u8] =
    b"nothing is simulated: the simulator is the built-in one, which only reads comments";

/// The warning if nothing was analysed.
const NOT_ANALYSED: &[u8] =
    b"nothing is analysed: the compiler is the built-in one, which only looks for design units";

/// Adds that nothing was simulated.
pub fn push_own_simulator(alloc: Global, lines: &mut Vec<Vec<u8>>) -> Result<(), NoMemory> {
    push_warning(alloc, lines, NOT_SIMULATED)
}

/// Adds that nothing was analysed.
pub fn push_own_compiler(alloc: Global, lines: &mut Vec<Vec<u8>>) -> Result<(), NoMemory> {
    push_warning(alloc, lines, NOT_ANALYSED)
}

/// Adds that no test was run.
pub fn push_no_test(alloc: Global, lines: &mut Vec<Vec<u8>>) -> Result<(), NoMemory> {
    push_warning(alloc, lines, b"no test was run")
}

/// Adds how many records of each file of the store can't be read, if any can't.
pub fn push_unread(
    alloc: Global,
    lines: &mut Vec<Vec<u8>>,
    unread: &Unread,
) -> Result<(), NoMemory> {
    if unread.a == 0 && unread.b == 0 {
        return Ok(());
    }
    let mut line = LineWriter::warning(alloc)?;
    line.put(b"records that cannot be read: ")?;
    push_side(alloc, &mut line, unread.a, "vunit_out/store_a")?;
    if unread.a > 0 && unread.b > 0 {
        line.put(b", ")?;
    }
    push_side(alloc, &mut line, unread.b, "vunit_out/store_b")?;
    line.put(b"; --clean builds anew")?;
    line.finish(lines)
}

fn push_side(alloc: Global, line: &mut LineWriter, count: u64, path: &str) -> Result<(), NoMemory> {
    if count == 0 {
        return Ok(());
    }
    let text = format!(in alloc; "{count} of {path}")?;
    line.put(text.as_bytes())
}
