//! Lines about the tests of a run, and about what a child printed.

use crate::line::{push_about, push_line};
use base::NoMemory;
use std::alloc::Global;
use system_children::Counts;

/// Adds how many tests failed, and the name of each.
pub fn push_failed(
    alloc: Global,
    lines: &mut Vec<Vec<u8>>,
    names: &[Vec<u8>],
) -> Result<(), NoMemory> {
    if names.is_empty() {
        return Ok(());
    }
    let count = names.len();
    let text = format!(in alloc; "failed tests: {count}")?;
    push_line(alloc, lines, text.as_bytes())?;
    for name in names {
        push_about(alloc, lines, b"failed ", name.as_slice())?;
    }
    Ok(())
}

/// Adds the counts of tests of a run that ended at a fault. `planned` is how many tests there were, if that is known.
pub fn push_counts(
    alloc: Global,
    lines: &mut Vec<Vec<u8>>,
    counts: &Counts,
    planned: Option<u64>,
) -> Result<(), NoMemory> {
    let passed = counts.tests_passed;
    let failed = counts.tests_failed;
    let text = match planned {
        Some(planned) => {
            let never = planned
                .saturating_sub(passed)
                .saturating_sub(failed)
                .saturating_sub(counts.tests_lost);
            format!(in alloc; "tests passed: {passed}, failed: {failed}, never started: {never}")?
        }
        None => format!(in alloc; "tests passed: {passed}, failed: {failed}")?,
    };
    push_line(alloc, lines, text.as_bytes())
}

/// How many lines of what a child said are shown.
const SAID_LIMIT: usize = 10;

/// Adds the first lines that a child had printed.
pub fn push_child_said(
    alloc: Global,
    lines: &mut Vec<Vec<u8>>,
    said: &[u8],
) -> Result<(), NoMemory> {
    for line in said.split(|byte| *byte == b'\n').take(SAID_LIMIT) {
        if !line.is_empty() {
            push_about(alloc, lines, b"it said: ", line)?;
        }
    }
    Ok(())
}
