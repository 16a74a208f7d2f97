//! The tests of a project, as its sources are now.

use crate::LineWriter;
use base::{NoMemory, TextList};
use project_reading::{Query, QueryKind, ReadProject, planned_runs, read_project};
use std::alloc::Global;
use system_files::FileTree;
use testbench_select::{Pattern, full_name, matches, read_pattern};

/// How many patterns are looked at.
const PATTERNS_TRIED: usize = 100;

/// A project that was read again, with how many tests the patterns match.
#[derive(Drop)]
pub struct Again {
    pub read: ReadProject,
    pub tests: u64,
}

/// Reads the project of the present folder again; nothing where it can't be read.
pub fn read_again(rt: &HostRuntime, patterns: &TextList) -> Option<Again> {
    let alloc = rt.alloc();
    let query = Query {
        query_kind: QueryKind::Tests,
        patterns: patterns.copy(alloc).ok()?,
    };
    let mut tree = FileTree::new(alloc, *rt).ok()?;
    let read = read_project(alloc, &mut tree, &query).ok()?;
    let runs = planned_runs(alloc, &query, &read).ok()?;
    let mut tests: u64 = 0;
    for run in runs.as_slice() {
        let count = if run.whole { 1 } else { run.cases.len() };
        tests = tests.saturating_add(count);
    }
    Some(Again { read, tests })
}

/// Adds a warning for each pattern that matches no test, of the first ones.
pub fn push_unmatched(
    alloc: Global,
    lines: &mut Vec<Vec<u8>>,
    read: &ReadProject,
    patterns: &TextList,
) -> Result<(), NoMemory> {
    let names = names_of(alloc, read)?;
    for pattern in patterns.as_slice().iter().take(PATTERNS_TRIED) {
        let pieces = read_pattern(alloc, pattern.bytes())?;
        if !is_matching(&pieces, names.as_slice()) {
            let mut line = LineWriter::warning(alloc)?;
            line.put(b"no test matches ")?;
            line.put(pattern.bytes())?;
            line.put(b": a pattern is of the whole name LIBRARY.BENCH.CASE")?;
            line.finish(lines)?;
        }
    }
    Ok(())
}

/// The full names of all tests.
fn names_of(alloc: Global, read: &ReadProject) -> Result<Vec<Vec<u8>>, NoMemory> {
    let mut names = Vec::new(alloc);
    for bench in read.tests.as_slice() {
        for test_case in bench.cases.as_slice() {
            names.push(full_name(alloc, bench, test_case)?)?;
        }
    }
    Ok(names)
}

fn is_matching(pattern: &Pattern, names: &[Vec<u8>]) -> bool {
    names.iter().any(|name| matches(pattern, name.as_slice()))
}
