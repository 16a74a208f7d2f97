//! What is wanted of the sources of a project.

ghost use Rattle.std.specs.Prelude.{◌≡◌, map, IfOk};
ghost use Rattle.testbench_select.specs.Patterns.{pattern_parts_of};
ghost use Rattle.project_reading.specs.Queries.{chosen, wants_tests};

use base::{NoMemory, Text, TextList};
use base_outcomes::Tests;
use std::alloc::Global;
use testbench_select::{PatternList, read_pattern, select};

/// How much is wanted.
#[derive(Clone, Copy, Debug, PartialEq, Eq)]
pub enum QueryKind {
    /// The graph.
    Graph,
    /// The graph and the tests.
    Tests,
    /// The tests, and the graph of the files that those need that some pattern matches.
    Needed,
}

/// What is wanted of the sources of a project, and patterns of the names of tests.
#[derive(Drop)]
pub struct Query {
    pub query_kind: QueryKind,
    pub patterns: TextList,
}

/// Whether tests are wanted.
pub(crate) fn wants_tests(query_kind: QueryKind) -> bool
    ensures { result ≡ wants_tests query_kind }
{
    match query_kind {
        QueryKind::Graph => false,
        QueryKind::Tests => true,
        QueryKind::Needed => true,
    }
}

/// The patterns that these words are.
fn patterns_of(alloc: Global, words: &[Text]) -> Result<PatternList, NoMemory>
    ensures { IfOk result (λ patterns. patterns ≡ map pattern_parts_of words.now) }
{
    let mut patterns = PatternList::new(alloc);
    for i in 0..words.len() {
        patterns.push(read_pattern(alloc, words[i].bytes())?)?;
    }
    Ok(patterns)
}

/// The tests that one of these patterns matches.
pub fn select_tests(alloc: Global, tests: &Tests, patterns: &TextList) -> Result<Tests, NoMemory>
    ensures { IfOk result (λ some. some ≡ chosen patterns.now tests.now) }
{
    let patterns = patterns_of(alloc, patterns.as_slice())?;
    select(alloc, tests, &patterns)
}
