//! The text and the report of an empty build and of the tests that followed it.

ghost use Rattle.std.specs.Prelude.{◌≡◌, length};

use crate::verdicts::{ends_of, is_wanted};
use base::{Graph, NoMemory, Text};
use report::{RunSaid, TestWords, said_of_run};
use run_spec::FileStatusList;
use std::alloc::Global;
use std::process::Abort;
use std::test::Fail;
use testbench_runs::{TestEnd, TestRunList};

static WORDS: TestWords = TestWords {
    verbose: false,
    quiet: false,
    exit_0: false,
    report: true,
};

/// One failed test if `any` is true; else `None`.
fn tests_of(alloc: Global, any: bool) -> Result<Option<TestEnd>, NoMemory> {
    if any {
        Ok(Some(ends_of(alloc, ",lib.t.a=f")?))
    } else {
        Ok(None)
    }
}

/// The text and the report of a build without files, after a warning.
fn said_over(
    alloc: Global,
    graph: &Graph,
    statuses: &FileStatusList,
    tests: &Option<TestEnd>,
) -> Result<RunSaid, NoMemory>
    requires { length statuses.now ≡ length graph.now }
{
    let warnings = Text::from_slice(alloc, b"warned\n")?;
    let runs = TestRunList::new(alloc);
    said_of_run(alloc, warnings, graph, statuses, &runs, WORDS, tests)
}

fn text_of_run(alloc: Global, any: bool) -> Result<RunSaid, NoMemory> {
    let graph = Graph::new(alloc);
    let statuses = FileStatusList::new(alloc);
    let tests = tests_of(alloc, any)?;
    said_over(alloc, &graph, &statuses, &tests)
}

fn says(alloc: Global, any: bool, wanted: &str) -> Result<bool, NoMemory> {
    let said = text_of_run(alloc, any)?;
    if said.report.is_some() != any {
        return Ok(false);
    }
    is_wanted(alloc, &said.text, wanted)
}

#[test]
fn a_build_is_said_alone_and_with_tests(rt: HostRuntime) -> Result<(), Fail> {
    let build = "warned~Re-compile not needed~";
    let both =
        "warned~Re-compile not needed~fail lib.t.a~==== Summary~pass 0 of 1~fail 1 of 1~skip 0 of 1~Some failed!~";
    assert!(rt; says(rt.alloc(), false, build)?);
    assert!(rt; says(rt.alloc(), true, both)?);
    Ok(())
}
