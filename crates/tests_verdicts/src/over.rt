//! A build over a disk in memory, and then the tests of what was built.

use crate::asked::all_fit;
use crate::lines::{inputs_of, runs_of, simulator};
use crate::objects::{Stored, disk_of, graph_of, script, tell_ends, tell_events};
use crate::way::{Way, way_of};
use base::{Graph, NoMemory, TextList};
use memory_outside::{MemDisk, ScriptProcs};
use run_build::BuildOptions;
use run_spec::RunFault;
use run_tests::{Tested, test_over};
use std::alloc::Global;
use std::process::Abort;
use std::test::Fail;
use store::RequestStore;
use testbench_runs::TestRunList;

/// Two runs. The first passes.
static TWO: &str = "\
lib|t|a|a||tb.vhd|lib.t.a|a||0||test_start:a~test_suite_done~
lib|t|a|b||tb.vhd|lib.t.b|b||1||-";

/// Builds a graph over the records of a disk, and runs tests over what was built.
fn test_disk(
    rt: &impl Abort,
    alloc: Global,
    graph: &Graph,
    runs: &TestRunList,
    words: &TextList,
    disk: &mut MemDisk,
    procs: &mut ScriptProcs,
    way: &Way,
) -> Result<Tested, RunFault> {
    let slots = way.limit;
    assert!(rt; procs.running_tickets().is_empty());
    assert!(rt; slots >= 1);
    assert!(rt; slots <= 64);
    assert!(rt; runs.len() <= 65_536);
    assert!(rt; all_fit(runs));
    let options = BuildOptions {
        slots,
        keep_going: false,
        clean: false,
    };
    test_over::<RequestStore<'_>, MemDisk, ScriptProcs>(
        alloc,
        graph,
        options,
        runs,
        words,
        way.fail_fast,
        disk,
        procs,
    )
}

/// The ends of the runs, `none` if the build leaves a file that isn't made, or `fault` after a fault.
fn tell_tested(alloc: Global, tested: &Result<Tested, RunFault>) -> Result<Vec<u8>, NoMemory> {
    match tested {
        Ok(tested) => match &tested.tests {
            Some(end) => tell_ends(alloc, end.runs.as_slice()),
            None => Vec::from_slice(alloc, b"none").map_err(NoMemory::from),
        },
        Err(_fault) => Vec::from_slice(alloc, b"fault").map_err(NoMemory::from),
    }
}

/// Builds and tests over a disk by children, and returns the events and the ends of the runs.
fn told_by(
    rt: &impl Abort,
    alloc: Global,
    graph: &Graph,
    disk: &mut MemDisk,
    procs: &mut ScriptProcs,
    way: &Way,
) -> Result<Vec<u8>, NoMemory> {
    let runs = runs_of(alloc, TWO)?;
    let words = simulator(alloc)?;
    let tested = test_disk(rt, alloc, graph, &runs, &words, disk, procs, way);
    let inputs = inputs_of(alloc, TWO)?;
    let mut told = tell_events(alloc, procs.journal().as_slice(), &inputs)?;
    told.push(b' ')?;
    told.extend_from_slice(tell_tested(alloc, &tested)?.as_slice())?;
    Ok(told)
}

fn told_over(rt: &impl Abort, alloc: Global, stored: Stored, way: &Way) -> Result<Vec<u8>, Fail> {
    let graph = graph_of(alloc)?;
    let mut disk = disk_of(alloc, stored)?;
    let mut procs = script(rt, alloc, TWO, way)?;
    Ok(told_by(rt, alloc, &graph, &mut disk, &mut procs, way)?)
}

#[test]
fn tests_follow_a_build(rt: HostRuntime) -> Result<(), Fail> {
    for stored in [Stored::Both, Stored::Again] {
        let told = told_over(&rt, rt.alloc(), stored, &way_of(1, false))?;
        assert!(rt; told.as_slice() == b"+0-0+1!1 pass lib.t.a\nfail lib.t.b\n".as_slice());
    }
    Ok(())
}

/// The second file is asked for, which these children don't answer.
#[test]
fn no_test_follows_a_refused_file(rt: HostRuntime) -> Result<(), Fail> {
    for stored in [Stored::First, Stored::Other] {
        let told = told_over(&rt, rt.alloc(), stored, &way_of(1, false))?;
        assert!(rt; told.ends_with(b" none"));
        assert!(rt; told.len() == 9);
    }
    Ok(())
}
