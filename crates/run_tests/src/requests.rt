//! What a simulator is asked, by the artefacts that the store lends.

ghost use Rattle.std.specs.Prelude.{ℕ, ◌≡◌, ◌<◌, ◌++◌, ◌∷◌, [], length, IfOk, OnOk};
ghost use Rattle.std.specs.List.{filter_map, flat_map};
ghost use Rattle.base.specs.Jobs.{built_bytes};
ghost use Rattle.outside.specs.Records.{IsRecorded};
ghost use Rattle.testbench_runs.specs.Runs.{FitsRun};
ghost use Rattle.testbench_runs.specs.BenchJobs.{bench_request};
ghost use Rattle.run_tests.specs.Requests.{AreBuilt, borrowed_at, borrowed_files};

use base::{FILE_LIMIT, Graph, NoMemory, Request, Text, TextList};
use child_compile_request::BuiltBytes;
use child_test_request::BenchWriter;
use outside::Records;
use std::alloc::Global;
use testbench_runs::TestRun;

/// Adds the file at a position with the artefact that the store lends.
fn add_slice<K: Records>(
    files: &mut BuiltBytes,
    graph: &Graph,
    at: u32,
    store: &K,
) -> Result<(), NoMemory>
    requires position { at < length graph.now }
    requires recorded { IsRecorded (K.latest_of store.now) graph.now at }
    ensures { OnOk result (files.new ≡ files.old ++
        flat_map built_bytes (filter_map (borrowed_at (K.latest_of store.now) graph.now) (at ∷ []))) }
{
    let entry = graph.get(at as u64);
    match store.artefact(&entry.name) {
        Some(artefact) => files.add(&entry.name, artefact),
        None => unreachable!(),
    }
}

/// The bytes of all files of the graph with the artefacts that the store lends, as they stand in each request.
pub(crate) fn built_of<K: Records>(
    alloc: Global,
    graph: &Graph,
    store: &K,
) -> Result<Text, NoMemory>
    requires recorded { (position : ℕ) → position < length graph.now →
        IsRecorded (K.latest_of store.now) graph.now position }
    ensures { IfOk result (AreBuilt (K.latest_of store.now) graph.now) }
{
    prove!(graph.len() <= FILE_LIMIT as u64);
    let count = graph.len() as u32;
    let mut files = BuiltBytes::new(alloc);
    for at in 0..count {
        add_slice(&mut files, graph, at, store)?;
    }
    Ok(files.into_text())
}

/// What the simulator of a run is started with, over the bytes of all files of the graph.
pub(crate) fn request_of<K: Records>(
    alloc: Global,
    graph: &Graph,
    _store: &K,
    built: &Text,
    run: &TestRun,
    simulator: &TextList,
) -> Result<Request, NoMemory>
    requires fits { FitsRun run.now }
    requires built { AreBuilt (K.latest_of _store.now) graph.now built.now }
    ensures { IfOk result (λ request. request ≡
        bench_request run.now simulator.now (borrowed_files (K.latest_of _store.now) graph.now)) }
{
    prove!(graph.len() <= FILE_LIMIT as u64);
    let mut writer = BenchWriter::new(alloc, run, simulator, graph.len() as u32)?;
    writer.add_all(built.bytes())?;
    Ok(writer.finish())
}
