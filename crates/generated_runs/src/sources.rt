//! What is read of the generated project.

ghost use Rattle.std.specs.Prelude.{◌≡◌, ◌<◌, ◌≤◌, ℕ, List, Err, IfOk};
ghost use Rattle.vhdl_spec.specs.Scans.{Finding, IsScanner};
ghost use Rattle.generated_project.specs.Files.{generated_files};
ghost use Rattle.project_reading.specs.Reading.{SourceReading};
ghost use Rattle.project_reading.specs.Sources.{IsReadProject, LeadsTo};
ghost use Rattle.project_reading.specs.declared.stops.ReadStop.TheVariants as why;
ghost use Rattle.generated_runs.specs.Sources.{any_name, files_reading, query_for};

use base::{NoMemory, Text, TextList};
use generated_project::GeneratedTree;
use project_reading::{Query, QueryKind, ReadProject, ReadStop, read_project};
use std::alloc::Global;

/// The reason why nothing is compiled. A tree in memory fails only if memory runs out, so its fault becomes out of memory.
fn own_stop(stop: ReadStop) -> ReadStop
    ensures leads { (found : SourceReading) →
        LeadsTo found (Err stop) → LeadsTo found (Err result) }
    ensures plain { result ≡ why.Failed → ⊥ }
{
    match stop {
        ReadStop::Refused(reason) => ReadStop::Refused(reason),
        ReadStop::Over(limit, number) => ReadStop::Over(limit, number),
        ReadStop::Failed => ReadStop::NoMemory,
        ReadStop::NoMemory => ReadStop::NoMemory,
    }
}

/// The query of this kind with the pattern `*`, which matches every test.
#[tactic(auto, unfolding(crate::specs::Sources::any_name))]
pub fn query_for(alloc: Global, query_kind: QueryKind) -> Result<Query, NoMemory>
    ensures { IfOk result (λ query. query ≡ query_for query_kind) }
{
    let mut patterns = TextList::new(alloc);
    patterns.push(Text::from_slice(alloc, b"*")?)?;
    Ok(Query {
        query_kind,
        patterns,
    })
}

/// Reads the generated project for a query.
fn read_queried(
    alloc: Global,
    packages: u32,
    edited: u64,
    query: &Query,
) -> Result<ReadProject, ReadStop>
    ensures reading { (scan : List ℕ → Finding) → IsScanner scan →
        LeadsTo (files_reading scan (generated_files packages edited) query.now) result }
    ensures form { IfOk result (IsReadProject query.now) }
    ensures plain { result ≡ Err why.Failed → ⊥ }
{
    let Ok(mut tree) = GeneratedTree::new(alloc, packages, edited) else {
        return Err(ReadStop::NoMemory);
    };
    match read_project(alloc, &mut tree, query) {
        Ok(read) => Ok(read),
        Err(stop) => Err(own_stop(stop)),
    }
}

/// Reads the generated project for the query of this kind that selects all tests.
pub fn read_generated(
    alloc: Global,
    packages: u32,
    edited: u64,
    query_kind: QueryKind,
) -> Result<ReadProject, ReadStop>
    ensures reading { (scan : List ℕ → Finding) → IsScanner scan →
        LeadsTo (files_reading scan (generated_files packages edited) (query_for query_kind)) result }
    ensures form { IfOk result (IsReadProject (query_for query_kind)) }
    ensures plain { result ≡ Err why.Failed → ⊥ }
{
    match query_for(alloc, query_kind) {
        Ok(query) => read_queried(alloc, packages, edited, &query),
        Err(_) => Err(ReadStop::NoMemory),
    }
}
