//! The requests to compilers, with the artefacts that the store lends.

ghost use Rattle.std.specs.Prelude.{ℕ, ◌≡◌, ◌<◌, ◌≤◌, ◌++◌, ◌∷◌, [], List, Option, length, All, IsTrue, Some, IfOk, OnOk};
ghost use Rattle.std.specs.List.{filter_map, flat_map};
ghost use Rattle.run_spec.specs.Types.{FileName, Entry};
ghost use Rattle.base.specs.PresentGraph.{below};
ghost use Rattle.base.specs.Jobs.{built_bytes};
ghost use Rattle.outside.specs.Records.{Record, IsRecorded, deps_at};
ghost use Rattle.run_build.specs.Requests.{borrowed_at, borrowed_request, AreRecorded, IsGathered};

use base::{FILE_LIMIT, Graph, NoMemory, Request};
use child_compile_request::{BuiltBytes, RequestWriter};
use outside::Records;
use std::alloc::Global;
use std::mem::replace;

/// The files at the first positions of a graph, as requests have them, with the artefacts that the store borrowed. Where a file
/// depends on all before it, as each one of a listed project does, they are copied in one piece.
#[derive(Drop)]
pub struct Gathered {
    pub count: u32,
    pub files: BuiltBytes,
}

impl Gathered {
    /// No file, which takes no memory.
    pub fn new(alloc: Global) -> Gathered
        ensures { (latest_of : FileName → Option Record) (graph : List Entry) →
            IsGathered latest_of graph result }
    {
        Gathered {
            count: 0,
            files: BuiltBytes::new(alloc),
        }
    }
}

/// Adds a file with the artefact that the store lends.
fn add_slice<K: Records>(
    files: &mut BuiltBytes,
    graph: &Graph,
    dep: u32,
    store: &K,
) -> Result<(), NoMemory>
    requires position { dep < length graph.now }
    requires over { K.is_over store.now graph.now }
    requires recorded { IsRecorded (K.latest_of store.now) graph.now dep }
    ensures { OnOk result (files.new ≡ files.old ++
        flat_map built_bytes (filter_map (borrowed_at (K.latest_of store.now) graph.now) (dep ∷ []))) }
{
    let entry = graph.get(dep as u64);
    match store.artefact_at(graph, dep) {
        Some(artefact) => files.add(&entry.name, artefact),
        None => unreachable!(),
    }
}

/// Whether a file depends on all files at the first positions, up to some.
fn are_first(deps: &[u32]) -> bool
    ensures { IsTrue result → deps.now ≡ below (length deps.now) }
{
    for at in 0..deps.len() {
        if deps[at] as usize != at {
            return false;
        }
    }
    true
}

/// What was gathered, with the files up to a number.
fn gathered_to<K: Records>(
    gathered: Gathered,
    count: u32,
    graph: &Graph,
    store: &K,
) -> Result<Gathered, NoMemory>
    requires more { gathered.count ≤ count }
    requires inside { count ≤ length graph.now }
    requires over { K.is_over store.now graph.now }
    requires gathered { IsGathered (K.latest_of store.now) graph.now gathered }
    requires recorded { AreRecorded (K.latest_of store.now) graph.now count }
    ensures count { IfOk result (λ all. all.count ≡ count) }
    ensures gathered { IfOk result (IsGathered (K.latest_of store.now) graph.now) }
{
    let Gathered {
        count: first,
        mut files,
    } = gathered;
    for at in first..count {
        add_slice(&mut files, graph, at, store)?;
    }
    Ok(Gathered { count, files })
}

/// Puts back what more was gathered to.
fn keep(gathered: &mut Gathered, all: Gathered)
    ensures { gathered.new ≡ all }
{
    *gathered = all;
}

/// Gathers the files up to a number. Where memory is wanting, none is left gathered.
fn gather<K: Records>(
    alloc: Global,
    gathered: &mut Gathered,
    count: u32,
    graph: &Graph,
    store: &K,
) -> Result<(), NoMemory>
    requires more { gathered.old.count ≤ count }
    requires inside { count ≤ length graph.now }
    requires over { K.is_over store.now graph.now }
    requires gathered { IsGathered (K.latest_of store.now) graph.now gathered.old }
    requires recorded { AreRecorded (K.latest_of store.now) graph.now count }
    ensures count { OnOk result (gathered.new.count ≡ count) }
    ensures gathered { IsGathered (K.latest_of store.now) graph.now gathered.new }
{
    let before = replace(gathered, Gathered::new(alloc));
    let all = gathered_to(before, count, graph, store)?;
    keep(gathered, all);
    Ok(())
}

/// Adds files with the artefacts that the store lends, one by one.
fn add_each<K: Records>(
    files: &mut BuiltBytes,
    deps: &[u32],
    graph: &Graph,
    store: &K,
) -> Result<(), NoMemory>
    requires positions { All (λ dep. dep < length graph.now) deps.now }
    requires over { K.is_over store.now graph.now }
    requires recorded { All (IsRecorded (K.latest_of store.now) graph.now) deps.now }
    ensures { OnOk result (files.new ≡ files.old ++
        flat_map built_bytes (filter_map (borrowed_at (K.latest_of store.now) graph.now) deps.now)) }
{
    for dep in deps {
        add_slice(files, graph, *dep, store)?;
    }
    Ok(())
}

/// Adds files with the artefacts that the store lends: at once where they are the first ones.
fn add_deps<K: Records>(
    alloc: Global,
    files: &mut BuiltBytes,
    deps: &[u32],
    graph: &Graph,
    store: &K,
    gathered: &mut Gathered,
) -> Result<(), NoMemory>
    requires positions { All (λ dep. dep < length graph.now) deps.now }
    requires inside { length deps.now ≤ length graph.now }
    requires over { K.is_over store.now graph.now }
    requires recorded { All (IsRecorded (K.latest_of store.now) graph.now) deps.now }
    requires gathered { IsGathered (K.latest_of store.now) graph.now gathered.old }
    ensures input { OnOk result (files.new ≡ files.old ++
        flat_map built_bytes (filter_map (borrowed_at (K.latest_of store.now) graph.now) deps.now)) }
    ensures gathered { IsGathered (K.latest_of store.now) graph.now gathered.new }
{
    prove!(graph.len() <= FILE_LIMIT as u64);
    let count = deps.len() as u32;
    if gathered.count > count {
        return add_each(files, deps, graph, store);
    }
    if !are_first(deps) {
        return add_each(files, deps, graph, store);
    }
    gather(alloc, gathered, count, graph, store)?;
    files.add_all(&gathered.files)
}

/// What the compiler of the file at a position is started with, over the artefacts of the files that it depends on.
pub(crate) fn request_of<K: Records>(
    alloc: Global,
    graph: &Graph,
    at: u32,
    store: &K,
    gathered: &mut Gathered,
) -> Result<Request, NoMemory>
    requires position { at < length graph.now }
    requires over { K.is_over store.now graph.now }
    requires recorded { All (IsRecorded (K.latest_of store.now) graph.now) (deps_at graph.now at) }
    requires gathered { IsGathered (K.latest_of store.now) graph.now gathered.old }
    ensures request { IfOk result
        (λ request. borrowed_request (K.latest_of store.now) graph.now at ≡ Some request) }
    ensures gathered { IsGathered (K.latest_of store.now) graph.now gathered.new }
{
    let entry = graph.get(at as u64);
    let deps = entry.deps.as_slice();
    let mut writer = RequestWriter::new(alloc, entry, deps.len() as u32)?;
    add_deps(alloc, &mut writer.input, deps, graph, store, gathered)?;
    Ok(writer.finish())
}
