//! What is done to the store of a disk in memory, and what is seen of two files afterwards.

ghost use Rattle.std.specs.Prelude.{◌≡◌, ◌<◌, ◌≤◌, [], ◌∷◌, false, length, All, IfOk, IsTrue, OnOk};
ghost use Rattle.base.specs.declared.limits.TheConstants.{ARTEFACT_LIMIT};
ghost use Rattle.outside.specs.Records.{deps_at};
ghost use Rattle.store.specs.Held.{latest_held};
ghost use Rattle.outside.specs.Records.{HasLatest};
ghost use Rattle.store.specs.Stored.{IsOver, IsRequestStoreInStep};

use crate::trials::empty_disk;
use base::{ARTEFACT_LIMIT, FileName, Graph, NoMemory, Text};
use memory_outside::MemDisk;
use outside::{Disk, Side, StoreFault, write_durably};
use std::alloc::Global;
use store::RequestStore;
use tests_graphs::{Record, read_record};

/// A disk of which these calls fail, and whose side A has these bytes, which takes two calls.
pub(super) fn disk_of(alloc: Global, failing: &[u64], bytes: &[u8]) -> Result<MemDisk, StoreFault> {
    let mut disk = empty_disk(alloc, failing)?;
    write_durably(&mut disk, Side::A, 0, bytes)?;
    Ok(disk)
}

/// The length of a dead payload that causes the compaction of its side: more than 1,048,576 bytes.
const DEAD_COUNT: u32 = 1_048_600;

/// A side with one more payload before all others. It stands for no record, since no form of a payload begins with its first byte, and
/// for no pass, since the length of its first text is more than its bytes.
fn with_dead_bytes(alloc: Global, side: &[u8]) -> Result<Vec<u8>, NoMemory> {
    let head = side.len().min(18);
    let mut bytes = Vec::from_slice(alloc, &side[..head])?;
    bytes.push(1)?;
    bytes.extend_from_slice(&DEAD_COUNT.to_le_bytes())?;
    let dead = vec![in alloc; 2; DEAD_COUNT as usize]?;
    bytes.extend_from_slice(&dead)?;
    bytes.extend_from_slice(&side[head..])?;
    Ok(bytes)
}

/// A disk whose side A is such a side, which takes two calls.
pub(super) fn full_disk(
    alloc: Global,
    failing: &[u64],
    side: &[u8],
) -> Result<MemDisk, StoreFault> {
    let bytes = with_dead_bytes(alloc, side)?;
    disk_of(alloc, failing, &bytes)
}

/// Adds a record of a file of the graph that the store was opened over.
fn keep<D: Disk>(
    alloc: Global,
    store: &mut RequestStore<'_>,
    disk: &mut D,
    graph: &Graph,
    at: u32,
    artefact: &Text,
) -> Result<(), StoreFault>
    requires index { at < length graph.now }
    requires artefact { length artefact.now ≤ ARTEFACT_LIMIT }
    requires over { IsOver store.old graph.now }
    requires built { All (HasLatest (latest_held store.old.held.payloads) graph.now)
        (deps_at graph.now at) }
    requires usable { store.old.journal.broken ≡ false }
    requires in_step { D.tells → IsRequestStoreInStep store.old (D.moments disk.old).now }
    ensures over { OnOk result (IsOver store.new graph.now) }
    ensures usable { OnOk result (store.new.journal.broken ≡ false) }
    ensures in_step { D.tells →
        OnOk result (IsRequestStoreInStep store.new (D.moments disk.new).now) }
{
    let _files = graph.len();
    let prepared = store.prepare(alloc, graph, at, artefact)?;
    store.commit(disk, prepared)?;
    Ok(())
}

/// Adds a record of the first file of a graph, with the artefact `y`.
fn keep_first<D: Disk>(
    alloc: Global,
    store: &mut RequestStore<'_>,
    disk: &mut D,
    graph: &Graph,
) -> Result<(), StoreFault>
    requires some { 0 < length graph.now }
    requires over { IsOver store.old graph.now }
    requires usable { store.old.journal.broken ≡ false }
    requires in_step { D.tells → IsRequestStoreInStep store.old (D.moments disk.old).now }
    ensures over { OnOk result (IsOver store.new graph.now) }
    ensures usable { OnOk result (store.new.journal.broken ≡ false) }
    ensures in_step { D.tells →
        OnOk result (IsRequestStoreInStep store.new (D.moments disk.new).now) }
{
    if !graph.get(0).deps.is_empty() {
        return Err(StoreFault::NoMemory);
    }
    let artefact = Text::from_slice(alloc, b"y")?;
    keep(alloc, store, disk, graph, 0, &artefact)
}

/// The byte of a text of one byte, a dot for an empty text, and `?` for a longer one.
pub(super) fn first_letter(text: &[u8]) -> u8 {
    match text {
        [] => b'.',
        [byte] => *byte,
        _ => b'?',
    }
}

/// The artefact of the file, or `-` where it has no record.
fn letter(store: &RequestStore<'_>, name: &FileName) -> u8 {
    match store.artefact(name) {
        Some(artefact) => first_letter(artefact),
        None => b'-',
    }
}

/// Both files as a record of the whole view of `b.vhd`.
static BOTH: [u8; 83] = [
    2, 0, 0, 0, 3, 0, 0, 0, b'l', b'i', b'b', 5, 0, 0, 0, b'a', b'.', b'v', b'h', b'd', //
    1, 0, 0, 0, 2, 0, 0, 0, b'c', b'c', 1, 0, 0, 0, b'x', 0, 0, 0, 0, //
    3, 0, 0, 0, b'l', b'i', b'b', 5, 0, 0, 0, b'b', b'.', b'v', b'h', b'd', //
    1, 0, 0, 0, 2, 0, 0, 0, b'c', b'c', 1, 0, 0, 0, b'x', 1, 0, 0, 0, 0, 0, 0, 0, //
    1, 0, 0, 0, b'z',
];

/// The graph of both files, with these texts.
pub(super) fn both(alloc: Global, first: u8, second: u8) -> Result<Graph, StoreFault>
    ensures { IfOk result (λ graph. 1 < length graph) }
{
    let mut bytes = BOTH;
    bytes[34] = first;
    bytes[69] = second;
    let Some(Record { view, artefact: _ }) = read_record(alloc, &bytes)? else {
        return Err(StoreFault::NoMemory);
    };
    if view.len() < 2 {
        return Err(StoreFault::NoMemory);
    }
    Ok(view)
}

/// Whether some positions are the first alone.
fn is_first(deps: &[u32]) -> bool
    ensures { IsTrue result → deps.now ≡ 0 ∷ [] }
{
    match deps {
        [0] => true,
        _ => false,
    }
}

/// Whether the second file of a graph depends on the first alone, which has a record of what would be asked now.
fn may_follow(store: &RequestStore<'_>, graph: &Graph) -> bool
    requires both { 1 < length graph.now }
    requires over { IsOver store.now graph.now }
    ensures { IsTrue result →
        All (HasLatest (latest_held store.now.held.payloads) graph.now) (deps_at graph.now 1) }
{
    if !store.is_current(graph, 0) {
        return false;
    }
    let second = graph.get(1);
    is_first(second.deps.as_slice())
}

/// Adds a record of the second file, with the artefact `z`, where the first one has one.
fn keep_second<D: Disk>(
    alloc: Global,
    store: &mut RequestStore<'_>,
    disk: &mut D,
    graph: &Graph,
) -> Result<(), StoreFault>
    requires both { 1 < length graph.now }
    requires over { IsOver store.old graph.now }
    requires usable { store.old.journal.broken ≡ false }
    requires in_step { D.tells → IsRequestStoreInStep store.old (D.moments disk.old).now }
    ensures over { OnOk result (IsOver store.new graph.now) }
{
    if !may_follow(store, graph) {
        return Err(StoreFault::NoMemory);
    }
    let artefact = Text::from_slice(alloc, b"z")?;
    keep(alloc, store, disk, graph, 1, &artefact)
}

/// Adds a record of the first file, and then of both where that is asked for.
fn keep_some<D: Disk>(
    alloc: Global,
    store: &mut RequestStore<'_>,
    disk: &mut D,
    graph: &Graph,
    both: bool,
) -> Result<(), StoreFault>
    requires both { 1 < length graph.now }
    requires over { IsOver store.old graph.now }
    requires usable { store.old.journal.broken ≡ false }
    requires in_step { D.tells → IsRequestStoreInStep store.old (D.moments disk.old).now }
    ensures over { OnOk result (IsOver store.new graph.now) }
{
    keep_first(alloc, store, disk, graph)?;
    if !both {
        return Ok(());
    }
    keep_second(alloc, store, disk, graph)
}

/// A change to the store of a disk. A disk that is full of dead bytes is compacted when it is opened.
#[derive(Clone, Copy)]
pub(super) enum Change {
    Opens,
    Commits,
    CommitsBoth,
    Compacts,
    Empties,
}

fn make_change<D: Disk>(
    alloc: Global,
    store: &mut RequestStore<'_>,
    disk: &mut D,
    change: Change,
    graph: &Graph,
) -> Result<(), StoreFault>
    requires both { 1 < length graph.now }
    requires over { IsOver store.old graph.now }
    requires usable { store.old.journal.broken ≡ false }
    requires in_step { D.tells → IsRequestStoreInStep store.old (D.moments disk.old).now }
    ensures over { OnOk result (IsOver store.new graph.now) }
{
    match change {
        Change::Opens => Ok(()),
        Change::Commits => keep_some(alloc, store, disk, graph, false),
        Change::CommitsBoth => keep_some(alloc, store, disk, graph, true),
        Change::Compacts => Ok(()),
        Change::Empties => Ok(()),
    }
}

/// Of both files `f` where the latest record has what would be asked now, and else `s`.
fn fitting(store: &RequestStore<'_>, graph: &Graph) -> [u8; 2]
    requires both { 1 < length graph.now }
    requires over { IsOver store.now graph.now }
{
    let mut letters = [b's'; 2];
    if store.is_current(graph, 0) {
        letters[0] = b'f';
    }
    if store.is_current(graph, 1) {
        letters[1] = b'f';
    }
    letters
}

/// The same, and then the artefacts that are borrowed.
fn observe_store(store: &RequestStore<'_>, graph: &Graph) -> [u8; 4]
    requires both { 1 < length graph.now }
    requires over { IsOver store.now graph.now }
{
    let [first, second] = fitting(store, graph);
    [
        first,
        second,
        letter(store, &graph.get(0).name),
        letter(store, &graph.get(1).name),
    ]
}

/// The same after a change.
fn seen_after<D: Disk>(
    alloc: Global,
    store: &mut RequestStore<'_>,
    disk: &mut D,
    by: Change,
    graph: &Graph,
) -> Result<[u8; 4], StoreFault>
    requires both { 1 < length graph.now }
    requires over { IsOver store.old graph.now }
    requires usable { store.old.journal.broken ≡ false }
    requires in_step { D.tells → IsRequestStoreInStep store.old (D.moments disk.old).now }
{
    make_change(alloc, store, disk, by, graph)?;
    Ok(observe_store(store, graph))
}

/// Opens the store of a disk, which lends from the files the texts that these have, and gives what is seen after a change. It
/// alone owns a store.
pub(super) fn seen_on<D: Disk>(
    alloc: Global,
    disk: &mut D,
    by: Change,
    graph: &Graph,
) -> Result<[u8; 4], StoreFault>
    requires { 1 < length graph.now }
{
    let mut store = RequestStore::open(alloc, disk, graph)?;
    seen_after(alloc, &mut store, disk, by, graph)
}

/// Of both files in the store of a disk, which lends from them the texts that they have, whether the latest record fits.
pub(super) fn fitting_on<D: Disk>(
    alloc: Global,
    disk: &mut D,
    graph: &Graph,
) -> Result<[u8; 2], StoreFault>
    requires { 1 < length graph.now }
{
    let store = RequestStore::open(alloc, disk, graph)?;
    Ok(fitting(&store, graph))
}

/// Opens the store of a disk empty, and gives what is seen.
fn seen_empty<D: Disk>(alloc: Global, disk: &mut D, graph: &Graph) -> Result<[u8; 4], StoreFault>
    requires { 1 < length graph.now }
{
    let store = RequestStore::open_empty(alloc, disk, graph)?;
    Ok(observe_store(&store, graph))
}

/// Adds a record of the first file, and empties the disk.
fn seen_emptied<D: Disk>(alloc: Global, disk: &mut D, graph: &Graph) -> Result<[u8; 4], StoreFault>
    requires { 1 < length graph.now }
{
    seen_on(alloc, disk, Change::Commits, graph)?;
    seen_empty(alloc, disk, graph)
}

/// The same of files with the text `x`.
pub(super) fn run<D: Disk>(alloc: Global, disk: &mut D, by: Change) -> Result<[u8; 4], StoreFault> {
    let graph = both(alloc, b'x', b'x')?;
    match by {
        Change::Empties => seen_emptied(alloc, disk, &graph),
        _ => seen_on(alloc, disk, by, &graph),
    }
}
