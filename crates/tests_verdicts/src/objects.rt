//! Runs over a store and children in memory, and what they tell.

ghost use Rattle.std.specs.Prelude.{IfOk};
ghost use Rattle.store.specs.Stored.{IsOver};

use crate::asked::{all_fit, are_recorded};
use crate::lines::{answers_of, inputs_of, runs_of, simulator};
use crate::way::{NEVER, Way};
use base::{Event, Graph, NoMemory, Numbers, Positions, Text, TextList};
use memory_outside::{MemDisk, ScriptProcs, can_answer};
use outside::{Records, Side, StoreFault, write_durably};
use run_spec::RunFault;
use run_tests::{NoRecorder, run_tests};
use std::alloc::Global;
use std::process::Abort;
use std::test::Fail;
use store::RequestStore;
use testbench_runs::{RunEnd, TestEnd, TestRunList, Verdict};
use tests_build::picks::{pick_of, started_for};
use tests_graphs::{Record, read_record};

/// What runs did and answered.
#[derive(Drop)]
pub(super) struct Told {
    /// `+0` is a start of run 0, `-0` its end with code 0, `!0` with another one, `?0` its loss.
    pub events: Vec<u8>,
    /// Of each run the output that is shown, and a line for each case.
    pub text: Vec<u8>,
    pub fault: Option<RunFault>,
    /// Whether no child runs in the end.
    pub idle: bool,
}

/// A side of generation 1 without a record, but for the last commit byte.
static SIDE: &[u8] = b"\x01VUNITREC\x03\x01\0\0\0\0\0\0\0";

/// File `p.vhd` of `lib`, compiled by `cc`, with the text `x` and the artefact `yz`, after an open commit byte and the length.
static FIRST: &[u8] = b"\x01\x2c\0\0\0\
\x01\x03\0\0\0lib\x05\0\0\0p.vhd\x01\0\0\0\x02\0\0\0cc\x01\x01\0\0\0x\0\0\0\0\x01\x02\0\0\0yz";

/// File `tb.vhd`, which uses it, with the text `w` and the artefact `v`.
static SECOND: &[u8] = b"\x01\x34\0\0\0\
\x01\x03\0\0\0lib\x06\0\0\0tb.vhd\x01\0\0\0\x02\0\0\0cc\x01\x01\0\0\0w\
\x01\0\0\0\0\0\0\0\0\0\0\0\x01\x01\0\0\0v";

/// File `p.vhd` with the same text once more, and the artefact that it had.
static AGAIN: &[u8] = b"\x01\x31\0\0\0\
\x01\x03\0\0\0lib\x05\0\0\0p.vhd\x01\0\0\0\x02\0\0\0cc\
\0\0\0\0\0\0\0\0\0\0\0\0\0\0\x01\0\0\0\0\0\0\0";

/// The same with the artefact `zz`.
static OTHER: &[u8] = b"\x01\x2f\0\0\0\
\x01\x03\0\0\0lib\x05\0\0\0p.vhd\x01\0\0\0\x02\0\0\0cc\
\0\0\0\0\0\0\0\0\0\0\0\0\0\x01\x02\0\0\0zz";

/// A record whose view is the graph of both files.
static VIEW: &[u8] = b"\
\x02\0\0\0\x03\0\0\0lib\x05\0\0\0p.vhd\x01\0\0\0\x02\0\0\0cc\x01\0\0\0x\0\0\0\0\
\x03\0\0\0lib\x06\0\0\0tb.vhd\x01\0\0\0\x02\0\0\0cc\x01\0\0\0w\x01\0\0\0\0\0\0\0\x01\0\0\0v";

/// The two files.
pub(super) fn graph_of(alloc: Global) -> Result<Graph, Fail> {
    let Some(Record { view, artefact: _ }) = read_record(alloc, VIEW)? else {
        return Err(Fail::from("the bytes are a record"));
    };
    Ok(view)
}

/// What a store has records of: the first file alone, both files, and then the first once more, with the artefact that it had or
/// with another one.
#[derive(Clone, Copy)]
pub(super) enum Stored {
    First,
    Both,
    Again,
    Other,
}

/// What comes after the record of the first file.
fn later_bytes(stored: Stored) -> [&'static [u8]; 2] {
    match stored {
        Stored::First => [b"", b""],
        Stored::Both => [SECOND, b""],
        Stored::Again => [SECOND, AGAIN],
        Stored::Other => [SECOND, OTHER],
    }
}

/// The bytes of a store.
fn bytes_of(alloc: Global, stored: Stored) -> Result<Vec<u8>, NoMemory> {
    let mut bytes = Vec::from_slice(alloc, SIDE)?;
    bytes.extend_from_slice(FIRST)?;
    for later in later_bytes(stored) {
        bytes.extend_from_slice(later)?;
    }
    bytes.push(0)?;
    Ok(bytes)
}

/// A disk that has such a store.
pub(super) fn disk_of(alloc: Global, stored: Stored) -> Result<MemDisk, StoreFault> {
    let bytes = bytes_of(alloc, stored)?;
    let mut disk = MemDisk::new(alloc, Numbers::new(alloc));
    write_durably(&mut disk, Side::A, 0, bytes.as_slice())?;
    Ok(disk)
}

/// Such a store, opened over a graph.
fn store_of<'g>(
    alloc: Global,
    stored: Stored,
    graph: &'g Graph,
) -> Result<RequestStore<'g>, StoreFault>
    ensures { IfOk result (λ store. IsOver store graph.now) }
{
    let mut disk = disk_of(alloc, stored)?;
    RequestStore::open(alloc, &mut disk, graph)
}

/// Whether each file of a graph has a record in such a store of what would be asked for it now.
pub(super) fn is_recorded(alloc: Global, graph: &Graph, stored: Stored) -> Result<bool, Fail> {
    let store = store_of(alloc, stored, graph)?;
    Ok(are_recorded(alloc, graph, &store)?)
}

/// The calls that are to fail.
fn failing_of(alloc: Global, way: &Way) -> Result<Numbers, NoMemory> {
    let mut calls = Numbers::new(alloc);
    for call in way.failing {
        if call < NEVER {
            calls.push(call as u64)?;
        }
    }
    Ok(calls)
}

fn picks_of(alloc: Global, picks: u32) -> Result<Positions, NoMemory> {
    let mut list = Positions::new(alloc);
    for wait in 0..8u32 {
        list.push(pick_of(picks, wait))?;
    }
    Ok(list)
}

/// Children of lines that go a way.
pub(super) fn script(
    rt: &impl Abort,
    alloc: Global,
    lines: &str,
    way: &Way,
) -> Result<ScriptProcs, NoMemory> {
    let answers = answers_of(alloc, lines)?;
    assert!(rt; can_answer(&answers));
    let picks = picks_of(alloc, way.picks)?;
    Ok(ScriptProcs::new(alloc, answers, picks, failing_of(alloc, way)?))
}

/// Runs tests over the artefacts of a store.
fn run_over<K: Records>(
    rt: &impl Abort,
    alloc: Global,
    graph: &Graph,
    store: &K,
    runs: &TestRunList,
    words: &TextList,
    procs: &mut ScriptProcs,
    way: &Way,
) -> Result<TestEnd, RunFault>
    requires { K.is_over store.now graph.now }
{
    let limit = way.limit;
    let recorded = are_recorded(alloc, graph, store)?;
    assert!(rt; recorded);
    assert!(rt; procs.running_tickets().is_empty());
    assert!(rt; limit >= 1);
    assert!(rt; limit <= 64);
    assert!(rt; runs.len() <= 65_536);
    assert!(rt; all_fit(runs));
    let mut recorder = NoRecorder;
    run_tests(
        alloc,
        graph,
        store,
        runs,
        words,
        procs,
        limit,
        way.fail_fast,
        &mut recorder,
    )
}

/// The index of an input among others, or 200 if it isn't one of them.
fn place_of(inputs: &TextList, input: &Text) -> u8 {
    let mut place = 0u8;
    for other in inputs.as_slice() {
        if other.same(input) {
            return place;
        }
        place = place.wrapping_add(1);
    }
    200
}

/// The index of the run that a ticket was started for, or 200 if it was not started for a run.
fn started_run(events: &[Event], inputs: &TextList, ticket: u64) -> u8 {
    match started_for(events, ticket) {
        Some(request) => place_of(inputs, &request.input),
        None => 200,
    }
}

/// An event as a letter for its kind and the index of its run. A child with a request that isn't wanted ends with code 127.
fn letters(event: &Event, events: &[Event], inputs: &TextList) -> (u8, u8) {
    match event {
        Event::Started { ticket: _, request } => (b'+', place_of(inputs, &request.input)),
        Event::Ended { ticket, exit } => {
            let kind = match exit.code {
                0 => b'-',
                127 => b'x',
                _ => b'!',
            };
            (kind, started_run(events, inputs, *ticket))
        }
        Event::Gone { ticket } => (b'?', started_run(events, inputs, *ticket)),
    }
}

pub(super) fn tell_events(
    alloc: Global,
    events: &[Event],
    inputs: &TextList,
) -> Result<Vec<u8>, NoMemory> {
    let mut told = Vec::new(alloc);
    for event in events {
        let (kind, place) = letters(event, events, inputs);
        told.push(kind)?;
        told.push(place.wrapping_add(b'0'))?;
    }
    Ok(told)
}

fn word_of(verdict: Option<&Verdict>) -> &'static [u8] {
    match verdict {
        Some(Verdict::Passed) => b"pass ",
        Some(Verdict::Failed) => b"fail ",
        Some(Verdict::Skipped) => b"skip ",
        None => b"none ",
    }
}

/// Adds the end of a run: the output that is shown, and a line for each case.
fn put_end(out: &mut Vec<u8>, end: &RunEnd) -> Result<(), NoMemory> {
    out.extend_from_slice(end.output.bytes())?;
    let mut verdicts = end.verdicts.as_slice().iter();
    for name in end.names.as_slice() {
        out.extend_from_slice(word_of(verdicts.next()))?;
        out.extend_from_slice(name.bytes())?;
        out.push(b'\n')?;
    }
    Ok(())
}

pub(super) fn tell_ends(alloc: Global, ends: &[RunEnd]) -> Result<Vec<u8>, NoMemory> {
    let mut told = Vec::new(alloc);
    for end in ends {
        put_end(&mut told, end)?;
    }
    Ok(told)
}

fn tell(
    alloc: Global,
    procs: &ScriptProcs,
    inputs: &TextList,
    end: &Result<TestEnd, RunFault>,
) -> Result<Told, NoMemory> {
    let events = tell_events(alloc, procs.journal().as_slice(), inputs)?;
    let idle = procs.running_tickets().is_empty();
    match end {
        Ok(end) => Ok(Told {
            events,
            text: tell_ends(alloc, end.runs.as_slice())?,
            fault: None,
            idle,
        }),
        Err(fault) => Ok(Told {
            events,
            text: Vec::new(alloc),
            fault: Some(*fault),
            idle,
        }),
    }
}

/// Runs the runs of lines by children, and tells.
fn told_by(
    rt: &impl Abort,
    alloc: Global,
    graph: &Graph,
    store: &RequestStore<'_>,
    lines: &str,
    procs: &mut ScriptProcs,
    way: &Way,
) -> Result<Told, NoMemory>
    requires { IsOver store.now graph.now }
{
    let runs = runs_of(alloc, lines)?;
    let words = simulator(alloc)?;
    let end = run_over(rt, alloc, graph, store, &runs, &words, procs, way);
    tell(alloc, procs, &inputs_of(alloc, lines)?, &end)
}

fn told_over(
    rt: &impl Abort,
    alloc: Global,
    graph: &Graph,
    store: &RequestStore<'_>,
    lines: &str,
    way: &Way,
) -> Result<Told, NoMemory>
    requires { IsOver store.now graph.now }
{
    let mut procs = script(rt, alloc, lines, way)?;
    told_by(rt, alloc, graph, store, lines, &mut procs, way)
}

/// Runs the runs of lines over a graph, of whose files the store has the records.
pub(super) fn told_on(
    rt: &impl Abort,
    alloc: Global,
    graph: &Graph,
    lines: &str,
    way: &Way,
) -> Result<Told, Fail> {
    let store = store_of(alloc, Stored::Both, graph)?;
    Ok(told_over(rt, alloc, graph, &store, lines, way)?)
}

/// Runs the runs of lines over the two files.
pub(super) fn told_runs(
    rt: &impl Abort,
    alloc: Global,
    lines: &str,
    way: &Way,
) -> Result<Told, Fail> {
    let graph = graph_of(alloc)?;
    told_on(rt, alloc, &graph, lines, way)
}
