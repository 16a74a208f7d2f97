//! Builds over a disk and children in memory, and what they tell.

ghost use Rattle.std.specs.Prelude.{◌≡◌, ◌≤◌, [], IsTrue, false};
ghost use Rattle.base.specs.declared.limits.TheConstants.{SLOT_LIMIT};

use crate::picks::{pick_of, started_for};
use crate::plain::{NEVER, Way};
use crate::sets::has;
use crate::shapes::{Project, artefact_of, file_at, file_of, graph_of, input_of, letter, word};
use base::{
    Event, Exit, Graph, Items, MaybeText, NoMemory, Numbers, Positions, Request, Text, TextList,
};
use memory_outside::{Answer, AnswerList, MemDisk, ScriptProcs, can_answer};
use outside::{Disk, Procs, Records, StoreFault};
use report::build_text;
use run_build::build_statuses;
use run_scheduler::{Need, plan};
use run_spec::{FileStatus, FileStatusList, RunFault};
use std::alloc::Global;
use std::process::Abort;
use std::test::Fail;
use store::RequestStore;

/// What a build did and answered, in letters.
#[derive(Drop)]
pub(super) struct Told {
    /// `+0` is a start of file 0, `-0` its end with code 0, `!0` its refusal, `?0` its loss.
    pub events: Vec<u8>,
    /// One letter a status: fresh, compiled, refused, skipped or left.
    pub statuses: Vec<u8>,
    /// The letter and the text of the artefact of each file, where all are made.
    pub whole: Vec<u8>,
    /// What is printed of the build.
    pub text: Vec<u8>,
    pub fault: Option<RunFault>,
}

/// A list of the one call that is to fail, or of none.
fn one(alloc: Global, call: u32) -> Result<Numbers, NoMemory> {
    let mut calls = Numbers::new(alloc);
    if call < NEVER {
        calls.push(call as u64)?;
    }
    Ok(calls)
}

/// An empty disk, of which one call is to fail.
pub(super) fn empty_disk(alloc: Global, failing: u32) -> Result<MemDisk, NoMemory> {
    Ok(MemDisk::new(alloc, one(alloc, failing)?))
}

fn picks_of(alloc: Global, picks: u32) -> Result<Positions, NoMemory> {
    let mut list = Positions::new(alloc);
    for wait in 0..8u32 {
        list.push(pick_of(picks, wait))?;
    }
    Ok(list)
}

fn words(alloc: Global, project: &Project, at: u8) -> Result<TextList, NoMemory> {
    let mut words = TextList::new(alloc);
    words.push(Text::from_slice(alloc, word(project, at))?)?;
    Ok(words)
}

fn request(alloc: Global, project: &Project, made: &[u8; 8], at: u8) -> Result<Request, NoMemory> {
    Ok(Request {
        command: words(alloc, project, at)?,
        input: Text::from_vec(input_of(alloc, project, made, at)?),
        results: MaybeText::Nothing,
    })
}

/// A compiler's exit: what it gives for the file, whether it is refused or not.
fn exit(alloc: Global, project: &Project, at: u8, refused: bool) -> Result<Exit, NoMemory> {
    Ok(Exit {
        code: if refused { 1 } else { 0 },
        output: Text::from_slice(alloc, &[letter(at), artefact_of(project, at)])?,
        results: MaybeText::Nothing,
    })
}

/// What compilers answer that are asked over files with these artefacts.
fn answers(
    alloc: Global,
    project: &Project,
    made: &[u8; 8],
    refused: u8,
) -> Result<AnswerList, NoMemory> {
    let mut answers: AnswerList = Items::new(alloc);
    for position in 0..project.shape.count {
        let at = file_at(project, position);
        answers.push(Answer {
            request: request(alloc, project, made, at)?,
            exit: exit(alloc, project, at, has(refused, at))?,
        })?;
    }
    Ok(answers)
}

/// Children of a project that go a way, where files have these artefacts once they are made.
fn script(
    rt: &impl Abort,
    alloc: Global,
    project: &Project,
    made: &[u8; 8],
    way: &Way,
) -> Result<ScriptProcs, NoMemory> {
    let answers = answers(alloc, project, made, way.refused)?;
    assert!(rt; can_answer(&answers));
    let picks = picks_of(alloc, way.picks)?;
    Ok(ScriptProcs::new(alloc, answers, picks, one(alloc, way.failing)?))
}

/// Whether no child runs.
fn is_idle(procs: &ScriptProcs) -> bool
    ensures { IsTrue result → procs.now.child_log.running ≡ [] }
{
    procs.running_tickets().is_empty()
}

/// The statuses of a build, and if all files are made, the artefacts that the store lends in the end.
#[derive(Drop)]
struct BuildEnd {
    statuses: FileStatusList,
    whole: Vec<u8>,
}

/// Whether each file is fresh or compiled.
fn are_made(statuses: &FileStatusList) -> bool {
    for status in statuses.as_slice() {
        match status {
            FileStatus::Fresh | FileStatus::Compiled => {}
            FileStatus::Refused { code: _, output: _ } | FileStatus::Skipped | FileStatus::Left =>
                return false,
        }
    }
    true
}

/// If all files are made, the artefacts that a store lends, joined, with `?` for a file without one; else no bytes.
fn borrowed_whole<K: Records>(
    alloc: Global,
    graph: &Graph,
    store: &K,
    statuses: &FileStatusList,
) -> Result<Vec<u8>, NoMemory> {
    let mut whole = Vec::new(alloc);
    if !are_made(statuses) {
        return Ok(whole);
    }
    for entry in graph.as_slice() {
        match store.artefact(&entry.name) {
            Some(artefact) => whole.extend_from_slice(artefact)?,
            None => whole.push(b'?')?,
        }
    }
    Ok(whole)
}

/// Builds over a store that was opened over the graph.
fn build_in<K: Records, D: Disk, P: Procs>(
    alloc: Global,
    graph: &Graph,
    store: &mut K,
    disk: &mut D,
    procs: &mut P,
    limit: u32,
    keep_going: bool,
) -> Result<BuildEnd, RunFault>
    requires limit { (1 ≤ limit) × (limit ≤ SLOT_LIMIT) }
    requires idle { P.running procs.old ≡ [] }
    requires over { K.is_over store.old graph.now }
    requires usable { K.broken store.old ≡ false }
    requires in_step { D.tells → K.in_step store.old (D.moments disk.old).now }
{
    let statuses = build_statuses(alloc, graph, store, disk, procs, limit, keep_going)?;
    match borrowed_whole(alloc, graph, store, &statuses) {
        Ok(whole) => Ok(BuildEnd { statuses, whole }),
        Err(NoMemory) => Err(RunFault::NoMemory),
    }
}

/// Builds over a store that is opened over the disk. A store that can't be opened is the fault of a build.
fn build_over(
    rt: &impl Abort,
    alloc: Global,
    graph: &Graph,
    disk: &mut MemDisk,
    procs: &mut ScriptProcs,
    limit: u32,
    keep_going: bool,
) -> Result<BuildEnd, RunFault> {
    let mut store = match RequestStore::open(alloc, disk, graph) {
        Ok(store) => store,
        Err(StoreFault::NoMemory) => return Err(RunFault::NoMemory),
        Err(StoreFault::DiskFailed) => return Err(RunFault::DiskFailed),
    };
    assert!(rt; is_idle(procs));
    assert!(rt; limit >= 1);
    assert!(rt; limit <= 64);
    build_in(alloc, graph, &mut store, disk, procs, limit, keep_going)
}

/// The file that a ticket was started for, or 8 if it was not started for a file.
fn started_file(events: &[Event], ticket: u64) -> u8 {
    match started_for(events, ticket) {
        Some(request) => file_of(request.input.bytes()),
        None => 8,
    }
}

/// An event as two letters.
fn letters(event: &Event, events: &[Event]) -> [u8; 2] {
    match event {
        Event::Started { ticket: _, request } => [b'+', file_of(request.input.bytes())],
        Event::Ended { ticket, exit } => {
            let kind = if exit.code == 0 { b'-' } else { b'!' };
            [kind, started_file(events, *ticket)]
        }
        Event::Gone { ticket } => [b'?', started_file(events, *ticket)],
    }
}

fn tell_events(alloc: Global, events: &[Event]) -> Result<Vec<u8>, NoMemory> {
    let mut told = Vec::new(alloc);
    for event in events {
        let [kind, file] = letters(event, events);
        told.push(kind)?;
        told.push(b'0' + file % 16)?;
    }
    Ok(told)
}

fn letter_of(status: &FileStatus) -> u8 {
    match status {
        FileStatus::Fresh => b'f',
        FileStatus::Compiled => b'c',
        FileStatus::Refused { code, output: _ } => { if *code == 1 { b'r' } else { b'x' } }
        FileStatus::Skipped => b's',
        FileStatus::Left => b'l',
    }
}

fn tell_statuses(alloc: Global, statuses: &FileStatusList) -> Result<Vec<u8>, NoMemory> {
    let mut told = Vec::new(alloc);
    for status in statuses.as_slice() {
        told.push(letter_of(status))?;
    }
    Ok(told)
}

/// What is printed of a build with these statuses; nothing where they aren't those of the graph.
fn tell_text(alloc: Global, graph: &Graph, statuses: &FileStatusList) -> Result<Vec<u8>, NoMemory> {
    if statuses.len() != graph.len() {
        return Ok(Vec::new(alloc));
    }
    let text = build_text(alloc, graph, statuses)?;
    Ok(Vec::from_slice(alloc, text.bytes())?)
}

fn tell(
    alloc: Global,
    graph: &Graph,
    events: &[Event],
    end: &Result<BuildEnd, RunFault>,
) -> Result<Told, NoMemory> {
    let events = tell_events(alloc, events)?;
    match end {
        Ok(end) => Ok(Told {
            events,
            statuses: tell_statuses(alloc, &end.statuses)?,
            whole: Vec::from_slice(alloc, end.whole.as_slice())?,
            text: tell_text(alloc, graph, &end.statuses)?,
            fault: None,
        }),
        Err(fault) => Ok(Told {
            events,
            statuses: Vec::new(alloc),
            whole: Vec::new(alloc),
            text: Vec::new(alloc),
            fault: Some(*fault),
        }),
    }
}

/// Builds a project over a disk, where files have these artefacts once they are made.
pub(super) fn told_build(
    rt: &impl Abort,
    alloc: Global,
    project: &Project,
    made: &[u8; 8],
    way: &Way,
    disk: &mut MemDisk,
) -> Result<Told, Fail> {
    let graph = graph_of(alloc, project)?;
    let mut procs = script(rt, alloc, project, made, way)?;
    let end = build_over(
        rt,
        alloc,
        &graph,
        disk,
        &mut procs,
        way.limit,
        way.keep_going,
    );
    Ok(tell(alloc, &graph, procs.journal().as_slice(), &end)?)
}

/// The plan over a store as letters: fresh, stale, or to be checked later.
fn plan_letters<K: Records>(alloc: Global, graph: &Graph, store: &K) -> Result<Vec<u8>, NoMemory>
    requires { K.is_over store.now graph.now }
{
    let needs = plan(alloc, graph, store)?;
    let mut letters = Vec::new(alloc);
    for need in needs.as_slice() {
        letters.push(match need {
            Need::Fresh => b'f',
            Need::Stale => b's',
            Need::Later => b'l',
        })?;
    }
    Ok(letters)
}

/// The plan of a build of a project over a disk.
pub(super) fn told_plan(
    alloc: Global,
    project: &Project,
    disk: &mut MemDisk,
) -> Result<Vec<u8>, Fail> {
    let graph = graph_of(alloc, project)?;
    let store = RequestStore::open(alloc, disk, &graph)?;
    Ok(plan_letters(alloc, &graph, &store)?)
}
