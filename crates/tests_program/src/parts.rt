//! What the tests of runs share: their project, words, and what is seen of a run.

ghost use Rattle.std.specs.Prelude.{◌≡◌, []};

use base::{
    Event, Items, MaybeText, NamedText, NamedTextList, NoMemory, Numbers, Positions, Request, Text,
    TextList,
};
use base_outcomes::{Outcome, OutsideObject};
use memory_children::LoopProcs;
use memory_outside::{MemReports, MemSink, MemSource, MemTree, have_paths};
use outside::{Disk, Procs, Reports, Sink, Source, Tree};
use std::alloc::Global;
use std::process::Abort;
use vunit_top::run_vunit;

/// A row a line: the stages that have the file, its path, and its text. `~` is a line feed, and `@` the stage. In stage 1
/// the project is a package p that three others use, and one alone. In stage 2 p has another note, which its compiler puts into
/// the artefact, and there is a bench with two cases. In stage 3 p has a comment more, with the artefact of stage 2.
static FILES: &str = "\
1|vunit.toml|[[library]]~name = \"lib\"~files = [\"[p-t].vhd\"]~
23|vunit.toml|[[library]]~name = \"lib\"~files = [\"[p-t].vhd\", \"b.vhd\"]~
12|p.vhd|-- child: note @~package p is end;~
3|p.vhd|-- child: note 2~-- stage @~package p is end;~
123|q.vhd|use work.p.all;~package q is end;~
123|r.vhd|use work.p.all;~package r is end;~
123|s.vhd|use work.p.all;~package s is end;~
123|t.vhd|package t is end;~
23|b.vhd|entity b is generic (runner_cfg : string); end;~architecture a of b is begin~x <= run(\"one\");~y <= run(\"two\");~end;~";

/// The byte that a byte of a table stands for in a stage.
fn meant(byte: u8, stage: u8) -> u8 {
    match byte {
        b'~' => b'\n',
        b'@' => stage,
        _ => byte,
    }
}

pub(super) fn push_meant(bytes: &mut Vec<u8>, text: &str, stage: u8) -> Result<(), NoMemory> {
    for byte in text.as_bytes() {
        bytes.push(meant(*byte, stage))?;
    }
    Ok(())
}

/// Whether a text of a table stands for these bytes in a stage.
pub(super) fn are_meant(bytes: &[u8], text: &str, stage: u8) -> bool {
    let text = text.as_bytes();
    if bytes.len() != text.len() {
        return false;
    }
    for at in 0..bytes.len() {
        if bytes[at] != meant(text[at], stage) {
            return false;
        }
    }
    true
}

/// The text of a file in a stage, in the notation of the table.
pub(super) fn text_in(letter: u8, stage: u8) -> &'static str {
    for row in FILES.lines() {
        let is_file = part(row, 1).as_bytes() == [letter, b'.', b'v', b'h', b'd'].as_slice();
        if is_file && part(row, 0).as_bytes().contains(&stage) {
            return part(row, 2);
        }
    }
    ""
}

/// A part of a row.
pub(super) fn part(row: &str, at: usize) -> &str {
    row.split('|').nth(at).unwrap_or("")
}

pub(super) fn words_of(alloc: Global, text: &str) -> Result<TextList, NoMemory> {
    let mut words = TextList::new(alloc);
    for word in text.split(' ') {
        if !word.is_empty() {
            words.push(Text::from_slice(alloc, word.as_bytes())?)?;
        }
    }
    Ok(words)
}

fn add_file(
    alloc: Global,
    files: &mut NamedTextList,
    row: &str,
    stage: u8,
) -> Result<(), NoMemory> {
    let mut bytes = Vec::new(alloc);
    push_meant(&mut bytes, part(row, 2), stage)?;
    files.push(NamedText {
        path: Text::from_slice(alloc, part(row, 1).as_bytes())?,
        bytes: Text::from_vec(bytes),
    })
}

pub(super) fn files_of(alloc: Global, stage: u8) -> Result<NamedTextList, NoMemory> {
    let mut files: NamedTextList = Items::new(alloc);
    for row in FILES.lines() {
        if part(row, 0).as_bytes().contains(&stage) {
            add_file(alloc, &mut files, row, stage)?;
        }
    }
    Ok(files)
}

/// The project of a stage, as a tree whose calls of these numbers fail.
pub(super) fn project(
    rt: &impl Abort,
    alloc: Global,
    stage: u8,
    failing: Numbers,
) -> Result<MemTree, NoMemory> {
    let files = files_of(alloc, stage)?;
    assert!(rt; have_paths(&files));
    Ok(MemTree::new(alloc, files, failing))
}

/// The letter of a fault of an object.
fn letter_of_fault(which: &OutsideObject) -> u8 {
    match which {
        OutsideObject::Tree => b't',
        OutsideObject::Disk => b'k',
        OutsideObject::Start => b's',
        OutsideObject::Child => b'c',
        OutsideObject::Out => b'o',
        OutsideObject::Report => b'p',
        OutsideObject::Input => b'i',
    }
}

/// The letter of an answer.
pub(super) fn letter(outcome: &Outcome) -> u8 {
    match outcome {
        Outcome::Done => b'd',
        Outcome::TestsFailed => b'f',
        Outcome::Refused(_) => b'r',
        Outcome::BadWords => b'w',
        Outcome::Child(_) => b'x',
        Outcome::OutsideFault(which) => letter_of_fault(which),
        _ => b'?',
    }
}

/// Runs the program, and gives the letter of its answer.
pub(super) fn run_once<I: Source, T: Tree, D: Disk, P: Procs, O: Sink, R: Reports>(
    alloc: Global,
    words: &TextList,
    input: &mut I,
    tree: &mut T,
    disk: &mut D,
    procs: &mut P,
    out: &mut O,
    reports: &mut R,
) -> u8
    requires { P.running procs.old ≡ [] }
    ensures { P.running procs.new ≡ [] }
{
    let outcome = run_vunit(alloc, words, input, tree, disk, procs, out, reports);
    letter(&outcome)
}

/// The letter of the file that a compiler is started for, and `!` for a test.
fn started_letter(request: &Request) -> u8 {
    let input = request.input.bytes();
    match request.results {
        MaybeText::Given(_) => b'!',
        MaybeText::Nothing if input.len() > 15 => input[15],
        MaybeText::Nothing => b'-',
    }
}

/// The letter of an event: of a start, `.` for an end with code 0, `#` for another one, and `?` for a lost child.
fn event_letter(event: &Event) -> u8 {
    match event {
        Event::Started { ticket: _, request } => started_letter(request),
        Event::Ended { ticket: _, exit } => { if exit.code == 0 { b'.' } else { b'#' } }
        Event::Gone { ticket: _ } => b'?',
    }
}

/// The letters of events.
pub(super) fn letters(alloc: Global, events: &[Event]) -> Result<Vec<u8>, NoMemory> {
    let mut letters = Vec::new(alloc);
    for event in events {
        letters.push(event_letter(event))?;
    }
    Ok(letters)
}

/// The value of a digit.
fn digit(byte: u8) -> u64 {
    if byte.is_ascii_digit() {
        (byte - b'0') as u64
    } else {
        0
    }
}

/// The number that the digits of a text are.
pub(super) fn number_in(text: &str) -> u64 {
    let mut number = 0u64;
    for byte in text.as_bytes() {
        if byte.is_ascii_digit() {
            number = number.saturating_mul(10).saturating_add(digit(*byte));
        }
    }
    number
}

/// How many calls of the disk a store is opened with, a letter each: of an empty disk, of one with a live side, and of both to be
/// emptied.
static OPENINGS: &str = "E14 L7 N16 C18";

/// How many calls of the disk each record takes.
const COMMIT: u64 = 4;

/// How many calls of the disk a run makes, by the letter of its opening and the number of its records.
pub(super) fn disk_calls(run: &str) -> u64 {
    let records = number_in(run).saturating_mul(COMMIT);
    for opening in OPENINGS.split(' ') {
        let letter = opening.as_bytes().first().copied().unwrap_or(0);
        if run.as_bytes().contains(&letter) {
            return number_in(opening).saturating_add(records);
        }
    }
    0
}

/// The letters of a run's events, and that of its answer.
fn told_over<T: Tree, D: Disk, O: Sink>(
    rt: &impl Abort,
    alloc: Global,
    words: &TextList,
    tree: &mut T,
    disk: &mut D,
    out: &mut O,
) -> Result<Vec<u8>, NoMemory> {
    let mut procs = LoopProcs::new(alloc, Positions::new(alloc), Numbers::new(alloc));
    let mut input = MemSource::new(Text::new(alloc), Numbers::new(alloc));
    let mut reports = MemReports::new(alloc, Numbers::new(alloc));
    assert!(rt; procs.running_tickets().is_empty());
    let answer = run_once(
        alloc,
        words,
        &mut input,
        tree,
        disk,
        &mut procs,
        out,
        &mut reports,
    );
    let mut told = letters(alloc, procs.journal().as_slice())?;
    told.push(answer)?;
    Ok(told)
}

/// The same with an output of its own.
fn told_in<D: Disk>(
    rt: &impl Abort,
    alloc: Global,
    tree: &mut MemTree,
    disk: &mut D,
    text: &str,
) -> Result<Vec<u8>, NoMemory> {
    let words = words_of(alloc, text)?;
    let mut out = MemSink::new(alloc, Numbers::new(alloc));
    told_over(rt, alloc, &words, tree, disk, &mut out)
}

/// The same of a run with these words over the project of a stage.
pub(super) fn told_on<D: Disk>(
    rt: &impl Abort,
    alloc: Global,
    disk: &mut D,
    stage: u8,
    text: &str,
) -> Result<Vec<u8>, NoMemory> {
    let mut tree = project(rt, alloc, stage, Numbers::new(alloc))?;
    told_in(rt, alloc, &mut tree, disk, text)
}
