//! Two runs with the same words over the same objects, whose children answer as those of the program do: a project of one
//! bench with two cases, and one without files.

ghost use Rattle.std.specs.Prelude.{◌≡◌, []};

use crate::parts::{run_once, words_of};
use base::{Items, NamedText, NamedTextList, NoMemory, Numbers, Positions, Text, TextList};
use memory_children::LoopProcs;
use memory_outside::{MemDisk, MemReports, MemSink, MemSource, MemTree, have_paths};
use outside::{Disk, Procs, Reports, Sink, Tree};
use std::alloc::Global;
use std::process::Abort;
use std::test::Fail;

/// One row per line, with `|` between its parts: the lines of `vunit.csv`, the beginning of `t.vhd`, the arguments, the wanted result
/// and the report in `out.xml`. The first line of the result has the letter of the first run's outcome and the number of events that
/// it added to the journal, and the same of the second run. The output of both runs follows. `~` stands for a line feed.
static ROWS: &str = "\
|||d0d0~Re-compile not needed~No tests were run!~Re-compile not needed~No tests were run!~|
lib,t.vhd~|||d6d4~Compiling into lib: t.vhd passed~Compile passed~pass lib.t.one~pass lib.t.two~==== Summary~pass 2 of 2~fail 0 of 2~skip 0 of 2~All passed!~Re-compile not needed~pass lib.t.one~pass lib.t.two~==== Summary~pass 2 of 2~fail 0 of 2~skip 0 of 2~All passed!~|
lib,t.vhd~|-- child: fail lib.t.two~||f6f4~Compiling into lib: t.vhd passed~Compile passed~pass lib.t.one~failed lib.t.two~fail lib.t.two~==== Summary~pass 1 of 2~fail 1 of 2~skip 0 of 2~Some failed!~Re-compile not needed~pass lib.t.one~failed lib.t.two~fail lib.t.two~==== Summary~pass 1 of 2~fail 1 of 2~skip 0 of 2~Some failed!~|
lib,t.vhd~|-- child: fail lib.t.two~|-x out.xml|f6f4~Compiling into lib: t.vhd passed~Compile passed~pass lib.t.one~failed lib.t.two~fail lib.t.two~==== Summary~pass 1 of 2~fail 1 of 2~skip 0 of 2~Some failed!~Re-compile not needed~pass lib.t.one~failed lib.t.two~fail lib.t.two~==== Summary~pass 1 of 2~fail 1 of 2~skip 0 of 2~Some failed!~|<?xml version=\"1.0\" encoding=\"utf-8\"?>~<testsuite name=\"testsuite\" tests=\"2\" failures=\"1\" skipped=\"0\" errors=\"0\">~  <testcase classname=\"lib.t\" name=\"one\"/>~  <testcase classname=\"lib.t\" name=\"two\">~    <failure message=\"Failed\"/>~  </testcase>~</testsuite>~
lib,t.vhd~|-- child: refuse bad~||r2r2~Compiling into lib: t.vhd failed~bad~Compile failed~Compiling into lib: t.vhd failed~bad~Compile failed~|
lib,t.vhd~|-- child: refuse bad~|-x out.xml|r2r2~Compiling into lib: t.vhd failed~bad~Compile failed~Compiling into lib: t.vhd failed~bad~Compile failed~|";

/// A bench with two cases.
static BENCH: &str =
    "entity t is generic (runner_cfg : string); end;~architecture a of t is begin~x <= run(\"one\");~y <= run(\"two\");~end;~";

/// The byte that a byte of a row stands for.
fn meant(byte: u8) -> u8 {
    if byte == b'~' { b'\n' } else { byte }
}

fn push_lines(lines: &mut Vec<u8>, text: &str) -> Result<(), NoMemory> {
    for byte in text.as_bytes() {
        lines.push(meant(*byte))?;
    }
    Ok(())
}

/// Whether a part of a row stands for these bytes.
fn are_lines(bytes: &[u8], text: &str) -> bool {
    let text = text.as_bytes();
    if bytes.len() != text.len() {
        return false;
    }
    for at in 0..bytes.len() {
        if bytes[at] != meant(text[at]) {
            return false;
        }
    }
    true
}

/// A part of a row.
fn part(row: &str, at: usize) -> &str {
    row.split('|').nth(at).unwrap_or("")
}

/// A file of these two texts.
fn add_file(
    alloc: Global,
    files: &mut NamedTextList,
    path: &str,
    first: &str,
    second: &str,
) -> Result<(), NoMemory> {
    let mut bytes = Vec::new(alloc);
    push_lines(&mut bytes, first)?;
    push_lines(&mut bytes, second)?;
    files.push(NamedText {
        path: Text::from_slice(alloc, path.as_bytes())?,
        bytes: Text::from_vec(bytes),
    })
}

fn project(rt: &impl Abort, alloc: Global, row: &str) -> Result<MemTree, NoMemory> {
    let mut files: NamedTextList = Items::new(alloc);
    add_file(alloc, &mut files, "vunit.csv", part(row, 0), "")?;
    add_file(alloc, &mut files, "t.vhd", part(row, 1), BENCH)?;
    assert!(rt; have_paths(&files));
    Ok(MemTree::new(alloc, files, Numbers::new(alloc)))
}

/// The last digit of a number.
fn digit(number: u64) -> u8 {
    b'0' + (number % 10) as u8
}

/// Two runs: their answers and events.
fn over_children<T: Tree, D: Disk, O: Sink, R: Reports>(
    rt: &impl Abort,
    alloc: Global,
    words: &TextList,
    tree: &mut T,
    disk: &mut D,
    out: &mut O,
    reports: &mut R,
) -> [u8; 5] {
    let mut procs = LoopProcs::new(alloc, Positions::new(alloc), Numbers::new(alloc));
    let mut input = MemSource::new(Text::new(alloc), Numbers::new(alloc));
    assert!(rt; procs.running_tickets().is_empty());
    let first = run_once(
        alloc, words, &mut input, tree, disk, &mut procs, out, reports,
    );
    let events = procs.journal().len();
    let second = run_once(
        alloc, words, &mut input, tree, disk, &mut procs, out, reports,
    );
    let more = procs.journal().len().saturating_sub(events);
    [first, digit(events), second, digit(more), b'\n']
}

/// The result of two runs: their outcomes and events, and then their output.
fn over_disk<T: Tree, D: Disk, R: Reports>(
    rt: &impl Abort,
    alloc: Global,
    words: &TextList,
    tree: &mut T,
    disk: &mut D,
    reports: &mut R,
) -> Result<Vec<u8>, NoMemory> {
    let mut out = MemSink::new(alloc, Numbers::new(alloc));
    let answers = over_children(rt, alloc, words, tree, disk, &mut out, reports);
    let mut said = Vec::from_slice(alloc, &answers)?;
    said.extend_from_slice(out.bytes())?;
    Ok(said)
}

fn over_tree<T: Tree, R: Reports>(
    rt: &impl Abort,
    alloc: Global,
    words: &TextList,
    tree: &mut T,
    reports: &mut R,
) -> Result<Vec<u8>, NoMemory> {
    let mut disk = MemDisk::new(alloc, Numbers::new(alloc));
    over_disk(rt, alloc, words, tree, &mut disk, reports)
}

fn over_project<R: Reports>(
    rt: &impl Abort,
    alloc: Global,
    row: &str,
    words: &TextList,
    reports: &mut R,
) -> Result<Vec<u8>, NoMemory> {
    let mut tree = project(rt, alloc, row)?;
    over_tree(rt, alloc, words, &mut tree, reports)
}

/// Whether two runs have the result that a row wants.
fn is_said<R: Reports>(
    rt: &impl Abort,
    alloc: Global,
    row: &str,
    reports: &mut R,
) -> Result<bool, NoMemory> {
    let words = words_of(alloc, part(row, 2))?;
    let said = over_project(rt, alloc, row, &words, reports)?;
    Ok(are_lines(said.as_slice(), part(row, 3)))
}

/// Whether `out.xml` has the report of a row. If the row has no report, the file is absent or empty.
fn is_written(alloc: Global, row: &str, reports: &MemReports) -> Result<bool, NoMemory> {
    let path = Text::from_slice(alloc, b"out.xml")?;
    Ok(are_lines(reports.file(&path).unwrap_or(&[]), part(row, 4)))
}

fn passes(rt: &impl Abort, alloc: Global, row: &str) -> Result<bool, NoMemory> {
    let mut reports = MemReports::new(alloc, Numbers::new(alloc));
    let said = is_said(rt, alloc, row, &mut reports)?;
    let written = is_written(alloc, row, &reports)?;
    Ok(said && written)
}

#[test]
fn benches_are_built_once_and_run_twice(rt: HostRuntime) -> Result<(), Fail> {
    for row in ROWS.lines() {
        let passed = passes(&rt, rt.alloc(), row)?;
        assert!(rt; passed);
    }
    Ok(())
}
