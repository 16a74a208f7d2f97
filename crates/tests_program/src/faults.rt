//! Each call of each object fails in turn, in each mode of the program. What fails is the first run over an empty disk; a
//! second run over the same objects then does the rest.

use crate::parts::{
    disk_calls, letters, number_in, part, project, push_meant, run_once, told_on, words_of,
};
use crate::records::{files_of, stale_on};
use base::{NoMemory, Numbers, Positions, Text, TextList};
use memory_children::LoopProcs;
use memory_outside::{MemDisk, MemReports, MemSink, MemSource, MemTree};
use outside::{Reports, Source, Tree};
use std::alloc::Global;
use std::process::Abort;
use std::test::Fail;

/// One row per line, with `|` between its parts:
///
/// - the arguments;
/// - what runs do (`c` compiles, `n` compiles all anew, `t` runs the two tests), and the stage of an earlier build, if there was one;
/// - the letter of their outcome;
/// - how many calls of the tree, the disk, the output, the reports and the input they make, each after the letter of the object;
/// - the letters of the texts that they print;
/// - the starts and waits, in order;
/// - the report that is there in the end, if any.
///
/// The calls of the tree read the project file, the listing and six files. For the disk, a letter of `OPENINGS` tells how it is
/// opened, and a digit how many records are committed. With three slots p, t and the bench start first, and each end of one of
/// them lets a user of p start.
static ROWS: &str = "\
--compile|c|d|t8 kE6 o1|C|swswswswswsw
--compile|c1|d|t8 kL5 o1|E|swswswswsw
--compile|c3|d|t8 kL1 o1|P|sw
--compile -p 3|c|d|t8 kE6 o1|C|ssswswswswww
--compile -p 3|c1|d|t8 kL5 o1|E|sswsswswww
--compile -k|c|d|t8 kE6 o1|C|swswswswswsw
--compile --clean|n|d|t8 kN6 o1|C|swswswswswsw
--compile --clean|n1|d|t8 kC6 o1|C|swswswswswsw
-p 1|ct|d|t8 kE6 o1|CT|swswswswswswswsw
-p 1|ct1|d|t8 kL5 o1|ET|swswswswswswsw
-p 3|ct3|d|t8 kL1 o1|PT|swssww
-p 3 -k|ct|d|t8 kE6 o1|CT|ssswswswswwwssww
-x out.xml|ct|d|t8 kE6 o1 p1|CT|swswswswswswswsw|out.xml
-p 3 -x out.xml|ct1|d|t8 kL5 o1 p1|ET|sswsswswwwssww|out.xml
--clean -p 3|nt|d|t8 kN6 o1|CT|ssswswswswwwssww
--clean --fail-fast -q|nt1|d|t8 kC6 o1|CT|swswswswswswswsw
--clean --fail-fast -q|nt3|d|t8 kC6 o1|CT|swswswswswswswsw
-l||d|t8 o1|L|
-f||d|t8 o1|F|
--export-json out.json||d|t8 p1|||out.json
--frob||w|o1|U|
child-analyse||x|i1 o1|B|
child-bench||x|i1 o1|B|";

/// The letter of a text, or the path of a report, and the text. `~` is a line feed.
static TEXTS: &str = "\
C|Compiling into lib: p.vhd passed~Compiling into lib: q.vhd passed~Compiling into lib: r.vhd passed~Compiling into lib: s.vhd passed~Compiling into lib: t.vhd passed~Compiling into lib: b.vhd passed~Compile passed~
E|Compiling into lib: p.vhd passed~Compiling into lib: q.vhd passed~Compiling into lib: r.vhd passed~Compiling into lib: s.vhd passed~Compiling into lib: b.vhd passed~Compile passed~
P|Compiling into lib: p.vhd passed~Compile passed~
T|pass lib.b.one~pass lib.b.two~==== Summary~pass 2 of 2~fail 0 of 2~skip 0 of 2~All passed!~
L|lib.b.one~lib.b.two~Listed 2 tests~
F|lib, p.vhd~lib, q.vhd~lib, r.vhd~lib, s.vhd~lib, t.vhd~lib, b.vhd~Listed 6 files~
U|usage: vunit_run [-lfkmvq] [--compile] [--fail-fast] [--clean] [--exit-0] [-x FILE] [-p N] [--export-json FILE] [--generate N] [PATTERN ...]~
B|bad request~
out.xml|<?xml version=\"1.0\" encoding=\"utf-8\"?>~<testsuite name=\"testsuite\" tests=\"2\" failures=\"0\" skipped=\"0\" errors=\"0\">~  <testcase classname=\"lib.b\" name=\"one\"/>~  <testcase classname=\"lib.b\" name=\"two\"/>~</testsuite>~
out.json|{\"export_format_version\":{\"major\":1,\"minor\":0,\"patch\":0},\"files\":[{\"file_name\":\"p.vhd\",\"library_name\":\"lib\"},{\"file_name\":\"q.vhd\",\"library_name\":\"lib\"},{\"file_name\":\"r.vhd\",\"library_name\":\"lib\"},{\"file_name\":\"s.vhd\",\"library_name\":\"lib\"},{\"file_name\":\"t.vhd\",\"library_name\":\"lib\"},{\"file_name\":\"b.vhd\",\"library_name\":\"lib\"}],\"tests\":[{\"attributes\":{},\"location\":{\"file_name\":\"b.vhd\",\"length\":3,\"offset\":87},\"name\":\"lib.b.one\"},{\"attributes\":{},\"location\":{\"file_name\":\"b.vhd\",\"length\":3,\"offset\":104},\"name\":\"lib.b.two\"}]}~";

/// The objects whose calls fail: the tree, the disk, children, the output, the reports and the input.
const OBJECTS: &[u8; 6] = b"tkcopi";

/// A call that fails: its object, by the letter, and its number.
#[derive(Clone, Copy)]
struct Failing {
    object: u8,
    call: u64,
}

/// The calls of an object that fail.
fn of_object(alloc: Global, failing: Failing, object: u8) -> Result<Numbers, NoMemory> {
    let mut calls = Numbers::new(alloc);
    if failing.object == object {
        calls.push(failing.call)?;
    }
    Ok(calls)
}

/// How many calls of an object a row has.
fn calls_of(row: &str, object: u8) -> u64 {
    if object == b'c' {
        return part(row, 5).len() as u64;
    }
    for count in part(row, 3).split(' ') {
        if count.as_bytes().first() == Some(&object) {
            return if object == b'k' {
                disk_calls(count)
            } else {
                number_in(count)
            };
        }
    }
    0
}

/// Whether runs of a row do what a letter says.
fn does(row: &str, what: u8) -> bool {
    part(row, 1).as_bytes().contains(&what)
}

/// The letters of the starts that a run is to make, of which a plain reading finds these files stale.
fn expected_output(alloc: Global, row: &str, stale: &[u8]) -> Result<Vec<u8>, NoMemory> {
    let mut wanted = Vec::new(alloc);
    if does(row, b'c') {
        wanted.extend_from_slice(stale)?;
    }
    if does(row, b'n') {
        wanted.extend_from_slice(files_of(b'2'))?;
    }
    if does(row, b't') {
        wanted.extend_from_slice(b"!!")?;
    }
    Ok(wanted)
}

fn count(letters: &[u8], letter: u8) -> usize {
    letters.iter().filter(|other| **other == letter).count()
}

/// Whether events are just these starts, in any order, and as many ends with code 0.
fn are_starts(told: &[u8], wanted: &[u8]) -> bool {
    for letter in wanted {
        if count(told, *letter) != count(wanted, *letter) {
            return false;
        }
    }
    count(told, b'.') == wanted.len() && told.len() == wanted.len().saturating_mul(2)
}

/// The letter of the fault that is to be answered: of children, that of a failed start, or of a lost child.
fn fault_letter(row: &str, failing: Failing) -> u8 {
    if failing.object != b'c' {
        return failing.object;
    }
    match part(row, 5).as_bytes().get(failing.call as usize) {
        Some(b's') => b's',
        _ => b'c',
    }
}

/// The text that a run of a row puts.
fn text_of(alloc: Global, row: &str) -> Result<Vec<u8>, NoMemory> {
    let mut text = Vec::new(alloc);
    for line in TEXTS.lines() {
        if part(row, 4).contains(part(line, 0)) {
            push_meant(&mut text, part(line, 1), b'@')?;
        }
    }
    Ok(text)
}

/// Whether all that a row says was put.
fn is_whole(alloc: Global, row: &str, put: &[u8]) -> Result<bool, NoMemory> {
    Ok(text_of(alloc, row)?.as_slice() == put)
}

/// Whether what a failed run put is right: nothing, or all where the report failed.
fn is_put(alloc: Global, row: &str, object: u8, put: &[u8]) -> Result<bool, NoMemory> {
    if object == b'p' {
        return is_whole(alloc, row, put);
    }
    Ok(put.is_empty())
}

/// The letters of events without that of the answer, which is the last, and that letter.
fn taken_apart(told: &[u8]) -> (&[u8], u8) {
    match told.split_last() {
        Some((answer, events)) => (events, *answer),
        None => (told, b'-'),
    }
}

/// Whether a run has failed as it should.
fn is_fault(row: &str, failing: Failing, told: &[u8]) -> bool {
    taken_apart(told).1 == fault_letter(row, failing)
}

/// Whether a run after some events is as its row says, and makes these starts.
fn is_right(row: &str, wanted: &[u8], told: &[u8], before: usize) -> bool {
    let (events, answer) = taken_apart(told);
    if before > events.len() {
        return false;
    }
    part(row, 2).as_bytes() == [answer].as_slice() && are_starts(&events[before..], wanted)
}

/// A run over all objects: the letters of all events so far, and then that of its answer.
fn run<I: Source, T: Tree, R: Reports>(
    alloc: Global,
    words: &TextList,
    input: &mut I,
    tree: &mut T,
    disk: &mut MemDisk,
    procs: &mut LoopProcs,
    out: &mut MemSink,
    reports: &mut R,
) -> Result<Vec<u8>, NoMemory> {
    if !procs.running_tickets().is_empty() {
        return Ok(Vec::new(alloc));
    }
    let answer = run_once(alloc, words, input, tree, disk, procs, out, reports);
    let mut told = letters(alloc, procs.journal().as_slice())?;
    told.push(answer)?;
    Ok(told)
}

/// Whether a run after some events compiles exactly what a plain reading of the disk finds stale.
fn goes_on<I: Source, T: Tree, R: Reports>(
    alloc: Global,
    words: &TextList,
    row: &str,
    before: usize,
    input: &mut I,
    tree: &mut T,
    disk: &mut MemDisk,
    procs: &mut LoopProcs,
    out: &mut MemSink,
    reports: &mut R,
) -> Result<bool, NoMemory> {
    let stale = stale_on(alloc, disk, b'2')?;
    let wanted = expected_output(alloc, row, stale.as_slice())?;
    let told = run(alloc, words, input, tree, disk, procs, out, reports)?;
    Ok(is_right(row, wanted.as_slice(), told.as_slice(), before))
}

/// Whether a run fails as it should, and one after it goes on; of the call after the last one, whether it does all.
fn fails_over<I: Source, T: Tree, R: Reports>(
    alloc: Global,
    words: &TextList,
    row: &str,
    failing: Failing,
    input: &mut I,
    tree: &mut T,
    disk: &mut MemDisk,
    procs: &mut LoopProcs,
    out: &mut MemSink,
    reports: &mut R,
) -> Result<bool, NoMemory> {
    let told = run(alloc, words, input, tree, disk, procs, out, reports)?;
    if failing.call >= calls_of(row, failing.object) {
        return does_all(alloc, row, told.as_slice(), out.bytes());
    }
    let put = is_put(alloc, row, failing.object, out.bytes())?;
    let before = taken_apart(told.as_slice()).0.len();
    Ok(
        put && is_fault(row, failing, told.as_slice())
            && goes_on(
                alloc, words, row, before, input, tree, disk, procs, out, reports,
            )?,
    )
}

/// The files that a run without a fault compiles, unless all are compiled anew.
fn first_stale(row: &str) -> &'static [u8] {
    if does(row, b'1') {
        b"pqrsb"
    } else if does(row, b'3') {
        b"p"
    } else {
        files_of(b'2')
    }
}

/// Whether a run does all that its row says.
fn does_all(alloc: Global, row: &str, told: &[u8], put: &[u8]) -> Result<bool, NoMemory> {
    let wanted = expected_output(alloc, row, first_stale(row))?;
    Ok(is_right(row, wanted.as_slice(), told, 0) && is_whole(alloc, row, put)?)
}

fn with_input<T: Tree, R: Reports>(
    alloc: Global,
    words: &TextList,
    row: &str,
    failing: Failing,
    tree: &mut T,
    disk: &mut MemDisk,
    procs: &mut LoopProcs,
    out: &mut MemSink,
    reports: &mut R,
) -> Result<bool, NoMemory> {
    let mut input = MemSource::new(Text::new(alloc), of_object(alloc, failing, b'i')?);
    fails_over(
        alloc, words, row, failing, &mut input, tree, disk, procs, out, reports,
    )
}

fn with_output<T: Tree, R: Reports>(
    alloc: Global,
    words: &TextList,
    row: &str,
    failing: Failing,
    tree: &mut T,
    disk: &mut MemDisk,
    procs: &mut LoopProcs,
    reports: &mut R,
) -> Result<bool, NoMemory> {
    let mut out = MemSink::new(alloc, of_object(alloc, failing, b'o')?);
    with_input(
        alloc, words, row, failing, tree, disk, procs, &mut out, reports,
    )
}

fn with_children<T: Tree, R: Reports>(
    alloc: Global,
    words: &TextList,
    row: &str,
    failing: Failing,
    tree: &mut T,
    disk: &mut MemDisk,
    reports: &mut R,
) -> Result<bool, NoMemory> {
    let calls = of_object(alloc, failing, b'c')?;
    let mut procs = LoopProcs::new(alloc, Positions::new(alloc), calls);
    with_output(alloc, words, row, failing, tree, disk, &mut procs, reports)
}

/// How many calls of the disk the build makes that comes before the run of a row.
fn calls_before(row: &str) -> u64 {
    if does(row, b'1') {
        disk_calls("E5")
    } else if does(row, b'3') {
        disk_calls("E6")
    } else {
        0
    }
}

/// The calls of the disk that fail, after those of the build that comes before, if one does.
fn failing_calls(alloc: Global, row: &str, failing: Failing) -> Result<Numbers, NoMemory> {
    let after = Failing {
        object: failing.object,
        call: failing.call.saturating_add(calls_before(row)),
    };
    of_object(alloc, after, b'k')
}

/// Builds the stage that a row asks for.
fn before(rt: &impl Abort, alloc: Global, row: &str, disk: &mut MemDisk) -> Result<(), NoMemory> {
    for stage in [b'1', b'3'] {
        if does(row, stage) {
            told_on(rt, alloc, disk, stage, "--compile")?;
        }
    }
    Ok(())
}

fn with_disk<T: Tree, R: Reports>(
    rt: &impl Abort,
    alloc: Global,
    words: &TextList,
    row: &str,
    failing: Failing,
    tree: &mut T,
    reports: &mut R,
) -> Result<bool, NoMemory> {
    let mut disk = MemDisk::new(alloc, failing_calls(alloc, row, failing)?);
    before(rt, alloc, row, &mut disk)?;
    with_children(alloc, words, row, failing, tree, &mut disk, reports)
}

fn with_tree<R: Reports>(
    rt: &impl Abort,
    alloc: Global,
    words: &TextList,
    row: &str,
    failing: Failing,
    reports: &mut R,
) -> Result<bool, NoMemory> {
    let calls = of_object(alloc, failing, b't')?;
    let mut tree = project(rt, alloc, b'2', calls)?;
    with_disk(rt, alloc, words, row, failing, &mut tree, reports)
}

/// The text of the report that a row has, if any.
fn report_of(alloc: Global, row: &str) -> Result<Vec<u8>, NoMemory> {
    let mut text = Vec::new(alloc);
    for line in TEXTS.lines() {
        if part(line, 0) == part(row, 6) {
            push_meant(&mut text, part(line, 1), b'@')?;
        }
    }
    Ok(text)
}

/// Whether there is the report that a row has.
fn is_reported(alloc: Global, row: &str, reports: &MemReports) -> Result<bool, NoMemory> {
    let path = Text::from_slice(alloc, part(row, 6).as_bytes())?;
    let report = report_of(alloc, row)?;
    Ok(reports.file(&path).unwrap_or(&[]) == report.as_slice())
}

fn with_reports(
    rt: &impl Abort,
    alloc: Global,
    words: &TextList,
    row: &str,
    failing: Failing,
) -> Result<bool, NoMemory> {
    let mut reports = MemReports::new(alloc, of_object(alloc, failing, b'p')?);
    let passed = with_tree(rt, alloc, words, row, failing, &mut reports)?;
    Ok(passed && is_reported(alloc, row, &reports)?)
}

/// Whether each call of an object fails as it should.
fn fails_each(
    rt: &impl Abort,
    alloc: Global,
    words: &TextList,
    row: &str,
    object: u8,
) -> Result<bool, NoMemory> {
    for call in 0..calls_of(row, object).saturating_add(1) {
        if !with_reports(rt, alloc, words, row, Failing { object, call })? {
            return Ok(false);
        }
    }
    Ok(true)
}

fn passes(rt: &impl Abort, alloc: Global, row: &str) -> Result<bool, NoMemory> {
    let words = words_of(alloc, part(row, 0))?;
    for object in OBJECTS {
        if !fails_each(rt, alloc, &words, row, *object)? {
            return Ok(false);
        }
    }
    Ok(true)
}

#[test]
fn each_call_of_a_run_may_fail(rt: HostRuntime) -> Result<(), Fail> {
    for row in ROWS.lines() {
        assert!(rt; passes(&rt, rt.alloc(), row)?, "{row}");
    }
    Ok(())
}
