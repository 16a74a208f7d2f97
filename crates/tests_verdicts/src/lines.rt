//! Runs as lines of a text, one run per line, with `|` between its parts; and the request to the child of each.
//!
//! - The run: the library, the bench, the architecture, the cases with `;` between two, the mode and the path of its file.
//!   The mode is `w` for a bench that names no case itself, and `s` if all cases run in one simulation.
//! - The wanted request: the name of the folder, and the values of `enabled_test_cases` and `tb path`.
//! - The exit: the code, the output and the results, or `-` without results. The output `*9` stands for nine letters. In
//!   output and results `~` stands for a line feed.

use base::{Exit, MaybeText, NoMemory, Request, Text, TextList};
use memory_outside::{Answer, AnswerList};
use std::alloc::Global;
use std::test::Fail;
use testbench_runs::{TestRun, TestRunList};

pub(super) const LIBRARY: usize = 0;

pub(super) const BENCH: usize = 1;

const ARCHITECTURE: usize = 2;

pub(super) const CASES: usize = 3;

pub(super) const MODE: usize = 4;

const PATH: usize = 5;

const FOLDER: usize = 6;

const ENABLED: usize = 7;

const BENCH_FOLDER: usize = 8;

pub(super) const CODE: usize = 9;

pub(super) const OUTPUT: usize = 10;

pub(super) const RESULTS: usize = 11;

/// The two files of the project in compile order, in the encoding of a child's request.
static FILES: &[u8] = b"\x02\0\0\0\
\x03\0\0\0lib\x05\0\0\0p.vhd\x02\0\0\0yz\
\x03\0\0\0lib\x06\0\0\0tb.vhd\x01\0\0\0v";

/// A part of a line.
pub(super) fn part(line: &str, number: usize) -> &str {
    match line.split('|').skip(number).next() {
        Some(part) => part,
        None => "",
    }
}

fn text(alloc: Global, words: &str) -> Result<Text, NoMemory> {
    Text::from_slice(alloc, words.as_bytes())
}

fn cases_of(alloc: Global, names: &str) -> Result<TextList, NoMemory> {
    let mut cases = TextList::new(alloc);
    if names.is_empty() {
        return Ok(cases);
    }
    for name in names.split(';') {
        cases.push(text(alloc, name)?)?;
    }
    Ok(cases)
}

fn run_of(alloc: Global, line: &str) -> Result<TestRun, NoMemory> {
    Ok(TestRun {
        library: text(alloc, part(line, LIBRARY))?,
        bench: text(alloc, part(line, BENCH))?,
        architecture: text(alloc, part(line, ARCHITECTURE))?,
        cases: cases_of(alloc, part(line, CASES))?,
        whole: part(line, MODE) == "w",
        same_sim: part(line, MODE) == "s",
        path: text(alloc, part(line, PATH))?,
    })
}

/// The runs of lines.
pub(super) fn runs_of(alloc: Global, lines: &str) -> Result<TestRunList, NoMemory> {
    let mut runs = TestRunList::new(alloc);
    for line in lines.lines() {
        runs.push(run_of(alloc, line)?)?;
    }
    Ok(runs)
}

/// Adds a number as four bytes, the low one first; the numbers of the tests are short.
fn put_number(out: &mut Vec<u8>, number: usize) -> Result<(), NoMemory> {
    out.push((number % 256) as u8)?;
    out.push((number / 256 % 256) as u8)?;
    out.extend_from_slice(&[0, 0])?;
    Ok(())
}

/// Adds a text after its length.
fn put(out: &mut Vec<u8>, text: &[u8]) -> Result<(), NoMemory> {
    put_number(out, text.len())?;
    out.extend_from_slice(text)?;
    Ok(())
}

fn put_cases(out: &mut Vec<u8>, names: &str) -> Result<(), NoMemory> {
    if names.is_empty() {
        return put_number(out, 0);
    }
    put_number(out, names.split(';').count())?;
    for name in names.split(';') {
        put(out, name.as_bytes())?;
    }
    Ok(())
}

fn joined(alloc: Global, parts: &[&str]) -> Result<Vec<u8>, NoMemory> {
    let mut out = Vec::new(alloc);
    for part in parts {
        out.extend_from_slice(part.as_bytes())?;
    }
    Ok(out)
}

/// The configuration of a line.
fn configuration(alloc: Global, line: &str) -> Result<Vec<u8>, NoMemory> {
    joined(
        alloc,
        &[
            "active python runner : true,enabled_test_cases : ",
            part(line, ENABLED),
            ",output path : vunit_out/tests/",
            part(line, FOLDER),
            "/,tb path : ",
            part(line, BENCH_FOLDER),
            ",use_color : false",
        ],
    )
}

/// The path of the results of a line.
fn results_path(alloc: Global, line: &str) -> Result<Vec<u8>, NoMemory> {
    joined(
        alloc,
        &["vunit_out/tests/", part(line, FOLDER), "/vunit_results"],
    )
}

fn put_names(out: &mut Vec<u8>, line: &str) -> Result<(), NoMemory> {
    out.extend_from_slice(b"VRB1")?;
    put(out, part(line, LIBRARY).as_bytes())?;
    put(out, part(line, BENCH).as_bytes())?;
    put(out, part(line, ARCHITECTURE).as_bytes())?;
    put_cases(out, part(line, CASES))
}

/// The input of the child of a line.
fn input_of(alloc: Global, line: &str) -> Result<Text, NoMemory> {
    let mut out = Vec::new(alloc);
    put_names(&mut out, line)?;
    put(&mut out, configuration(alloc, line)?.as_slice())?;
    put(&mut out, results_path(alloc, line)?.as_slice())?;
    out.extend_from_slice(FILES)?;
    Ok(Text::from_vec(out))
}

/// The inputs of the children of lines, in order.
pub(super) fn inputs_of(alloc: Global, lines: &str) -> Result<TextList, NoMemory> {
    let mut inputs = TextList::new(alloc);
    for line in lines.lines() {
        inputs.push(input_of(alloc, line)?)?;
    }
    Ok(inputs)
}

/// The words of the simulator.
pub(super) fn simulator(alloc: Global) -> Result<TextList, NoMemory> {
    let mut words = TextList::new(alloc);
    words.push(text(alloc, "sim")?)?;
    words.push(text(alloc, "-q")?)?;
    Ok(words)
}

fn request_of(alloc: Global, line: &str) -> Result<Request, NoMemory> {
    Ok(Request {
        command: simulator(alloc)?,
        input: input_of(alloc, line)?,
        results: MaybeText::Given(Text::from_vec(results_path(alloc, line)?)),
    })
}

/// The bytes of an output or of results, with a line feed for each `~`.
pub(super) fn unfolded(alloc: Global, words: &str) -> Result<Vec<u8>, NoMemory> {
    let mut out = Vec::new(alloc);
    for byte in words.bytes() {
        out.push(if byte == b'~' { b'\n' } else { byte })?;
    }
    Ok(out)
}

/// The bytes of an output. An output of `*` and a number has at most `most` bytes.
pub(super) fn output_of(alloc: Global, words: &str, most: u32) -> Result<Vec<u8>, NoMemory> {
    let Some(count) = words.strip_prefix('*') else {
        return unfolded(alloc, words);
    };
    let mut out = Vec::new(alloc);
    for _ in 0..count.parse::<u32>().unwrap_or(0).min(most) {
        out.push(b'x')?;
    }
    Ok(out)
}

fn results_of(alloc: Global, words: &str) -> Result<MaybeText, NoMemory> {
    if words == "-" {
        return Ok(MaybeText::Nothing);
    }
    Ok(MaybeText::Given(Text::from_vec(unfolded(alloc, words)?)))
}

fn exit_of(alloc: Global, line: &str) -> Result<Exit, NoMemory> {
    Ok(Exit {
        code: part(line, CODE).parse::<u32>().unwrap_or(126),
        output: Text::from_vec(output_of(alloc, part(line, OUTPUT), 1_000_000)?),
        results: results_of(alloc, part(line, RESULTS))?,
    })
}

/// The answers of the children of lines: each request with its exit.
pub(super) fn answers_of(alloc: Global, lines: &str) -> Result<AnswerList, NoMemory> {
    let mut answers = AnswerList::new(alloc);
    for line in lines.lines() {
        answers.push(Answer {
            request: request_of(alloc, line)?,
            exit: exit_of(alloc, line)?,
        })?;
    }
    Ok(answers)
}
