//! Generated projects over children in memory: their outcome, the number of ended children, and their output.

use crate::coded::CodedProcs;
use base::{NoMemory, Numbers};
use base_outcomes::Outcome;
use generated_runs::{GenerateOptions, GeneratedSaid, run_generated};
use run_spec::RunFault;
use std::alloc::Global;
use std::process::Abort;
use std::test::Fail;

/// One row per line, with a blank between its parts:
///
/// - the number of packages, and the number of slots;
/// - `x` if the outcome ignores failed tests, else `-`;
/// - the end that has the code 1, and the call of the children that fails, both counted from 0, each with `-` for none;
/// - the letter of the outcome or fault, and how many children ended;
/// - the output, where `~` stands for a line feed, or `-` after a fault.
static ROWS: &str = "\
1 1 - - - d 6 files 2~first build compiled 2~second build compiled 2~tests passed 2 of 2~
2 1 - - - d 6 files 3~first build compiled 3~second build compiled 1~tests passed 2 of 2~
3 64 - - - d 7 files 4~first build compiled 4~second build compiled 1~tests passed 2 of 2~
10 4 - - - d 19 files 11~first build compiled 11~second build compiled 6~tests passed 2 of 2~
127 64 x - - d 193 files 128~first build compiled 128~second build compiled 63~tests passed 2 of 2~
0 1 - - - r 0 vunit_run: nothing matches src/*.vhd~
1 1 - 0 - r 1 Compiling into lib: src/f1.vhd failed~unit package p1~Compile failed~
1 1 x 0 - r 1 Compiling into lib: src/f1.vhd failed~unit package p1~Compile failed~
1 1 - 1 - r 2 Compiling into lib: src/f1.vhd passed~Compiling into lib: tb.vhd failed~unit entity tb~unit architecture a of tb~Compile failed~
1 1 - 2 - r 3 Compiling into lib: src/f1.vhd failed~unit package p1~script note 1~Compile failed~
1 1 - 3 - r 4 Compiling into lib: src/f1.vhd passed~Compiling into lib: tb.vhd failed~unit entity tb~unit architecture a of tb~Compile failed~
1 1 - 4 - f 6 files 2~first build compiled 2~second build compiled 2~tests passed 1 of 2~
1 1 x 4 - d 6 files 2~first build compiled 2~second build compiled 2~tests passed 1 of 2~
1 2 - 5 - f 6 files 2~first build compiled 2~second build compiled 2~tests passed 1 of 2~
1 1 - - 0 s 0 -
1 1 - - 1 c 0 -
1 1 - - 2 s 1 -
1 1 - - 3 c 1 -
1 1 - - 4 s 2 -
1 1 - - 5 c 2 -
1 1 - - 6 s 3 -
1 1 - - 7 c 3 -
1 1 - - 8 s 4 -
1 1 - - 9 c 4 -
1 1 - - 10 s 5 -
1 1 - - 11 c 5 -";

/// The number in a part of a row, or the largest.
fn number(part: &str) -> u64 {
    part.parse().unwrap_or(u64::MAX)
}

/// A part of a row.
fn part(row: &str, at: usize) -> &str {
    row.splitn(8, ' ').nth(at).unwrap_or("")
}

/// Whether a part of a row stands for these bytes.
fn are_lines(bytes: &[u8], text: &str) -> bool {
    let text = text.as_bytes();
    if bytes.len() != text.len() {
        return false;
    }
    for at in 0..bytes.len() {
        let meant = if text[at] == b'~' { b'\n' } else { text[at] };
        if bytes[at] != meant {
            return false;
        }
    }
    true
}

/// The letter of an answer.
fn letter(outcome: &Outcome) -> &'static str {
    match outcome {
        Outcome::Done => "d",
        Outcome::TestsFailed => "f",
        Outcome::Refused(_) => "r",
        _ => "?",
    }
}

/// The letter of a fault.
fn fault_letter(fault: &RunFault) -> &'static str {
    match fault {
        RunFault::StartFailed => "s",
        RunFault::ChildLost => "c",
        _ => "?",
    }
}

/// Whether a row has this answer and this text.
fn is_said(said: &Result<GeneratedSaid, RunFault>, row: &str) -> bool {
    match said {
        Ok(said) => {
            letter(&said.outcome) == part(row, 5) && are_lines(said.text.bytes(), part(row, 7))
        }
        Err(fault) => fault_letter(fault) == part(row, 5),
    }
}

/// Generates, builds and tests a project over these children.
fn said_over(
    rt: &impl Abort,
    alloc: Global,
    row: &str,
    procs: &mut CodedProcs,
) -> Result<GeneratedSaid, RunFault> {
    let slots = number(part(row, 1));
    let packages = number(part(row, 0));
    assert!(rt; slots >= 1);
    assert!(rt; slots <= 64);
    assert!(rt; packages <= 4_095);
    assert!(rt; procs.running_tickets().is_empty());
    let options = GenerateOptions {
        packages: packages as u32,
        slots: slots as u32,
        exit_0: part(row, 2) == "x",
    };
    run_generated(alloc, options, procs)
}

/// The calls that fail.
fn failing(alloc: Global, row: &str) -> Result<Numbers, NoMemory> {
    let mut failing = Numbers::new(alloc);
    failing.push(number(part(row, 4)))?;
    Ok(failing)
}

fn is_right(rt: &impl Abort, alloc: Global, row: &str) -> Result<bool, NoMemory> {
    let mut procs = CodedProcs::new(alloc, number(part(row, 3)), failing(alloc, row)?);
    let said = said_over(rt, alloc, row, &mut procs);
    Ok(is_said(&said, row) && procs.ended_count() == number(part(row, 6)))
}

#[test]
fn rows_are_said(rt: HostRuntime) -> Result<(), Fail> {
    for row in ROWS.lines() {
        assert!(rt; is_right(&rt, rt.alloc(), row)?);
    }
    Ok(())
}
