//! Plain runs over lines: the next run is started while it may be, and else an end is taken.

use crate::lines::{BENCH, CASES, CODE, LIBRARY, MODE, OUTPUT, RESULTS, output_of, part};
use crate::objects::Told;
use crate::way::Way;
use base::NoMemory;
use run_spec::RunFault;
use std::alloc::Global;
use tests_build::picks::take_child;

/// What has happened.
#[derive(Drop)]
pub(super) struct Plain {
    /// As what runs tell.
    pub events: Vec<u8>,
    pub running: Vec<u8>,
    /// The runs that ended with an exit.
    pub ended: Vec<u8>,
    pub next: u8,
    pub halted: bool,
    pub fault: Option<RunFault>,
    pub calls: u32,
    pub waits: u32,
}

fn new(alloc: Global) -> Plain {
    Plain {
        events: Vec::new(alloc),
        running: Vec::new(alloc),
        ended: Vec::new(alloc),
        next: 0,
        halted: false,
        fault: None,
        calls: 0,
        waits: 0,
    }
}

fn line_at(lines: &str, at: u8) -> &str {
    match lines.lines().skip(at as usize).next() {
        Some(line) => line,
        None => "",
    }
}

/// Whether one of the parts between two statuses is this one.
fn has_part(words: &str, status: char, wanted: &str) -> bool {
    for part in words.split(status) {
        if part == wanted {
            return true;
        }
    }
    false
}

/// Whether a case is the one that results start last.
fn is_last_start(cases: &str, results: &str, case: &str) -> bool {
    let mut is_last = false;
    for line in results.split('~') {
        if let Some(name) = line.strip_prefix("test_start:") {
            if has_part(cases, ';', name) {
                is_last = name == case;
            }
        }
    }
    is_last
}

fn starts(results: &str, case: &str) -> bool {
    for line in results.split('~') {
        if line.strip_prefix("test_start:") == Some(case) {
            return true;
        }
    }
    false
}

/// The word of a case whose run has ended.
fn verdict(line: &str, case: &str) -> &'static str {
    let results = part(line, RESULTS);
    if results == "-" {
        return "fail ";
    }
    let ends_well = part(line, CODE) == "0" && has_part(results, '~', "test_suite_done");
    if part(line, MODE) == "w" {
        return if ends_well { "pass " } else { "fail " };
    }
    if !starts(results, case) {
        return "skip ";
    }
    if ends_well || !is_last_start(part(line, CASES), results, case) {
        "pass "
    } else {
        "fail "
    }
}

/// The cases of a line, with `;` between two.
fn cases_of(line: &str) -> &str {
    if part(line, MODE) == "w" {
        "all"
    } else {
        part(line, CASES)
    }
}

fn passes(line: &str) -> bool {
    for case in cases_of(line).split(';') {
        if verdict(line, case) != "pass " {
            return false;
        }
    }
    true
}

fn note(plain: &mut Plain, kind: u8, at: u8) -> Result<(), NoMemory> {
    plain.events.push(kind)?;
    plain.events.push(at.wrapping_add(b'0'))?;
    Ok(())
}

fn fail(plain: &mut Plain, fault: RunFault) {
    plain.halted = true;
    if plain.fault.is_none() {
        plain.fault = Some(fault);
    }
}

/// Whether the call that comes now fails.
fn call_fails(plain: &mut Plain, way: &Way) -> bool {
    let call = plain.calls;
    plain.calls = call.wrapping_add(1);
    way.failing[0] == call || way.failing[1] == call
}

fn start(plain: &mut Plain, way: &Way) -> Result<(), NoMemory> {
    if call_fails(plain, way) {
        fail(plain, RunFault::StartFailed);
        return Ok(());
    }
    let at = plain.next;
    plain.next = at.wrapping_add(1);
    plain.running.push(at)?;
    note(plain, b'+', at)
}

fn end(plain: &mut Plain, lines: &str, way: &Way, at: u8) -> Result<(), NoMemory> {
    if call_fails(plain, way) {
        fail(plain, RunFault::ChildLost);
        return note(plain, b'?', at);
    }
    let line = line_at(lines, at);
    if way.fail_fast && !passes(line) {
        plain.halted = true;
    }
    plain.ended.push(at)?;
    note(plain, if part(line, CODE) == "0" { b'-' } else { b'!' }, at)
}

/// Takes the child that the next wait takes; nothing where none runs.
fn take(plain: &mut Plain, way: &Way) -> Option<u8> {
    let taken = take_child(&mut plain.running, way.picks, plain.waits)?;
    plain.waits = plain.waits.wrapping_add(1);
    Some(taken)
}

/// One event, or nothing where the runs have ended.
fn step(plain: &mut Plain, lines: &str, count: usize, way: &Way) -> Result<bool, NoMemory> {
    let may_start = !plain.halted && plain.running.len() < way.limit as usize;
    if may_start && (plain.next as usize) < count {
        start(plain, way)?;
        return Ok(true);
    }
    match take(plain, way) {
        Some(at) => {
            end(plain, lines, way, at)?;
            Ok(true)
        }
        None => Ok(false),
    }
}

/// The runs of lines, as plain ones.
pub(super) fn plain_runs(alloc: Global, lines: &str, way: &Way) -> Result<Plain, NoMemory> {
    let mut plain = new(alloc);
    let count = lines.lines().count();
    for _ in 0..200 {
        if !step(&mut plain, lines, count, way)? {
            break;
        }
    }
    Ok(plain)
}

fn put_case(out: &mut Vec<u8>, line: &str, word: &str, case: &str) -> Result<(), NoMemory> {
    for part in [
        word,
        part(line, LIBRARY),
        ".",
        part(line, BENCH),
        ".",
        case,
        "\n",
    ] {
        out.extend_from_slice(part.as_bytes())?;
    }
    Ok(())
}

fn put_run(out: &mut Vec<u8>, alloc: Global, line: &str, ended: bool) -> Result<(), NoMemory> {
    if ended {
        out.extend_from_slice(output_of(alloc, part(line, OUTPUT), 4_096)?.as_slice())?;
    }
    for case in cases_of(line).split(';') {
        let word = if ended { verdict(line, case) } else { "skip " };
        put_case(out, line, word, case)?;
    }
    Ok(())
}

/// What plain runs tell of each run.
fn plain_text(alloc: Global, lines: &str, plain: &Plain) -> Result<Vec<u8>, NoMemory> {
    let mut out = Vec::new(alloc);
    let mut at = 0u8;
    for line in lines.lines() {
        put_run(&mut out, alloc, line, plain.ended.as_slice().contains(&at))?;
        at = at.wrapping_add(1);
    }
    Ok(out)
}

/// Whether runs told what plain ones do.
pub(super) fn agree(
    alloc: Global,
    told: &Told,
    plain: &Plain,
    lines: &str,
) -> Result<bool, NoMemory> {
    if !told.idle || told.events.as_slice() != plain.events.as_slice() {
        return Ok(false);
    }
    if plain.fault.is_some() {
        return Ok(told.fault == plain.fault);
    }
    let text = plain_text(alloc, lines, plain)?;
    Ok(told.fault.is_none() && told.text.as_slice() == text.as_slice())
}
