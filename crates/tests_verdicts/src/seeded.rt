//! Random benches, exits and orders of ends, compared with plain runs that are fed the same ends.

use crate::objects::told_runs;
use crate::plain::{agree, plain_runs};
use crate::way::{Way, way_of};
use base::NoMemory;
use std::alloc::Global;
use std::process::Abort;
use std::str;
use std::test::Fail;
use tests_build::picks::{byte, mixed};

/// How many random projects there are.
const ROWS: u32 = 400;

fn put(out: &mut Vec<u8>, parts: &[&[u8]]) -> Result<(), NoMemory> {
    for part in parts {
        out.extend_from_slice(part)?;
    }
    Ok(())
}

/// The cases of one run. The cases of a bench are `c0`, `c1` and so on; the run has `count` of them, from `first` on.
#[derive(Clone, Copy)]
struct Cases {
    first: u8,
    count: u8,
}

/// Adds the names of the cases, with something between two.
fn put_cases(out: &mut Vec<u8>, cases: Cases, between: &[u8]) -> Result<(), NoMemory> {
    for at in 0..cases.count {
        if at > 0 {
            out.extend_from_slice(between)?;
        }
        let name = [b'c', b'0'.wrapping_add(cases.first.wrapping_add(at))];
        out.extend_from_slice(&name)?;
    }
    Ok(())
}

/// Adds results in which all cases pass.
fn put_passes(out: &mut Vec<u8>, cases: Cases) -> Result<(), NoMemory> {
    for at in 0..cases.count {
        let name = [b'c', b'0'.wrapping_add(cases.first.wrapping_add(at))];
        put(out, &[b"test_start:", &name, b"~"])?;
    }
    out.extend_from_slice(b"test_suite_done~")?;
    Ok(())
}

/// Adds one line of random results.
fn put_line(out: &mut Vec<u8>, kind: u8) -> Result<(), NoMemory> {
    match kind % 8 {
        0 => put(out, &[b"test_suite_done~"]),
        1 => put(out, &[b"noise~"]),
        2 => put(out, &[b"test_start:other~"]),
        3 => put(out, &[b" test_start:c0~"]),
        4 => put(out, &[b"test_start:c0~"]),
        5 => put(out, &[b"test_start:c1~"]),
        6 => put(out, &[b"test_start:c2~"]),
        _ => put(out, &[b"test_suite_done~test_start:c0"]),
    }
}

/// Adds the exit of a run.
fn put_exit(out: &mut Vec<u8>, seed: u32, cases: Cases) -> Result<(), NoMemory> {
    let kind = byte(seed, 1);
    if kind % 4 > 0 {
        out.extend_from_slice(b"0|out~|")?;
        return put_passes(out, cases);
    }
    put(
        out,
        &[if byte(seed, 2) % 2 == 0 { b"0" } else { b"255" }, b"|"],
    )?;
    if kind % 16 == 0 {
        return put(out, &[b"|-"]);
    }
    out.extend_from_slice(b"bad|")?;
    for turn in 0..(byte(seed, 3) % 6) as u32 {
        put_line(out, byte(seed, 4u32.wrapping_add(turn)))?;
    }
    Ok(())
}

/// Adds a run of some cases of a bench.
fn put_run(
    out: &mut Vec<u8>,
    seed: u32,
    bench: u8,
    mode: &[u8],
    cases: Cases,
) -> Result<(), NoMemory> {
    let name = [b'b', b'0'.wrapping_add(bench % 10)];
    put(out, &[b"lib|", &name, b"|rtl|"])?;
    put_cases(out, cases, b";")?;
    put(out, &[b"|", mode, b"|tb/tb.vhd|lib.", &name])?;
    if mode.is_empty() {
        out.push(b'.')?;
        put_cases(out, cases, b"")?;
    }
    out.push(b'|')?;
    put_cases(out, cases, b",,")?;
    out.extend_from_slice(b"|tb/|")?;
    put_exit(out, seed, cases)?;
    out.push(b'\n')?;
    Ok(())
}

/// Adds the runs of a bench.
fn put_bench(out: &mut Vec<u8>, seed: u32, bench: u8) -> Result<(), NoMemory> {
    let count = 1 + byte(seed, 41) % 3;
    match byte(seed, 40) % 4 {
        0 => put_run(out, seed, bench, b"w", Cases { first: 0, count: 0 }),
        1 => put_run(out, seed, bench, b"s", Cases { first: 0, count }),
        _ => {
            for first in 0..count {
                let cases = Cases { first, count: 1 };
                put_run(out, seed.wrapping_add(first as u32), bench, b"", cases)?;
            }
            Ok(())
        }
    }
}

/// The lines of `benches` random benches.
fn lines_of(alloc: Global, seed: u32, benches: u8) -> Result<Vec<u8>, NoMemory> {
    let mut out = Vec::new(alloc);
    for bench in 0..benches {
        put_bench(
            &mut out,
            mixed(seed, 50u32.wrapping_add(bench as u32)),
            bench,
        )?;
    }
    Ok(out)
}

/// Runs lines as the plain runs do.
fn goes_alike(rt: &impl Abort, alloc: Global, lines: &str, way: &Way) -> Result<(), Fail> {
    let told = told_runs(rt, alloc, lines, way)?;
    let plain = plain_runs(alloc, lines, way)?;
    assert!(rt; agree(alloc, &told, &plain, lines)?, "{lines}");
    Ok(())
}

/// Runs lines with each number of slots.
fn go_alike(
    rt: &impl Abort,
    alloc: Global,
    lines: &str,
    seed: u32,
    fail_fast: bool,
) -> Result<(), Fail> {
    for limit in [1, 2, 3, 64] {
        let mut way = way_of(limit, fail_fast);
        way.picks = mixed(seed, limit);
        goes_alike(rt, alloc, lines, &way)?;
    }
    Ok(())
}

/// Runs the text of lines, with and without the end at a first failure.
fn text_goes_alike(rt: &impl Abort, alloc: Global, bytes: &[u8], seed: u32) -> Result<(), Fail> {
    match str::from_utf8(bytes) {
        Ok(lines) => {
            go_alike(rt, alloc, lines, seed, false)?;
            go_alike(rt, alloc, lines, seed, true)
        }
        Err(_) => Err(Fail::from("the lines are a text")),
    }
}

/// Runs a random project.
fn row(rt: &impl Abort, alloc: Global, seed: u32, benches: u8) -> Result<(), Fail> {
    let bytes = lines_of(alloc, seed, benches)?;
    text_goes_alike(rt, alloc, bytes.as_slice(), seed)
}

#[test]
fn random_runs_go_as_plain_ones(rt: HostRuntime) -> Result<(), Fail> {
    for seed in 0..ROWS {
        row(&rt, rt.alloc(), seed, byte(seed, 60) % 6)?;
    }
    Ok(())
}

/// The lines of 70 runs that pass, but for one.
fn many_lines(alloc: Global, failing: u8) -> Result<Vec<u8>, NoMemory> {
    let mut out = Vec::new(alloc);
    for bench in 0..70u8 {
        let name = [b'b', b'0' + bench / 10, b'0' + bench % 10];
        put(
            &mut out,
            &[b"lib|", &name, b"|rtl||w|tb.vhd|lib.", &name, b"||"],
        )?;
        put_whole_exit(&mut out, bench != failing)?;
    }
    Ok(out)
}

/// Adds the exit of a run of a bench without cases.
fn put_whole_exit(out: &mut Vec<u8>, passes: bool) -> Result<(), NoMemory> {
    if passes {
        put(out, &[b"|0||test_suite_done\n"])
    } else {
        put(out, &[b"|1|bad|-\n"])
    }
}

/// Runs the many lines.
fn many_go_alike(rt: &impl Abort, alloc: Global, failing: u8) -> Result<(), Fail> {
    let bytes = many_lines(alloc, failing)?;
    text_goes_alike(rt, alloc, bytes.as_slice(), failing as u32)
}

#[test]
fn more_runs_than_slots_go_as_plain_ones(rt: HostRuntime) -> Result<(), Fail> {
    for failing in [0, 3, 66, 100] {
        many_go_alike(&rt, rt.alloc(), failing)?;
    }
    Ok(())
}
