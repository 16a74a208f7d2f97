//! The name of a run, and the paths that are made of it.

ghost use Rattle.std.specs.Prelude.{◌≡◌, ◌<◌, ◌++◌, [], slice_index_or, IfOk, OnOk};
ghost use Rattle.testbench_runs.specs.Runs.{escaped, escaped_byte, hex_digit, is_name_byte, name_of_bench, name_of_case, output_path, results_path, run_name};

use base::{NoMemory, Text};
use std::alloc::Global;
use testbench_runs::TestRun;

/// The library and the bench of a run, with a dot between them.
fn bench_name(alloc: Global, run: &TestRun) -> Result<Vec<u8>, NoMemory>
    ensures { IfOk result (λ name. name.items ≡ name_of_bench run.now) }
{
    let mut name = Vec::from_slice(alloc, run.library.bytes())?;
    name.push(b'.')?;
    name.extend_from_slice(run.bench.bytes())?;
    Ok(name)
}

/// The full name of a case of a run.
fn case_name(alloc: Global, run: &TestRun, case: &[u8]) -> Result<Vec<u8>, NoMemory>
    ensures { IfOk result (λ name. name.items ≡ name_of_case run.now case.now) }
{
    let mut name = bench_name(alloc, run)?;
    name.push(b'.')?;
    name.extend_from_slice(case)?;
    Ok(name)
}

/// The name of the first case; empty if there are no cases.
fn first_case(cases: &[Text]) -> &[u8]
    ensures { result.now ≡ slice_index_or cases.now 0 [] }
{
    match cases {
        [first, ..] => first.bytes(),
        [] => b"",
    }
}

#[tactic(auto, unfolding(testbench_runs::specs::Runs::run_name))]
fn run_name(alloc: Global, run: &TestRun) -> Result<Vec<u8>, NoMemory>
    ensures { IfOk result (λ name. name.items ≡ run_name run.now) }
{
    if run.same_sim || run.whole {
        bench_name(alloc, run)
    } else {
        case_name(alloc, run, first_case(run.cases.as_slice()))
    }
}

fn is_name_byte(byte: u8) -> bool
    ensures { result ≡ is_name_byte byte }
{
    byte.is_ascii_alphanumeric() || byte == b'_' || byte == b'-' || byte == b'.'
}

fn hex_digit(worth: u8) -> u8
    requires { worth < 16 }
    ensures { result ≡ hex_digit worth }
{
    if worth < 10 { b'0' + worth } else { 87 + worth }
}

#[tactic(auto, unfolding(testbench_runs::specs::Runs::escaped_byte))]
fn put_escaped(out: &mut Vec<u8>, byte: u8) -> Result<(), NoMemory>
    ensures { OnOk result (out.new.items ≡ out.old.items ++ escaped_byte byte) }
{
    if is_name_byte(byte) {
        out.push(byte)?;
        return Ok(());
    }
    out.extend_from_slice(&[b'=', hex_digit(byte / 16), hex_digit(byte % 16)])?;
    Ok(())
}

fn put_all_escaped(out: &mut Vec<u8>, name: &[u8]) -> Result<(), NoMemory>
    ensures { OnOk result (out.new.items ≡ out.old.items ++ escaped name.now) }
{
    for byte in name {
        put_escaped(out, *byte)?;
    }
    Ok(())
}

/// The path of the folder of a run.
#[tactic(auto, unfolding(testbench_runs::specs::Runs::output_path))]
pub fn output_path(alloc: Global, run: &TestRun) -> Result<Vec<u8>, NoMemory>
    ensures { IfOk result (λ path. path.items ≡ output_path run.now) }
{
    let name = run_name(alloc, run)?;
    let mut path = Vec::from_slice(alloc, b"vunit_out/tests/")?;
    put_all_escaped(&mut path, name.as_slice())?;
    path.push(b'/')?;
    Ok(path)
}

/// Where the simulation of a run leaves its results: a file in the folder of the run, below `vunit_out/tests`. The name
/// of that folder has up to three bytes for each byte of the run's name.
#[tactic(auto, unfolding(testbench_runs::specs::Runs::results_path))]
pub fn results_path(alloc: Global, run: &TestRun) -> Result<Text, NoMemory>
    ensures { IfOk result (λ path. path ≡ results_path run.now) }
{
    let mut path = output_path(alloc, run)?;
    path.extend_from_slice(b"vunit_results")?;
    Ok(Text::from_vec(path))
}
