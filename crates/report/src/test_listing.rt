//! The list of the tests.

ghost use Rattle.std.specs.Prelude.{◌≡◌, ◌++◌, IfOk, OnOk};
ghost use Rattle.std.specs.List.{flat_map};
ghost use Rattle.std.specs.Fmt.{decimal};
ghost use Rattle.testbench_select.specs.Selection.{count_of_tests};
ghost use Rattle.report.specs.Listing.{test_line, bench_lines, tests_count, tests_list};

use base::{NoMemory, Text};
use base_outcomes::{Bench, TestCase, Tests};
use std::alloc::Global;
use testbench_select::full_name;

fn put(out: &mut Vec<u8>, bytes: &[u8]) -> Result<(), NoMemory>
    ensures { OnOk result (out.new.items ≡ out.old.items ++ bytes.now) }
{
    out.extend_from_slice(bytes)?;
    Ok(())
}

fn put_test_line(
    alloc: Global,
    out: &mut Vec<u8>,
    bench: &Bench,
    case: &TestCase,
) -> Result<(), NoMemory>
    ensures { OnOk result (out.new.items ≡ out.old.items ++ test_line bench.now case.now) }
{
    let name = full_name(alloc, bench, case)?;
    put(out, name.as_slice())?;
    put(out, b"\n")?;
    Ok(())
}

fn put_bench_lines(alloc: Global, out: &mut Vec<u8>, bench: &Bench) -> Result<(), NoMemory>
    ensures { OnOk result (out.new.items ≡ out.old.items ++ bench_lines bench.now) }
{
    let cases = bench.cases.as_slice();
    for i in 0..cases.len() {
        put_test_line(alloc, out, bench, &cases[i])?;
    }
    Ok(())
}

fn put_lines(alloc: Global, out: &mut Vec<u8>, tests: &[Bench]) -> Result<(), NoMemory>
    ensures { OnOk result (out.new.items ≡ out.old.items ++ flat_map bench_lines tests.now) }
{
    for i in 0..tests.len() {
        put_bench_lines(alloc, out, &tests[i])?;
    }
    Ok(())
}

/// How many tests there are. Each has a line, so the number fits.
fn count_tests(lines: &[u8], tests: &[Bench]) -> u64
    requires { lines.now ≡ flat_map bench_lines tests.now }
    ensures { result ≡ count_of_tests tests.now }
{
    let _bytes = lines.len();
    let mut count = 0;
    for i in 0..tests.len() {
        count += tests[i].cases.len();
    }
    count
}

#[tactic(auto, unfolding(crate::specs::Listing::tests_count))]
fn put_count(alloc: Global, out: &mut Vec<u8>, count: u64) -> Result<(), NoMemory>
    ensures { OnOk result (out.new.items ≡ out.old.items ++ tests_count count) }
{
    put(out, b"Listed ")?;
    put(out, count.to_string(alloc)?.as_bytes())?;
    put(out, b" tests\n")?;
    Ok(())
}

/// What is put of the tests of a project: the full name of each case on a line, in order, and how many there are.
pub fn list_tests(alloc: Global, tests: &Tests) -> Result<Text, NoMemory>
    ensures { IfOk result (λ text. text ≡ tests_list tests.now) }
{
    let mut text = Vec::new(alloc);
    put_lines(alloc, &mut text, tests.as_slice())?;
    let count = count_tests(&text, tests.as_slice());
    put_count(alloc, &mut text, count)?;
    Ok(Text::from_vec(text))
}
