//! The names of tests: whether each is one, and whether it came before. Full names aren't made for that.

ghost use Rattle.std.specs.Prelude.{◌≡◌, ◌++◌, ◌∷◌, [], ◌||◌, ℕ, List, IfOk, OnOk, None, Some, if◌then◌else◌, ◌==◌};
ghost use Rattle.std.specs.List.{list_any};
ghost use Rattle.std.specs.Option.{option_map};
ghost use Rattle.std.specs.Str.{is_utf8};
ghost use Rattle.base_outcomes.specs.declared.bench.TestFault.TheVariants.{BadName, DuplicateTest};
ghost use Rattle.vhdl_spec.specs.Dependencies.{is_one_of};
ghost use Rattle.testbench_select.specs.Selection.{bench_names, full_name, name_start};
ghost use Rattle.testbench_scan.specs.Benches.{bench_name, case_fault, first_repeated, is_bad_case, is_control, is_good_name};
ghost use Rattle.testbench_scan.specs.Paths.{HasGrown, HoldsFullNames, Leads};
ghost use Rattle.testbench_scan.specs.Results.{GivesOrFails};

use crate::bench::bench_name;
use crate::paths::{step, walk};
use crate::steps::Step;
use base::{NoMemory, OrMemory, Text};
use base_collections::Numbered;
use base_outcomes::{Bench, TestCase, TestFault};
use indexmap::IndexSet;
use std::alloc::Global;
use std::str;
use testbench_select::full_name;

/// The full names so far: the steps of their paths, and the indices where these end.
#[derive(Drop)]
pub struct Names {
    pub steps: Numbered<Step>,
    pub ends: IndexSet<usize>,
}

/// No name, which takes no memory.
pub fn no_names(alloc: Global) -> Names
    ensures { HoldsFullNames result [] }
{
    Names {
        steps: Numbered::new(alloc),
        ends: IndexSet::new(alloc),
    }
}

fn is_utf8(bytes: &[u8]) -> bool
    ensures { result ≡ is_utf8 bytes.now }
{
    str::from_utf8(bytes).is_ok()
}

fn has_control(bytes: &[u8]) -> bool
    ensures { result ≡ list_any is_control bytes.now }
{
    bytes.iter().any(|byte| *byte < 32 || *byte == 127)
}

/// Whether a full name is UTF-8 without control characters.
fn is_good_name(name: &[u8]) -> bool
    ensures { result ≡ is_good_name name.now }
{
    is_utf8(name) && !has_control(name)
}

/// Whether a case has an empty name or a bad full name. `start_is_good` says whether the name of its bench alone is
/// good.
fn is_bad_case(start_is_good: bool, bench: &Bench, test_case: &TestCase) -> bool
    requires { start_is_good ≡ is_good_name (bench_name bench.now.library bench.now.name) }
    ensures { result ≡ is_bad_case bench.now test_case.now }
{
    let name = test_case.name.bytes();
    if name.is_empty() {
        return true;
    }
    if !start_is_good {
        return true;
    }
    !is_good_name(name)
}

/// Whether some case of a bench has a bad name.
fn has_bad_case(alloc: Global, bench: &Bench) -> Result<bool, NoMemory>
    ensures { IfOk result (λ bad. bad ≡ list_any (is_bad_case bench.now) bench.now.cases) }
{
    let start = bench_name(alloc, &bench.library, &bench.name)?;
    let start_is_good = is_good_name(start.bytes());
    for test_case in bench.cases.as_slice() {
        if is_bad_case(start_is_good, bench, test_case) {
            return Ok(true);
        }
    }
    Ok(false)
}

/// The index on the paths of names where those of a bench begin.
fn start_of(bench: &Bench, steps: &mut Numbered<Step>) -> Result<usize, NoMemory>
    ensures leads { IfOk result (λ name_index. Leads steps.new.keys name_index (name_start bench.now)) }
    ensures grown { OnOk result (HasGrown steps.old.keys steps.new.keys) }
{
    let library = walk(steps, 0, bench.library.bytes())?;
    let dot = step(steps, library, b'.')?;
    let name = walk(steps, dot, bench.name.bytes())?;
    let end = step(steps, name, b'.')?;
    Ok(end)
}

/// That a full name came before, which is made here alone.
fn duplicate_test(alloc: Global, bench: &Bench, test_case: &TestCase) -> Result<TestFault, NoMemory>
    ensures { IfOk result (λ fault. fault ≡ DuplicateTest (full_name bench.now test_case.now)) }
{
    Ok(TestFault::DuplicateTest {
        name: Text::from_vec(full_name(alloc, bench, test_case)?),
    })
}

/// Whether a full name whose path ends at an index came before.
fn came_before(names: &Names, name_index: usize) -> bool
    ensures names { (before : List (List ℕ)) (name : List ℕ) → HoldsFullNames names.now before →
        Leads names.now.steps.keys name_index name → result ≡ is_one_of before name }
    ensures ends { result ≡ list_any (λ other. name_index == other) names.now.ends.keys }
{
    let _count = names.steps.len();
    names.ends.contains(&name_index)
}

/// Adds the full name of a case of a bench, whose names begin at an index, unless it came before.
fn add_name(
    alloc: Global,
    bench: &Bench,
    start: usize,
    test_case: &TestCase,
    names: &mut Names,
) -> Result<(), OrMemory<TestFault>>
    requires { Leads names.old.steps.keys start (name_start bench.now) }
    ensures added { (before : List (List ℕ)) → HoldsFullNames names.old before →
        let name = full_name bench.now test_case.now in
        GivesOrFails (if is_one_of before name then Some (DuplicateTest name) else None)
        (λ value. HoldsFullNames names.new (before ++ name ∷ [])) result }
    ensures grown { OnOk result (HasGrown names.old.steps.keys names.new.steps.keys) }
{
    let name_index = walk(&mut names.steps, start, test_case.name.bytes())?;
    if came_before(names, name_index) {
        return Err(OrMemory::Fault(duplicate_test(alloc, bench, test_case)?));
    }
    names.ends.insert(name_index)?;
    Ok(())
}

/// Adds the full names of a bench, which begin at an index, unless one came before.
fn add_cases(
    alloc: Global,
    bench: &Bench,
    start: usize,
    names: &mut Names,
) -> Result<(), OrMemory<TestFault>>
    requires { Leads names.old.steps.keys start (name_start bench.now) }
    ensures { (before : List (List ℕ)) → HoldsFullNames names.old before →
        GivesOrFails (option_map DuplicateTest (first_repeated before (bench_names bench.now)))
        (λ value. HoldsFullNames names.new (before ++ bench_names bench.now)) result }
{
    for test_case in bench.cases.as_slice() {
        add_name(alloc, bench, start, test_case, names)?;
    }
    Ok(())
}

/// Adds the full names of a bench, unless one came before.
fn add_names(alloc: Global, bench: &Bench, names: &mut Names) -> Result<(), OrMemory<TestFault>>
    ensures { (before : List (List ℕ)) → HoldsFullNames names.old before →
        GivesOrFails (option_map DuplicateTest (first_repeated before (bench_names bench.now)))
        (λ value. HoldsFullNames names.new (before ++ bench_names bench.now)) result }
{
    let start = start_of(bench, &mut names.steps)?;
    add_cases(alloc, bench, start, names)
}

fn bad_name(alloc: Global, bench: &Bench) -> Result<TestFault, NoMemory>
    ensures { IfOk result (λ fault. fault ≡
        BadName (bench_name bench.now.library bench.now.name)) }
{
    Ok(TestFault::BadName {
        bench: bench_name(alloc, &bench.library, &bench.name)?,
    })
}

/// Adds the full names of a bench, unless one of its names is bad or came before.
pub fn take_names(
    alloc: Global,
    bench: &Bench,
    names: &mut Names,
) -> Result<(), OrMemory<TestFault>>
    ensures { (before : List (List ℕ)) → HoldsFullNames names.old before →
        GivesOrFails (case_fault before bench.now)
        (λ value. HoldsFullNames names.new (before ++ bench_names bench.now)) result }
{
    if has_bad_case(alloc, bench)? {
        return Err(OrMemory::Fault(bad_name(alloc, bench)?));
    }
    add_names(alloc, bench, names)
}
