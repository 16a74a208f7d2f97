//! The tests that patterns select.

ghost use Rattle.std.specs.Prelude.{◌≡◌, ◌∷◌, ◌++◌, [], IfOk, OnOk, filter, if◌then◌else◌, map, take};
ghost use Rattle.testbench_select.specs.Choosing.{Chooses, IsBounded};
ghost use Rattle.testbench_select.specs.Selection.{has_cases, is_selected, name_start, selected_bench, selected_cases, selection, with_cases};

use crate::choosing::{Choice, choice_of, is_chosen};
use crate::names::name_start;
use crate::pattern::PatternList;
use base::NoMemory;
use base_outcomes::{Bench, CaseList, TestCase, Tests};
use std::alloc::Global;

fn copy_case(alloc: Global, test_case: &TestCase) -> Result<TestCase, NoMemory>
    ensures { IfOk result (λ copy. copy ≡ test_case.now) }
{
    Ok(TestCase {
        name: test_case.name.copy(alloc)?,
        file: test_case.file,
        at: test_case.at,
        length: test_case.length,
    })
}

/// A copy of a bench with other cases.
fn with_cases(alloc: Global, bench: &Bench, cases: CaseList) -> Result<Bench, NoMemory>
    ensures { IfOk result (λ copy. copy ≡ with_cases bench.now cases) }
{
    Ok(Bench {
        library: bench.library.copy(alloc)?,
        name: bench.name.copy(alloc)?,
        architecture: bench.architecture.copy(alloc)?,
        file: bench.file,
        cases,
        whole: bench.whole,
        same_sim: bench.same_sim,
    })
}

/// Puts the name of a case behind the first `kept` bytes of a name.
fn put_case(name: &mut Vec<u8>, kept: usize, test_case: &TestCase) -> Result<(), NoMemory>
    ensures { OnOk result (name.new.items ≡ take kept name.old.items ++ test_case.now.name) }
{
    name.truncate(kept);
    name.extend_from_slice(test_case.name.bytes())?;
    Ok(())
}

/// Adds a case that has this full name, where it is selected.
fn push_case(
    alloc: Global,
    patterns: &PatternList,
    choice: &Choice,
    name: &[u8],
    test_case: &TestCase,
    cases: &mut CaseList,
) -> Result<(), NoMemory>
    requires exact { Chooses patterns.now patterns.now choice.now }
    requires bounded { IsBounded choice.now }
    ensures { OnOk result (cases.new ≡ cases.old ++
        (if is_selected patterns.now name.now then test_case.now ∷ [] else [])) }
{
    if is_chosen(patterns, choice, name) {
        cases.push(copy_case(alloc, test_case)?)?;
    }
    Ok(())
}

/// The selected cases of a bench, in order. What their full names begin with is made once.
fn cases_of(
    alloc: Global,
    patterns: &PatternList,
    choice: &Choice,
    bench: &Bench,
) -> Result<CaseList, NoMemory>
    requires exact { Chooses patterns.now patterns.now choice.now }
    requires bounded { IsBounded choice.now }
    ensures { IfOk result (λ cases. cases ≡ selected_cases patterns.now bench.now) }
{
    let mut cases = CaseList::new(alloc);
    let mut name = name_start(alloc, bench)?;
    let kept = name.len();
    for test_case in bench.cases.as_slice() {
        put_case(&mut name, kept, test_case)?;
        push_case(
            alloc,
            patterns,
            choice,
            name.as_slice(),
            test_case,
            &mut cases,
        )?;
    }
    Ok(cases)
}

/// Adds a bench with its selected cases, where it has one.
fn push_bench(
    alloc: Global,
    patterns: &PatternList,
    choice: &Choice,
    bench: &Bench,
    selected: &mut Tests,
) -> Result<(), NoMemory>
    requires exact { Chooses patterns.now patterns.now choice.now }
    requires bounded { IsBounded choice.now }
    ensures { OnOk result (selected.new ≡ selected.old ++
        (if has_cases (selected_bench patterns.now bench.now)
        then selected_bench patterns.now bench.now ∷ [] else [])) }
{
    let cases = cases_of(alloc, patterns, choice, bench)?;
    if !cases.is_empty() {
        selected.push(with_cases(alloc, bench, cases)?)?;
    }
    Ok(())
}

/// The cases whose full name some pattern matches, in order, and the benches that have at least one such case.
///
/// All plain names and a `*` alone together take one look-up for each case. The bytes of a full name that is longer
/// than all plain names aren't looked at. Each other pattern takes the time of `matches` for each case. The start that
/// the full names of a bench share is made once, so the full names take time and memory in proportion to the names of
/// benches and cases.
pub fn select(alloc: Global, tests: &Tests, patterns: &PatternList) -> Result<Tests, NoMemory>
    ensures { IfOk result (λ selected. selected ≡ selection patterns.now tests.now) }
{
    let choice = choice_of(alloc, patterns)?;
    let mut selected = Tests::new(alloc);
    for bench in tests.as_slice() {
        push_bench(alloc, patterns, &choice, bench, &mut selected)?;
    }
    Ok(selected)
}
