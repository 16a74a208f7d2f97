//! The full names of the cases of a run.

ghost use Rattle.std.specs.Prelude.{◌≡◌, ◌∷◌, [], codes, map, IfOk};
ghost use Rattle.testbench_runs.specs.Runs.{case_names, name_of_case};

use base::{NoMemory, Text, TextList};
use std::alloc::Global;
use testbench_runs::TestRun;

/// The full name of a case.
fn case_name(alloc: Global, run: &TestRun, case: &[u8]) -> Result<Text, NoMemory>
    ensures { IfOk result (λ name. name ≡ name_of_case run.now case.now) }
{
    let library = run.library.bytes();
    let bench = run.bench.bytes();
    let mut name = Vec::from_slice(alloc, library)?;
    name.push(b'.')?;
    name.extend_from_slice(bench)?;
    name.push(b'.')?;
    name.extend_from_slice(case)?;
    Ok(Text::from_vec(name))
}

/// The name of the one case of a bench that names none itself.
fn whole_name(alloc: Global, run: &TestRun) -> Result<TextList, NoMemory>
    ensures { IfOk result (λ names. names ≡ name_of_case run.now (codes "all") ∷ []) }
{
    let mut names = TextList::new(alloc);
    names.push(case_name(alloc, run, b"all")?)?;
    Ok(names)
}

fn each_name(alloc: Global, run: &TestRun) -> Result<TextList, NoMemory>
    ensures { IfOk result (λ names. names ≡ map (name_of_case run.now) run.now.cases) }
{
    let mut names = TextList::new(alloc);
    for case in run.cases.as_slice() {
        names.push(case_name(alloc, run, case.bytes())?)?;
    }
    Ok(names)
}

/// The full names of the cases of a run, in order.
pub(crate) fn case_names(alloc: Global, run: &TestRun) -> Result<TextList, NoMemory>
    ensures { IfOk result (λ names. names ≡ case_names run.now) }
{
    if run.whole {
        whole_name(alloc, run)
    } else {
        each_name(alloc, run)
    }
}
