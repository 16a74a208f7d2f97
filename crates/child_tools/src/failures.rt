//! Which cases of a bench fail, as artefacts say.

ghost use Rattle.std.specs.Prelude.{◌≡◌, ◌++◌, ◌∷◌, [], IfOk, OnOk};
ghost use Rattle.std.specs.List.{list_any};
ghost use Rattle.child_lines.specs.Lines.{lines};
ghost use Rattle.child_tools.specs.Benches.{fails, full_name, is_failure};
ghost use Rattle.child_tools.specs.Failures.{KnowsFailures, Takes, full_names};

use base::{BuiltFile, NoMemory, Text, TextList};
use child_lines::{after_word, next_line, put};
use std::alloc::Global;
use testbench_runs::{BenchJob, Names, set_of};

/// The full name of a case of a bench.
#[tactic(auto, unfolding(crate::specs::Benches::full_name))]
pub fn full_name(alloc: Global, job: &BenchJob, name: &[u8]) -> Result<Text, NoMemory>
    ensures { IfOk result (λ full. full ≡ full_name job.now name.now) }
{
    let mut full = Vec::from_slice(alloc, job.library.bytes())?;
    put(&mut full, b".")?;
    put(&mut full, job.bench.bytes())?;
    put(&mut full, b".")?;
    put(&mut full, name)?;
    Ok(Text::from_vec(full))
}

fn push_full(
    alloc: Global,
    job: &BenchJob,
    name: &[u8],
    names: &mut TextList,
) -> Result<(), NoMemory>
    ensures { OnOk result (names.new ≡ names.old ++ full_name job.now name.now ∷ []) }
{
    names.push(full_name(alloc, job, name)?)?;
    Ok(())
}

/// The full names that are looked for.
fn full_names(alloc: Global, job: &BenchJob) -> Result<TextList, NoMemory>
    ensures { IfOk result (λ names. names ≡ full_names job.now) }
{
    let mut names = TextList::new(alloc);
    push_full(alloc, job, b"all", &mut names)?;
    for name in job.cases.as_slice() {
        push_full(alloc, job, name.bytes(), &mut names)?;
    }
    Ok(names)
}

/// Adds the case that a line says fails, where it is wanted.
fn take_line<'a>(
    line: &'a [u8],
    wanted: &Names<'_>,
    failing: &mut Names<'a>,
) -> Result<(), NoMemory>
    ensures { OnOk result (Takes wanted.now (λ name. is_failure name line.now)
        failing.old failing.new) }
{
    let Some(name) = after_word(b"script fail ", line) else {
        return Ok(());
    };
    if wanted.has(name) {
        failing.add(name)?;
    }
    Ok(())
}

/// Adds the cases that an artefact says fail, in one pass.
fn take_artefact<'a>(
    artefact: &'a [u8],
    wanted: &Names<'_>,
    failing: &mut Names<'a>,
) -> Result<(), NoMemory>
    ensures { OnOk result (Takes wanted.now (λ name. list_any (is_failure name) (lines artefact.now))
        failing.old failing.new) }
{
    let mut rest = artefact;
    while let Some((line, others)) = next_line(rest) {
        take_line(line, wanted, failing)?;
        rest = others;
    }
    take_line(rest, wanted, failing)
}

/// Adds the cases that the artefacts of files say fail.
fn take_files<'a>(
    files: &'a [BuiltFile],
    wanted: &Names<'_>,
    failing: &mut Names<'a>,
) -> Result<(), NoMemory>
    ensures { OnOk result (Takes wanted.now (fails files.now) failing.old failing.new) }
{
    for file in files {
        take_artefact(file.artefact.bytes(), wanted, failing)?;
    }
    Ok(())
}

/// The full names of the cases of a bench that fail: an artefact says so, whatever file it was made of. Time grows as n
/// log n with the cases and lines.
pub fn failures_of<'a>(alloc: Global, job: &'a BenchJob) -> Result<Names<'a>, NoMemory>
    ensures { IfOk result (KnowsFailures job.now) }
{
    let names = full_names(alloc, job)?;
    let wanted = set_of(alloc, &names)?;
    let mut failing = Names::new(alloc);
    take_files(job.built.as_slice(), &wanted, &mut failing)?;
    Ok(failing)
}
