//! The simulator that is part of the program.

ghost use Rattle.std.specs.Prelude.{◌≡◌, [], IfOk, MatchOption, None, Some};
ghost use Rattle.std.specs.List.{list_any};
ghost use Rattle.child_test_request.specs.Reading.{bench_at};
ghost use Rattle.child_lines.specs.Lines.{in_library, lines};
ghost use Rattle.child_tools.specs.Benches.{bench_answer, cases_from, cases_of, has_bench, is_bench_file, is_entity_line, simulation, whole_bench};
ghost use Rattle.child_tools.specs.Failures.{KnowsFailures};

use crate::ends::{all_done, failed_case, no_bench, put_start};
use crate::failures::{failures_of, full_name};
use base::{BuiltFile, Exit, NoMemory};
use child_lines::{after_word, bad_request, next_line};
use child_test_request::{laws_of_bench_jobs, read_bench_request};
use std::alloc::Global;
use testbench_runs::{BenchJob, Names};

/// Whether a line is of the entity of a name.
fn is_entity_line(name: &[u8], line: &[u8]) -> bool
    ensures { result ≡ is_entity_line name.now line.now }
{
    match after_word(b"unit entity ", line) {
        Some(found) => found == name,
        None => false,
    }
}

/// Whether an artefact has the line of the entity of a name.
fn has_entity(name: &[u8], artefact: &[u8]) -> bool
    ensures { result ≡ list_any (is_entity_line name.now) (lines artefact.now) }
{
    let mut rest = artefact;
    while let Some((line, others)) = next_line(rest) {
        if is_entity_line(name, line) {
            return true;
        }
        rest = others;
    }
    is_entity_line(name, rest)
}

/// Whether a file is of a library.
fn is_of(file: &BuiltFile, library: &[u8]) -> bool
    ensures { result ≡ in_library library.now file.now }
{
    file.name.library.bytes() == library
}

/// Whether a file is of the library of a bench, and has the bench.
fn has_bench_in(job: &BenchJob, file: &BuiltFile) -> bool
    ensures { result ≡ is_bench_file job.now file.now }
{
    is_of(file, job.library.bytes()) && has_entity(job.bench.bytes(), file.artefact.bytes())
}

/// Whether a file of the library of a bench has the bench.
fn has_bench(job: &BenchJob) -> bool
    ensures { result ≡ has_bench job.now }
{
    for file in job.built.as_slice() {
        let has = has_bench_in(job, file);
        if has {
            return true;
        }
    }
    false
}

/// The answer to a bench that names its cases: the first that fails is the last that is started.
fn run_cases(alloc: Global, job: &BenchJob, failing: &Names<'_>) -> Result<Exit, NoMemory>
    requires { KnowsFailures job.now failing.now }
    ensures { IfOk result (λ exit. exit ≡ cases_from job.now [] job.now.cases) }
{
    let mut results = Vec::new(alloc);
    for name in job.cases.as_slice() {
        let full = full_name(alloc, job, name.bytes())?;
        put_start(&mut results, name.bytes())?;
        if failing.has(full.bytes()) {
            return failed_case(alloc, full.bytes(), results);
        }
    }
    all_done(alloc, results)
}

/// The answer to a bench that names no case itself: it has the one case `all`, and starts none.
#[tactic(auto, unfolding(crate::specs::Benches::whole_bench))]
fn run_whole(alloc: Global, job: &BenchJob, failing: &Names<'_>) -> Result<Exit, NoMemory>
    requires { KnowsFailures job.now failing.now }
    ensures { IfOk result (λ exit. exit ≡ whole_bench job.now) }
{
    let full = full_name(alloc, job, b"all")?;
    if failing.has(full.bytes()) {
        return failed_case(alloc, full.bytes(), Vec::new(alloc));
    }
    all_done(alloc, Vec::new(alloc))
}

/// The answer to a bench that is there.
fn run_bench(alloc: Global, job: &BenchJob) -> Result<Exit, NoMemory>
    ensures { IfOk result (λ exit. exit ≡ cases_of job.now job.now.cases) }
{
    let failing = failures_of(alloc, job)?;
    if job.cases.is_empty() {
        return run_whole(alloc, job, &failing);
    }
    run_cases(alloc, job, &failing)
}

/// What the simulator answers to a bench job.
#[tactic(auto, unfolding(crate::specs::Benches::bench_answer))]
pub fn run_job(alloc: Global, job: &BenchJob) -> Result<Exit, NoMemory>
    ensures { IfOk result (λ exit. exit ≡ bench_answer job.now) }
{
    if has_bench(job) {
        return run_bench(alloc, job);
    }
    no_bench(alloc)
}

/// The bench job whose request an input is, if it is one.
pub fn bench_job(alloc: Global, input: &[u8]) -> Result<Option<BenchJob>, NoMemory>
    ensures { IfOk result (λ job. MatchOption job
        (bench_at input.now ≡ None) (λ job. bench_at input.now ≡ Some job)) }
{
    laws_of_bench_jobs();
    let job = read_bench_request(alloc, input)?;
    Ok(job)
}

/// What a simulator child that is part of the program answers to its input, whatever its bytes: an exit code, an
/// output, and the text for the results path of the request. A request has the first of these answers that applies:
///
/// - 1 and `no bench`, if no file of the bench's library has the bench;
/// - 1 and `failed NAME`, if an artefact says that a case fails: the cases are started in order up to the first such
///   case;
/// - 0 and no output: all cases are done.
///
/// A bench that names no case itself has the one case `all`, and its results have no start line. The answer to any
/// other input is 2 and `bad request`, without results. Each text of a request is copied once. Time grows as n log n
/// with the cases and the lines of artefacts.
#[tactic(auto, unfolding(crate::specs::Benches::simulation))]
pub fn bench(alloc: Global, input: &[u8]) -> Result<Exit, NoMemory>
    ensures { IfOk result (λ exit. exit ≡ simulation input.now) }
{
    match bench_job(alloc, input)? {
        Some(job) => run_job(alloc, &job),
        None => bad_request(alloc),
    }
}
