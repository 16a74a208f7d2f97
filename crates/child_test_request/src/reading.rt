//! Reading what a simulator is asked.

ghost use Rattle.std.specs.Prelude.{◌≡◌, IfOk, IfSome, IsSome};
ghost use Rattle.base_bytes.specs.Reading.{ReadsAll};
ghost use Rattle.testbench_runs.specs.declared.jobs.BenchJob.{BenchJob};
ghost use Rattle.testbench_runs.specs.BenchJobs.{IsBenchJob, bench_input};
ghost use Rattle.child_test_request.specs.Reading.{bench_at, bench_fields_at};

use base::NoMemory;
use base_bytes::{ByteReader, read_words};
use child_compile_request::{after_magic, all_built};
use std::alloc::Global;
use testbench_runs::BenchJob;

/// What comes after the magic of a request, to its end.
#[tactic(auto, unfolding(crate::specs::Reading::bench_fields_at))]
fn fields(alloc: Global, reader: &mut ByteReader<'_>) -> Result<Option<BenchJob>, NoMemory>
    ensures { IfOk result (λ job. ReadsAll (λ same. same) job (bench_fields_at reader.old)) }
{
    let Some(library) = reader.owned_text(alloc)? else {
        return Ok(None);
    };
    let Some(bench) = reader.owned_text(alloc)? else {
        return Ok(None);
    };
    let Some(architecture) = reader.owned_text(alloc)? else {
        return Ok(None);
    };
    let Some(cases) = read_words(alloc, reader)? else {
        return Ok(None);
    };
    let Some(runner_cfg) = reader.owned_text(alloc)? else {
        return Ok(None);
    };
    let Some(results) = reader.owned_text(alloc)? else {
        return Ok(None);
    };
    let Some(built) = all_built(alloc, reader)? else {
        return Ok(None);
    };
    if !reader.is_at_end() {
        return Ok(None);
    }
    Ok(Some(BenchJob {
        library,
        bench,
        architecture,
        cases,
        runner_cfg,
        results,
        built,
    }))
}

/// The job that all of the bytes spell, if they do.
#[tactic(auto, unfolding(crate::specs::Reading::bench_at))]
fn job_of(alloc: Global, bytes: &[u8]) -> Result<Option<BenchJob>, NoMemory>
    ensures { IfOk result (λ job. ReadsAll (λ same. same) job (bench_at bytes.now)) }
{
    let Some(mut reader) = after_magic(bytes, b"VRB1".as_slice()) else {
        return Ok(None);
    };
    fields(alloc, &mut reader)
}

/// The job whose request has these bytes as its input; `None` exactly where no job has these bytes. Each text of it is
/// copied once. A text is copied only where all of its bytes are there.
pub fn read_bench_request(alloc: Global, bytes: &[u8]) -> Result<Option<BenchJob>, NoMemory>
    // What is given is a job with these bytes,
    ensures found { IfOk result
        (λ given. IfSome given (λ job. IsBenchJob job × (bytes.now ≡ bench_input job))) }
    // and where a job has these bytes, there is an answer, and it is that one.
    ensures some { (job : BenchJob) → IsBenchJob job → bytes.now ≡ bench_input job →
        IfOk result (λ given. IsSome given) }
    ensures only { (job : BenchJob) → IsBenchJob job → bytes.now ≡ bench_input job →
        IfOk result (λ given. IfSome given (λ other. other ≡ job)) }
{
    job_of(alloc, bytes)
}
