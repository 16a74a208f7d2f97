//! Laws of the bytes of bench jobs, as functions with empty bodies.

ghost use Rattle.std.specs.Prelude.{◌≡◌, ◌<◌, ◌^◌, ℕ, List, length, Some};
ghost use Rattle.base_bytes.specs.Reading.{AreBytes};
ghost use Rattle.base.specs.declared.graph.BuiltFile.{BuiltFile};
ghost use Rattle.base.specs.Graphs.{IsBuilt};
ghost use Rattle.testbench_runs.specs.declared.jobs.BenchJob.{BenchJob};
ghost use Rattle.testbench_runs.specs.declared.runs.TestRun.{TestRun};
ghost use Rattle.testbench_runs.specs.Runs.{FitsRun};
ghost use Rattle.testbench_runs.specs.BenchJobs.{IsBenchJob, bench_input, bench_job};
ghost use Rattle.child_test_request.specs.Reading.{bench_at};

/// What holds of the bytes of bench jobs, whoever writes or reads them.
pub fn laws_of_bench_jobs()
    // What is read is a job, and spelled so,
    ensures takes { (bytes : List ℕ) (job : BenchJob) → AreBytes bytes → bench_at bytes ≡ Some job →
        IsBenchJob job × (bytes ≡ bench_input job) }
    // and what is spelled so is read.
    ensures again { (job : BenchJob) → IsBenchJob job → bench_at (bench_input job) ≡ Some job }
    // Two jobs never have the same bytes.
    ensures same { (job other : BenchJob) → IsBenchJob job → IsBenchJob other →
        bench_input job ≡ bench_input other →
        job ≡ other }
    // The job for a run within its limits is within the limits of a job.
    ensures runs { (run : TestRun) (built : List BuiltFile) → FitsRun run → IsBuilt built →
        IsBenchJob (bench_job run built) }
{}
