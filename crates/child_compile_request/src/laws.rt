//! Laws of the bytes of jobs, as functions with empty bodies.

ghost use Rattle.std.specs.Prelude.{◌≡◌, ℕ, List, Some};
ghost use Rattle.base_bytes.specs.Reading.{AreBytes};
ghost use Rattle.child_compile_request.specs.declared.reading.CompileJob.{CompileJob};
ghost use Rattle.child_compile_request.specs.Jobs.{IsJob, job_bytes};
ghost use Rattle.child_compile_request.specs.Reading.{job_at};

/// What holds of the bytes of jobs, whoever writes or reads them.
pub fn laws_of_jobs()
    // What is read is a job, and spelled so,
    ensures takes { (bytes : List ℕ) (job : CompileJob) → AreBytes bytes → job_at bytes ≡ Some job →
        IsJob job × (bytes ≡ job_bytes job) }
    // and what is spelled so is read.
    ensures again { (job : CompileJob) → IsJob job → job_at (job_bytes job) ≡ Some job }
    // Two jobs never have the same bytes.
    ensures same { (job other : CompileJob) → IsJob job → IsJob other →
        job_bytes job ≡ job_bytes other →
        job ≡ other }
{}
