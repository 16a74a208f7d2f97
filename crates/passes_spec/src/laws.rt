//! Laws of passes, as functions with an empty body: a caller cites one by calling it.

ghost use Rattle.std.specs.Prelude.{◌≡◌, ℕ, Bool, true, List, Some, All};
ghost use Rattle.base.specs.declared.child.Request.{Request};
ghost use Rattle.base.specs.declared.child.Exit.{Exit};
ghost use Rattle.base.specs.declared.graph.BuiltFile.{BuiltFile};
ghost use Rattle.testbench_runs.specs.declared.runs.TestRun.{TestRun};
ghost use Rattle.testbench_runs.specs.BenchJobs.{bench_request};
ghost use Rattle.testbench_runs.specs.Verdicts.{ended_run, is_passed, started_ends};
ghost use Rattle.passes_spec.specs.Passes.{Pass, IsTruePass, last_passes, pass_of_end};
ghost use Rattle.passes_spec.specs.KnownRuns.{recalled, passed_run, runs_left, merged_ends};
ghost use Rattle.passes_spec.specs.PassImages.{HasPasses};

/// The laws of runs that are known to pass, over true passes.
pub fn laws_of_known_runs()
    // A known run has the end that it would have if it were started.
    ensures known { (answer : Request → Exit) (passes : List Pass) →
        All (IsTruePass answer) passes →
        (simulator : List (List ℕ)) (built : List BuiltFile) (run : TestRun) (output : List ℕ) →
        recalled passes simulator built run ≡ Some output →
        ended_run run (answer (bench_request run simulator built)) ≡ passed_run run output }
    // The ends of the runs that are not known, merged with the ends of the known runs, are the ends
    // of all runs if all are started.
    ensures all { (answer : Request → Exit) (passes : List Pass) →
        All (IsTruePass answer) passes →
        (simulator : List (List ℕ)) (built : List BuiltFile) (runs : List TestRun) →
        let known = recalled passes simulator built in
        merged_ends known runs (started_ends answer simulator built (runs_left known runs))
        ≡ started_ends answer simulator built runs }
{}

/// The law of compaction: a run has the same recalled output if only the last pass of the same tests is kept.
pub fn laws_of_pass_compaction()
    ensures { (passes : List Pass) (simulator : List (List ℕ)) (built : List BuiltFile)
        (run : TestRun) → recalled (last_passes passes) simulator built run
        ≡ recalled passes simulator built run }
{}

/// The laws of passes that a run records.
pub fn laws_of_new_passes()
    // The pass of a run that passed is true.
    ensures new { (answer : Request → Exit) (run : TestRun) (simulator : List (List ℕ))
        (built : List BuiltFile) →
        let exit = answer (bench_request run simulator built) in
        is_passed run exit ≡ true → IsTruePass answer (pass_of_end run simulator built exit) }
    // If the passes before the run and the passes that it records are true, an image has only true passes.
    ensures images { (answer : Request → Exit) (before : List Pass) (clean : Bool)
        (recorded now : List Pass) → All (IsTruePass answer) before →
        All (IsTruePass answer) recorded → HasPasses before clean recorded now →
        All (IsTruePass answer) now }
{}
