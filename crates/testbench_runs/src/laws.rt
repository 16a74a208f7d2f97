//! Laws of runs, as functions with empty bodies: a caller cites one by calling it.

ghost use Rattle.std.specs.Prelude.{◌≡◌, ◌≤◌, true, List, length, All};
ghost use Rattle.std.specs.List.{flat_map};
ghost use Rattle.base.specs.declared.project.ProjectFile.{ProjectFile};
ghost use Rattle.base_outcomes.specs.declared.bench.Bench.{Bench};
ghost use Rattle.testbench_select.specs.Selection.{bench_names, count_of_tests, has_cases};
ghost use Rattle.testbench_runs.specs.Runs.{FitsBench, FitsRun, HasWholeCase, bench_runs, case_names, test_runs};

/// What holds of the runs of benches.
pub fn laws_of_runs()
    // The full names of the cases of all runs are those of the benches, in order.
    ensures names { (files : List ProjectFile) (benches : List Bench) → All HasWholeCase benches →
        flat_map case_names (test_runs files benches) ≡ flat_map bench_names benches }
    // There are at most as many runs as cases.
    ensures count { (files : List ProjectFile) (benches : List Bench) →
        All (λ bench. has_cases bench ≡ true) benches →
        length (test_runs files benches) ≤ count_of_tests benches }
    // The runs of a bench have the sizes of runs where it has.
    ensures sizes { (files : List ProjectFile) (bench : Bench) → FitsBench files bench →
        All FitsRun (bench_runs files bench) }
{}
