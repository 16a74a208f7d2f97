//! Laws of the sizes of benches, as a function with an empty body: a caller cites one by calling it.

ghost use Rattle.std.specs.Prelude.{◌≡◌, ◌≤◌, true, List, All};
ghost use Rattle.base.specs.declared.project.ProjectFile.{ProjectFile};
ghost use Rattle.base_outcomes.specs.declared.bench.Bench.{Bench};
ghost use Rattle.testbench_select.specs.declared.pattern.PatternPart.{PatternPart};
ghost use Rattle.testbench_select.specs.Selection.{count_of_tests, has_cases, selection};
ghost use Rattle.base.specs.declared.limits.TheConstants.{CASE_LIMIT};
ghost use Rattle.testbench_runs.specs.Runs.{FitsBench};
ghost use Rattle.project_reading.specs.Sources.{IsReadProject};
ghost use Rattle.project_reading.specs.declared.query.Query.{Query as Wanted};
ghost use Rattle.project_reading.specs.declared.linking.ReadProject.{ReadProject};

/// What holds of the benches of a project that was read.
pub fn laws_of_bench_sizes()
    // Each bench is within its limits: the names of its cases together have at most as many bytes as a text may have.
    ensures read { (query : Wanted) (read : ReadProject) → IsReadProject query read →
        All (FitsBench read.project.files) read.tests }
    // Benches with the cases that patterns select are within these limits too.
    ensures selected { (files : List ProjectFile) (patterns : List (List PatternPart))
        (benches : List Bench) → All (FitsBench files) benches →
        All (FitsBench files) (selection patterns benches) }
    // The benches of a project together have at most 65,536 cases. Patterns never select more cases than there are.
    ensures few { (query : Wanted) (read : ReadProject) → IsReadProject query read →
        count_of_tests read.tests ≤ CASE_LIMIT }
    ensures fewer { (patterns : List (List PatternPart)) (benches : List Bench) →
        count_of_tests (selection patterns benches) ≤ count_of_tests benches }
    // Each selected bench has a case.
    ensures some { (patterns : List (List PatternPart)) (benches : List Bench) →
        All (λ bench. has_cases bench ≡ true) (selection patterns benches) }
{}
