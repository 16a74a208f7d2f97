//! Laws of the tests of the generated project, as functions with empty bodies.

ghost use Rattle.std.specs.Prelude.{◌≡◌, ◌<◌, ◌^◌, ℕ, Bool, true, false, List, [], ◌∷◌, ◌++◌, All, Ok, codes};
ghost use Rattle.std.specs.List.{Any};
ghost use Rattle.base.specs.Graphs.{IsBuilt};
ghost use Rattle.base.specs.declared.graph.BuiltFile.{BuiltFile};
ghost use Rattle.base.specs.declared.lexical.Token.{Token};
ghost use Rattle.base.specs.declared.project.ProjectFile.{ProjectFile};
ghost use Rattle.vhdl_spec.specs.Scans.{Finding};
ghost use Rattle.vhdl_outline.specs.Calls.{called_cases};
ghost use Rattle.vhdl_outline.specs.Runs.{is_bench_unit};
ghost use Rattle.testbench_scan.specs.Benches.{tests_of};
ghost use Rattle.testbench_runs.specs.BenchJobs.{bench_request};
ghost use Rattle.testbench_runs.specs.Runs.{path_at};
ghost use Rattle.testbench_runs.specs.Verdicts.{is_passed};
ghost use Rattle.memory_children.specs.Answers.{loop_answer, second_word};
ghost use Rattle.generated_project.specs.Files.{bench_body, bench_head, bench_path};
ghost use Rattle.generated_sources.specs.BenchScans.{bench_architecture, bench_entity, bench_file_tokens};
ghost use Rattle.generated_sources.specs.PackageScans.{package_unit};
ghost use Rattle.generated_children.specs.BenchTests.{HasBenchAt, runs_of_all, bench_cases, generated_bench, numbered_sources};
ghost use Rattle.generated_children.specs.TestExamples.{TestExamples};
ghost use Rattle.generated_children.specs.TestedBench.{AreTestable, IsBuiltBench, IsGenerated, both_runs, case_run, first_case, passing_exit, second_case, lets_pass};
ghost use Rattle.generated_children.specs.CompiledTexts.{bench_artefact, package_artefact};

/// The built-in simulator passes each of the two cases over built files if one of them has the bench and none makes a case
/// fail. Its results say that the case was started and that all is done. No artefact of the generated project makes a case
/// fail.
pub fn laws_of_simulations()
    ensures first { (scan : List ℕ → Finding) (simulator : List (List ℕ))
        (built : List BuiltFile) →
        second_word simulator ≡ codes "child-bench" → AreTestable built →
        loop_answer scan (bench_request (case_run first_case) simulator built)
        ≡ passing_exit first_case }
    ensures second { (scan : List ℕ → Finding) (simulator : List (List ℕ))
        (built : List BuiltFile) →
        second_word simulator ≡ codes "child-bench" → AreTestable built →
        loop_answer scan (bench_request (case_run second_case) simulator built)
        ≡ passing_exit second_case }
    // Each case passes so.
    ensures first_passes { is_passed (case_run first_case) (passing_exit first_case) ≡ true }
    ensures second_passes { is_passed (case_run second_case) (passing_exit second_case) ≡ true }
    ensures bench { (name : List ℕ) → lets_pass name bench_artefact ≡ true }
    ensures package { (name : List ℕ) (number : ℕ) (noted : Bool) → number < 2 ^ 64 →
        lets_pass name (package_artefact number noted) ≡ true }
    ensures testable { (built : List BuiltFile) → IsBuilt built → Any IsBuiltBench built →
        All (λ file. IsGenerated file.artefact) built → AreTestable built }
{}

/// In whatever order its files come, the tests of the generated project are those of its bench: the cases `one` and
/// `two`, which run one by one.
pub fn laws_of_tests()
    // The entity is a bench, and its architecture calls two cases. No package is a bench, whatever its text.
    ensures bench { is_bench_unit (bench_head ++ bench_body) bench_file_tokens bench_entity ≡ true }
    ensures package { (text : List ℕ) (tokens : List Token) (number : ℕ) →
        is_bench_unit text tokens (package_unit number) ≡ false }
    ensures cases { (position : ℕ) →
        called_cases position (bench_head ++ bench_body) bench_file_tokens bench_architecture
        ≡ bench_cases position }
    ensures found { (command : List (List ℕ)) (edited : ℕ) (numbers : List ℕ) (position : ℕ) →
        HasBenchAt numbers position →
        tests_of (numbered_sources command edited numbers) ≡ Ok (generated_bench position ∷ []) }
    ensures runs { (files : List ProjectFile) (position : ℕ) → path_at files position ≡ bench_path →
        runs_of_all files (generated_bench position ∷ []) ≡ both_runs }
    ensures all { (command : List (List ℕ)) (edited : ℕ) (numbers : List ℕ) (position : ℕ) →
        HasBenchAt numbers position →
        runs_of_all (numbered_sources command edited numbers).files (generated_bench position ∷ [])
        ≡ both_runs }
{}

/// Artefacts, results and names, worked out by hand.
pub fn examples_of_tests()
    ensures { TestExamples }
{}
