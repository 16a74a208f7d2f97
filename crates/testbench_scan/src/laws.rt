//! Laws of benches, as functions with empty bodies: a caller cites one by calling it.

ghost use Rattle.std.specs.Prelude.{◌≡◌, ◌≢◌, AllPairs, Contains, List, Ok};
ghost use Rattle.std.specs.List.{flat_map};
ghost use Rattle.base_outcomes.specs.declared.bench.Bench.{Bench};
ghost use Rattle.testbench_select.specs.Selection.{bench_names};
ghost use Rattle.testbench_scan.specs.Benches.{IsBenchOfOne, ScannedFiles, tests_of};

/// Without a fault, each bench is that of an entity with exactly one architecture. It has the cases that this
/// architecture calls or, if it calls none, the one case `all`. No two cases have the same full name.
pub fn laws_of_benches()
    ensures made { (sources : ScannedFiles) (tests : List Bench) (bench : Bench) →
        tests_of sources ≡ Ok tests → Contains tests bench → IsBenchOfOne sources bench }
    ensures distinct { (sources : ScannedFiles) (tests : List Bench) →
        tests_of sources ≡ Ok tests → AllPairs (λ a b. a ≢ b) (flat_map bench_names tests) }
{}
