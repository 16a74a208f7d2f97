//! Laws of selections, as functions with empty bodies: a caller cites one by calling it.

ghost use Rattle.std.specs.Prelude.{◌≡◌, List, filter};
ghost use Rattle.std.specs.List.{flat_map};
ghost use Rattle.base_outcomes.specs.declared.bench.Bench.{Bench};
ghost use Rattle.testbench_select.specs.declared.pattern.PatternPart.{PatternPart};
ghost use Rattle.testbench_select.specs.Selection.{bench_names, is_selected, selection};

/// The full names of the selected cases are the full names that some pattern matches, in the order of benches and
/// cases.
pub fn laws_of_selections()
    ensures { (patterns : List (List PatternPart)) (benches : List Bench) →
        flat_map bench_names (selection patterns benches)
        ≡ filter (is_selected patterns) (flat_map bench_names benches) }
{}
