//! Laws of what the files of the generated project depend on, as functions with empty bodies.

ghost use Rattle.std.specs.Prelude.{◌≡◌, ◌<◌, ◌≤◌, ◌^◌, ℕ, List, [], length, map, Ok};
ghost use Rattle.base.specs.declared.limits.TheConstants.{FILE_LIMIT};
ghost use Rattle.base.specs.declared.project.Project.{Project};
ghost use Rattle.order.specs.BuildOrder.{Ordered, file_order};
ghost use Rattle.vhdl_spec.specs.Dependencies.{link_of, link_units};
ghost use Rattle.vhdl_spec.specs.Scans.{Clean, Finding, IsScanner};
ghost use Rattle.generated_sources.specs.NumberedFiles.{AreAllNumbers, AreNumbers, numbered_edges, numbered_project, numbered_scan, numbered_bytes};

/// Laws of linking the generated project, in whatever order its files come. No unit is missing or duplicate, and there is no
/// warning. The bench depends on the first package. Each package K but the first depends on package K / 2, rounded down. So
/// the files have a compile order, if there are at most `FILE_LIMIT` files.
pub fn laws_of_links()
    ensures scanned { (scan : List ℕ → Finding) (edited number : ℕ) →
        IsScanner scan → number < 2 ^ 64 →
        scan (numbered_bytes edited number) ≡ Clean (numbered_scan edited number) }
    ensures linked { (command simulator external : List (List ℕ)) (edited : ℕ) (numbers : List ℕ) →
        AreNumbers numbers →
        let project : Project = numbered_project command simulator external numbers in
        link_of project (link_units 0 project.files
        (map (numbered_bytes edited) numbers) (map (numbered_scan edited) numbers))
        ≡ Ok (record { edges = numbered_edges numbers; warnings = [] }) }
    ensures ordered { (numbers : List ℕ) → length numbers ≤ FILE_LIMIT →
        (order : List ℕ) × (file_order (numbered_edges numbers) ≡ Ordered order) }
    ensures all { (count : ℕ) (numbers : List ℕ) → 1 ≤ count → count < 2 ^ 64 →
        AreAllNumbers count numbers → AreNumbers numbers }
{}
