//! The laws of the files that tests need.

ghost use Rattle.std.specs.Prelude.{◌≡◌, ◌<◌, ℕ, Bool, true, List, None, Some, length};
ghost use Rattle.base.specs.declared.design.Scan.{Scan};
ghost use Rattle.base.specs.declared.project.Project.{Project};
ghost use Rattle.base.specs.Projects.{IsProject};
ghost use Rattle.base_outcomes.specs.declared.bench.Bench.{Bench};
ghost use Rattle.base.specs.PresentGraph.{below, listed};
ghost use Rattle.order.specs.BuildOrder.{AreEdges, IsBuildOrder};
ghost use Rattle.order.specs.LinkedGraph.{FitTexts, linked};
ghost use Rattle.project_views.specs.Parts.{IsPart};
ghost use Rattle.project_minimal.specs.MinimalSet.{IsNeedy, NeedSources, is_needed, needed_ranks, said_of};

/// What holds of the files that tests need, however they are found.
pub fn laws_of_minimal_sets()
    // They have the files of the tests, and what their own need;
    ensures closed { (sources : NeedSources) (tests : List Bench) →
        IsNeedy sources tests (is_needed sources tests) }
    // and each set of files that has these has all of them.
    ensures least { (sources : NeedSources) (tests : List Bench) (set : ℕ → Bool) →
        IsNeedy sources tests set → (file : ℕ) → file < length sources.files →
        is_needed sources tests file ≡ true → set file ≡ true }
    // In the graph of a linked project they depend on each other alone,
    ensures linked { (project : Project) (texts : List (List ℕ)) (scans : List Scan)
        (tests : List Bench) (edges : List (List ℕ)) (order : List ℕ) → IsProject project →
        FitTexts project.files texts → AreEdges edges → length edges ≡ length project.files →
        IsBuildOrder edges order → IsPart (linked project.files texts edges order)
        (needed_ranks (said_of project texts scans (Some edges)) tests order) }
    // and so they do in that of a listed one.
    ensures listed { (project : Project) (texts : List (List ℕ)) (scans : List Scan)
        (tests : List Bench) → length texts ≡ length project.files →
        IsPart (listed project.files texts) (needed_ranks
        (said_of project texts scans None) tests (below (length project.files))) }
{}
