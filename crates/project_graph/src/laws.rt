//! Laws of the graphs of linked projects, as a function with an empty body: a caller cites them by calling it.

ghost use Rattle.std.specs.Prelude.{◌≡◌, ℕ, List, length};
ghost use Rattle.base.specs.declared.project.Project.{Project};
ghost use Rattle.base.specs.Graphs.{IsGraph};
ghost use Rattle.base.specs.Projects.{IsProject};
ghost use Rattle.order.specs.BuildOrder.{AreEdges, IsBuildOrder};
ghost use Rattle.order.specs.LinkedGraph.{FitTexts, linked};

/// The files of a project, in an order in which each comes after what it depends on, are a graph.
pub fn laws_of_linked_graphs()
    ensures { (project : Project) (texts edges : List (List ℕ)) (order : List ℕ) →
        IsProject project → FitTexts project.files texts → AreEdges edges →
        length edges ≡ length project.files → IsBuildOrder edges order →
        IsGraph (linked project.files texts edges order) }
{}
