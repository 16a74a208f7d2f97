//! The laws of closed parts of a graph, of which a view is one.

ghost use Rattle.std.specs.Prelude.{◌≡◌, ℕ, List, ◌<◌, length, map, All, Contains};
ghost use Rattle.base.specs.declared.graph.Entry.{Entry};
ghost use Rattle.base.specs.Graphs.{IsGraph};
ghost use Rattle.base.specs.View.{rank_in, part, viewed};
ghost use Rattle.project_views.specs.Parts.{IsPart};

/// What holds of the files of a graph that depend on each other alone.
pub fn laws_of_parts()
    // They are a graph of their own.
    ensures graph { (graph : List Entry) (positions : List ℕ) → IsGraph graph →
        IsPart graph positions → IsGraph (part graph positions) }
    // The files of a view are such a part,
    ensures viewed { (graph : List Entry) (at : ℕ) → IsGraph graph → at < length graph →
        IsPart graph (viewed graph at) }
    // and a part within a part, by its new numbers, is that part of the graph.
    ensures within { (graph : List Entry) (outer inner : List ℕ) → IsPart graph outer →
        IsPart graph inner → All (Contains outer) inner →
        part (part graph outer) (map (rank_in outer) inner) ≡ part graph inner }
{}
