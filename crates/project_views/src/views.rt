//! The laws of views, as a function with an empty body.

ghost use Rattle.std.specs.Prelude.{◌≡◌, ℕ, List, ◌<◌, length, slice_index};
ghost use Rattle.base.specs.declared.graph.Entry.{Entry};
ghost use Rattle.base.specs.Graphs.{IsGraph};
ghost use Rattle.base.specs.View.{viewed, view, IsView};

/// What holds of the views of a graph.
pub fn laws_of_views()
    // A view is a graph whose last file depends on all others.
    ensures graph { (graph : List Entry) (at : ℕ) → IsGraph graph → at < length graph →
        IsGraph (view graph at) }
    ensures whole { (graph : List Entry) (at : ℕ) → IsGraph graph → at < length graph →
        IsView (view graph at) }
    // The view of a file within a view is its view in the graph.
    ensures within { (graph : List Entry) (at number : ℕ) → IsGraph graph → at < length graph →
        number < length (view graph at) →
        view (view graph at) number ≡ view graph (slice_index (viewed graph at) number) }
{}
