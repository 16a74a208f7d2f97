//! Laws of nodes, as functions with empty bodies.

ghost use Rattle.std.specs.Prelude.{◌≡◌, ◌↔◌, ℕ, ◌<◌, ◌++◌, ◌∷◌, true, false, List, [], length, All, Contains, slice_index, slice_index_or};
ghost use Rattle.std.specs.List.{list_any};
ghost use Rattle.base.specs.declared.graph.Entry.{Entry};
ghost use Rattle.base.specs.Graphs.{IsGraph};
ghost use Rattle.store_form_2.specs.Nodes.{Node, AreNodes, AreOnce, node_file, node_files, unfolded};
ghost use Rattle.store_form_2.specs.Forms.{Draft};
ghost use Rattle.store_form_2.specs.Fitting.{FitsNew, IsListed};
ghost use Rattle.store_form_2.specs.NodeContents.{Contents, draft_node, is_draft, is_same_node, contents_of};
ghost use Rattle.base_bytes.specs.TextRefs.{is_text_ref, with_text};

/// What holds of the nodes of a store.
pub fn laws_of_nodes()
    // Whatever the payloads, no text and no node has two numbers, and each node unfolds to a view.
    ensures nodes { (payloads : List (List ℕ)) →
        AreNodes (contents_of payloads).texts (contents_of payloads).nodes }
    // Two nodes that unfold to one view have one number.
    ensures once { (texts : List (List ℕ)) (nodes : List Node) (m n : ℕ) → AreNodes texts nodes →
        m < length nodes → n < length nodes →
        unfolded texts nodes m ≡ unfolded texts nodes n → m ≡ n }
{}

/// What holds of one more node.
pub fn laws_of_new_nodes()
    // It unfolds to a graph exactly where it fits the nodes that it depends on, which is tested by numbers alone.
    ensures fits { (texts more : List (List ℕ)) (nodes : List Node) (node : Node) (other : Entry) →
        AreNodes texts nodes → All (λ dep. dep < length nodes) node.deps →
        FitsNew (node_files texts nodes) (node_file (texts ++ more) node) other
        ↔ IsGraph (unfolded (texts ++ more) (nodes ++ node ∷ []) (length nodes)) }
    // So a draft of a new node, whose text and dependencies are there, is one exactly where it fits them.
    ensures draft { (contents : Contents) (draft : Draft) (other : Entry) →
        AreNodes contents.texts contents.nodes → is_text_ref contents.texts draft.source ≡ true →
        list_any (is_same_node (draft_node contents.texts draft)) contents.nodes ≡ false →
        All (λ dep. dep < length contents.nodes) draft.deps →
        (is_draft contents draft ≡ true)
        ↔ FitsNew (node_files contents.texts contents.nodes)
        (node_file (with_text contents.texts draft.source) (draft_node contents.texts draft)) other }
    // A dependency that a listed one lists is listed, so it needs no test of its own.
    ensures listed { (texts : List (List ℕ)) (nodes : List Node) (deps : List ℕ) (other : Node) →
        (k j : ℕ) → AreNodes texts nodes → All (λ dep. dep < length nodes) deps →
        AreOnce deps → k < length deps → j < length deps →
        IsListed deps j (slice_index_or nodes (slice_index deps j) other).deps →
        Contains (slice_index_or nodes (slice_index deps j) other).deps (slice_index deps k) →
        IsListed deps k (slice_index_or nodes (slice_index deps k) other).deps }
{}
