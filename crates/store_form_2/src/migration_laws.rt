//! Laws of the requests that stand for records of views, as functions with empty bodies.

ghost use Rattle.std.specs.Prelude.{◌≡◌, ◌≢◌, ℕ, ◌<◌, ◌≤◌, ◌++◌, List, [], ◌∷◌, All, AllPairs, Contains, codes, length, map};
ghost use Rattle.base.specs.declared.limits.TheConstants.{ARTEFACT_LIMIT, FILE_LIMIT, TEXT_LIMIT};
ghost use Rattle.base.specs.Graphs.{IsBuiltFile, IsGraph};
ghost use Rattle.base.specs.Names.{FitsCommand, FitsName};
ghost use Rattle.outside.specs.Records.{Record, built_of_record};
ghost use Rattle.store_form_2.specs.declared.kept_view.Record.{Record as ViewRecord};
ghost use Rattle.store_form_2.specs.Nodes.{AreNodes, Node};
ghost use Rattle.store_form_2.specs.ByNumber.{NodeRecord, node_request, unfolded_record};
ghost use Rattle.store_form_2.specs.Migrating.{migrated_requests, request_for};
ghost use Rattle.store_form_2.specs.Samples.{a_over, b_over, vhd_built, vhd_request};

/// What holds of the requests that stand for records of views.
pub fn laws_of_migration()
    // Each is of another file.
    ensures distinct { (records : List ViewRecord) →
        AllPairs (λ a b. a.asked.name ≢ b.asked.name) (migrated_requests records) }
    // Where all views are graphs and all artefacts are small, the name, the command, the text and the artefact of each
    // request fit;
    ensures names { (records : List ViewRecord) →
        All (λ kept. IsGraph kept.view) records →
        All (λ kept. length kept.artefact ≤ ARTEFACT_LIMIT) records →
        All (λ kept. FitsName kept.asked.name) (migrated_requests records) }
    ensures commands { (records : List ViewRecord) →
        All (λ kept. IsGraph kept.view) records →
        All (λ kept. length kept.artefact ≤ ARTEFACT_LIMIT) records →
        All (λ kept. FitsCommand kept.asked.command) (migrated_requests records) }
    ensures texts { (records : List ViewRecord) →
        All (λ kept. IsGraph kept.view) records →
        All (λ kept. length kept.artefact ≤ ARTEFACT_LIMIT) records →
        All (λ kept. length kept.asked.text ≤ TEXT_LIMIT) (migrated_requests records) }
    ensures artefacts { (records : List ViewRecord) →
        All (λ kept. IsGraph kept.view) records →
        All (λ kept. length kept.artefact ≤ ARTEFACT_LIMIT) records →
        All (λ kept. length kept.artefact ≤ ARTEFACT_LIMIT) (migrated_requests records) }
    // it is over fewer files than a graph may have,
    ensures few { (records : List ViewRecord) →
        All (λ kept. IsGraph kept.view) records →
        All (λ kept. length kept.artefact ≤ ARTEFACT_LIMIT) records →
        All (λ kept. length kept.asked.below < FILE_LIMIT) (migrated_requests records) }
    // each of which fits,
    ensures below { (records : List ViewRecord) →
        All (λ kept. IsGraph kept.view) records →
        All (λ kept. length kept.artefact ≤ ARTEFACT_LIMIT) records →
        All (λ kept. All IsBuiltFile kept.asked.below) (migrated_requests records) }
    // which have different names,
    ensures apart { (records : List ViewRecord) →
        All (λ kept. IsGraph kept.view) records →
        All (λ kept. length kept.artefact ≤ ARTEFACT_LIMIT) records →
        All (λ kept. AllPairs (λ a b. a.name ≢ b.name) kept.asked.below)
        (migrated_requests records) }
    // and other names than its own.
    ensures others { (records : List ViewRecord) →
        All (λ kept. IsGraph kept.view) records →
        All (λ kept. length kept.artefact ≤ ARTEFACT_LIMIT) records →
        All (λ kept. All (λ other. other.name ≢ kept.asked.name) kept.asked.below)
        (migrated_requests records) }
    // The files below a request were built by requests that come before it.
    ensures earlier { (records : List ViewRecord) →
        All (λ kept. IsGraph kept.view) records →
        (before rest : List Record) (kept : Record) →
        migrated_requests records ≡ before ++ kept ∷ rest →
        All (Contains (map built_of_record before)) kept.asked.below }
    // A file and one over it, each with a record: the second's request is over the first's artefact,
    ensures both { migrated_requests
        (a_over (codes "x") (codes "1") ∷ b_over (codes "x") (codes "2") ∷ [])
        ≡ vhd_request 97 (codes "x") [] (codes "1")
        ∷ vhd_request 98 (codes "y") (vhd_built 97 (codes "1") ∷ []) (codes "2")
        ∷ [] }
    // whichever was recorded first;
    ensures swapped { migrated_requests
        (b_over (codes "x") (codes "2") ∷ a_over (codes "x") (codes "1") ∷ [])
        ≡ vhd_request 97 (codes "x") [] (codes "1")
        ∷ vhd_request 98 (codes "y") (vhd_built 97 (codes "1") ∷ []) (codes "2")
        ∷ [] }
    // where the first was recorded once more, with another text, only that record is kept,
    ensures changed { migrated_requests
        (a_over (codes "x") (codes "1")
        ∷ b_over (codes "x") (codes "2")
        ∷ a_over (codes "w") (codes "3")
        ∷ [])
        ≡ vhd_request 97 (codes "w") [] (codes "3") ∷ [] }
    // and the record of the second alone isn't kept.
    ensures alone { migrated_requests (b_over (codes "x") (codes "2") ∷ []) ≡ [] }
{}

/// What holds of the requests that stand for records of the views of nodes.
pub fn laws_of_node_requests()
    // The request for a record is made by the numbers of nodes: it is there where the latest record of each node that its
    // node depends on is of that very node.
    ensures by_number { (texts : List (List ℕ)) (nodes : List Node) (records : List NodeRecord) →
        AreNodes texts nodes → All (λ kept. kept.node < length nodes) records →
        (kept : NodeRecord) → kept.node < length nodes →
        request_for (map (unfolded_record texts nodes) records) (unfolded_record texts nodes kept)
        ≡ node_request texts nodes records kept }
{}
