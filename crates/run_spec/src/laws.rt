//! The laws of current artefacts, and of the artefacts of a build.

ghost use Rattle.std.specs.Prelude.{◌≡◌, ◌↔◌, ℕ, ◌<◌, ◌++◌, List, [], ◌∷◌, Option, Some, slice_get};
ghost use Rattle.std.specs.Bool.{Decides};
ghost use Rattle.run_spec.specs.Types.{FileName, Entry, BuiltFile};
ghost use Rattle.outside.specs.Records.{Asked, Record, asked_of};
ghost use Rattle.base.specs.Graphs.{IsGraph};
ghost use Rattle.run_spec.specs.Moves.{IsStepwise};
ghost use Rattle.run_spec.specs.ChildJournal.{Work, End, artefact_so_far, workload_of};
ghost use Rattle.run_spec.specs.Recorded.{current_by_request, is_same_asked};

/// The current artefact of a file over built files: the artefact of its latest record, if that record has the request that would
/// be made for the file over these; otherwise nothing.
pub fn laws_of_recorded()
    // `is_same_asked` decides whether two requests are equal.
    ensures same { (a b : Asked) → Decides (is_same_asked a b) (a ≡ b) }
    // An artefact is current exactly if the latest record of the file has it, with the request for the file over these built files.
    ensures current { (latest_of : FileName → Option Record) (graph : List Entry) (at : ℕ)
        (entry : Entry) (built : List BuiltFile) (artefact : List ℕ) →
        slice_get graph at ≡ Some entry →
        (current_by_request latest_of graph at built ≡ Some artefact)
        ↔ (latest_of entry.name
        ≡ Some (record { asked = asked_of entry built; artefact = artefact })) }
{}

/// The artefacts of a build as its children end, for any definition of current artefacts.
pub fn laws_of_artefacts()
    // A file keeps its artefact.
    ensures stays { (work : Work) (ends more : List End) (position : ℕ) (artefact : List ℕ) →
        artefact_so_far work ends position ≡ Some artefact →
        artefact_so_far work (ends ++ more) position ≡ Some artefact }
    // The end of a child changes no artefact of the files before its own.
    ensures below { (work : Work) → IsGraph work.graph → (ends : List End) (end : End)
        (position : ℕ) → position < end.position →
        artefact_so_far work (ends ++ end ∷ []) position ≡ artefact_so_far work ends position }
    // The workload of a build is stepwise.
    ensures stepwise { (work : Work) → IsGraph work.graph → IsStepwise (workload_of work) }
{}
