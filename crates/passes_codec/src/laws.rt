//! Laws of payloads of passes and of their table, as functions with empty bodies.

ghost use Rattle.std.specs.Prelude.{◌≡◌, ◌↔◌, ℕ, List, Some, true, All, length};
ghost use Rattle.base_bytes.specs.Reading.{AreBytes};
ghost use Rattle.passes_spec.specs.Passes.{Pass, last_passes};
ghost use Rattle.passes_codec.specs.Compaction.{FitsPass, IsNumberable, compacted_passes, compacted_table};
ghost use Rattle.passes_codec.specs.Forms.{PassDraft, HasPassSpelling, pass_bytes, pass_in};
ghost use Rattle.passes_codec.specs.PassTables.{AreNumberedOnce, IsValidPass, PassTable, after_pass_payload, is_valid_pass, pass_table_of, passes_among, with_pass};

/// Laws of the bytes of payloads of passes.
pub fn laws_of_pass_payloads()
    // Bytes that spell a pass are the bytes of that pass,
    ensures takes { (bytes : List ℕ) (draft : PassDraft) → AreBytes bytes →
        pass_in bytes ≡ Some draft →
        (bytes ≡ pass_bytes draft) × HasPassSpelling draft }
    // and the bytes of a pass spell it.
    ensures again { (draft : PassDraft) → HasPassSpelling draft →
        pass_in (pass_bytes draft) ≡ Some draft }
{}

/// Laws of the table of payloads: its texts, lists and passes.
pub fn laws_of_pass_tables()
    // Whatever the payloads, no text and no list has two numbers.
    ensures once { (payloads : List (List ℕ)) → AreNumberedOnce (pass_table_of payloads) }
    // The test of a spelled pass decides whether it is valid.
    ensures pass { (table : PassTable) (draft : PassDraft) →
        (is_valid_pass table draft ≡ true) ↔ IsValidPass table draft }
    // A valid payload adds its pass, its list and the artefacts of that list, if these are new.
    ensures adds { (table : PassTable) (draft : PassDraft) → IsValidPass table draft →
        HasPassSpelling draft →
        after_pass_payload table (pass_bytes draft) ≡ with_pass table draft }
{}

/// Laws of the payloads that compaction keeps.
pub fn laws_of_compacted_passes()
    // The parts of each pass of a table of payloads are within their limits.
    ensures sizes { (payloads : List (List ℕ)) → All FitsPass (passes_among payloads) }
    // The table of the payloads has the last pass of the same tests of these passes, in order,
    ensures last { (passes : List Pass) → All FitsPass passes →
        IsNumberable (compacted_table passes) →
        pass_table_of (compacted_passes passes) ≡ compacted_table passes }
    ensures passes { (passes : List Pass) →
        (compacted_table passes).passes ≡ last_passes passes }
    // one payload for each, so that none is dead.
    ensures each { (passes : List Pass) →
        length (compacted_passes passes) ≡ length (last_passes passes) }
    // Compaction of the last passes gives the same payloads.
    ensures again { (passes : List Pass) →
        compacted_passes (last_passes passes) ≡ compacted_passes passes }
    // The table of payloads has a number for each text and list, if the table before did.
    ensures numbers { (payloads : List (List ℕ)) →
        IsNumberable (pass_table_of payloads) →
        IsNumberable (compacted_table (passes_among payloads)) }
{}
