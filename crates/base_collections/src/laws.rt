//! Laws of texts that are told apart by splits, as a function with an empty body.

ghost use Rattle.std.specs.Prelude.{◌≡◌, ◌++◌, ◌∷◌, [], ℕ, List, slice_index_or};
ghost use Rattle.base_collections.specs.declared.splits.Split.{Split};
ghost use Rattle.base_collections.specs.Splits.{AreSplit, Parts, reached};

/// What holds of texts that each come to their own numbers.
pub fn laws_of_splits()
    // The first text has any split,
    ensures first { (text : List ℕ) (split : Split) → AreSplit (text ∷ []) (split ∷ []) }
    // and each later one one that parts it from the text that it comes to.
    ensures more { (texts : List (List ℕ)) (splits : List Split) (text : List ℕ) (split : Split) →
        AreSplit texts splits → split.of ≡ reached splits text →
        Parts (slice_index_or texts split.of []) text split →
        AreSplit (texts ++ text ∷ []) (splits ++ split ∷ []) }
{}
