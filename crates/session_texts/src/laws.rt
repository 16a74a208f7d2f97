//! Laws of unsaved texts and of overlays, as functions with empty bodies: a caller cites one by calling it.

ghost use Rattle.std.specs.Prelude.{◌≡◌, ◌+◌, ℕ, List, [], ◌∷◌, IsTrue, Option, Some, None, Contains, filter, length, if◌then◌else◌};
ghost use Rattle.std.specs.Str.{bytes_eq};
ghost use Rattle.base.specs.declared.file.NamedText.{NamedText};
ghost use Rattle.outside.specs.Trees.{HoldsSame, IsListOf, IsRising, is_listed};
ghost use Rattle.memory_outside.specs.Trees.{file_at, paths_of};
ghost use Rattle.session_texts.specs.Examples.{OverlayExamples, PathExamples, SizeExamples};
ghost use Rattle.session_texts.specs.Texts.{has_text, named_text, with_text, without_text};
ghost use Rattle.session_texts.specs.OverlayTrees.{overlay_names, overlay_file};

/// The laws of texts: a put and a drop change the text of their path alone.
pub fn laws_of_texts()
    // After a put a path has the new text, and other paths have theirs.
    ensures put { (path text other : List ℕ) (texts : List NamedText) →
        file_at (with_text path text texts) other
        ≡ (if bytes_eq path other then Some text else file_at texts other) }
    // After a drop a path has no text, and other paths have theirs.
    ensures dropped { (path other : List ℕ) (texts : List NamedText) →
        IsRising (paths_of texts) →
        file_at (without_text path texts) other
        ≡ (if bytes_eq path other then None else file_at texts other) }
    // A put keeps the paths in rising order.
    ensures put_rises { (path text : List ℕ) (texts : List NamedText) →
        IsRising (paths_of texts) → IsRising (paths_of (with_text path text texts)) }
    // A drop keeps the paths in rising order.
    ensures drop_rises { (path : List ℕ) (texts : List NamedText) →
        IsRising (paths_of texts) → IsRising (paths_of (without_text path texts)) }
{}

/// The laws of overlays: which paths one lists, and which texts it holds.
pub fn laws_of_overlays()
    // Without unsaved texts an overlay holds and lists what its base does.
    ensures base { (file : List ℕ → Option (List ℕ)) (paths : List (List ℕ)) →
        IsListOf file paths → HoldsSame (overlay_file [] file) file (overlay_names [] paths) paths }
    // A path with an unsaved text is listed once, whether or not the base lists it.
    ensures once { (texts : List NamedText) (paths : List (List ℕ)) (path : List ℕ) →
        IsTrue (has_text texts path) → IsTrue (is_listed path) →
        filter (bytes_eq path) (overlay_names texts paths) ≡ path ∷ [] }
    // A new path is listed beside all paths of the base.
    ensures new { (path text : List ℕ) (paths : List (List ℕ)) → IsRising paths →
        IsTrue (is_listed path) → (Contains paths path → ⊥) →
        length (overlay_names (named_text path text ∷ []) paths) ≡ length paths + 1 }
    // After a put the path has the new text, and the files of other paths stay.
    ensures put { (path text other : List ℕ) (texts : List NamedText)
        (file : List ℕ → Option (List ℕ)) →
        overlay_file (with_text path text texts) file other
        ≡ (if bytes_eq path other then Some text else overlay_file texts file other) }
    // After a drop the path has the file of the base, and the files of other paths stay.
    ensures dropped { (path other : List ℕ) (texts : List NamedText)
        (file : List ℕ → Option (List ℕ)) → IsRising (paths_of texts) →
        overlay_file (without_text path texts) file other
        ≡ (if bytes_eq path other then file other else overlay_file texts file other) }
{}

/// Overlays, paths and sizes of texts, worked out by hand.
pub fn examples_of_texts()
    ensures overlays { OverlayExamples }
    ensures paths { PathExamples }
    ensures sizes { (most : List ℕ) → length most ≡ 4194304 → SizeExamples most }
{}
