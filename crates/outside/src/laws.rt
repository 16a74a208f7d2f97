//! The laws of commits by number, and of the phases of a run over a store.

ghost use Rattle.std.specs.Prelude.{◌≡◌, ◌+◌, ◌≤◌, ◌++◌, [], ◌∷◌, ℕ, Bool, true, false, not, List, length};
ghost use Rattle.std.specs.Bool.{OnTrue};
ghost use Rattle.std.specs.List.{AllByRecursion};
ghost use Rattle.outside.specs.Records.{Record};
ghost use Rattle.outside.specs.Disks.{DiskState, Image, Moments, IsImage, IsDurable, IsEither, AreSound, EachImage, AtAnyMoment, NeverLoses, Follows, OpensWith, added_since, reads_of};
ghost use Rattle.outside.specs.Records.{IsAllOrLatest};
ghost use Rattle.outside.specs.Commits.{CommitsFirst, one_if};
ghost use Rattle.outside.specs.Phases.{HasPhases, IsOpening, IsCommitting, IsBase, HasBaseAndPrefix};

/// How commits add up, from what a store says of each.
pub fn laws_of_commits()
    // At first nothing is committed, where each image has the records from before.
    ensures nothing { (before more : List Record) (records_of : Image → List Record)
        (moments : Moments) →
        EachImage (λ image. records_of image ≡ before) moments.now →
        CommitsFirst 0 false before more records_of moments moments }
    // One commit, by what a store says of it: `ok` is whether it answered that the record is there.
    ensures one { (before : List Record) (one : Record) (records_of : Image → List Record)
        (old new : Moments) → AreSound new →
        AtAnyMoment old new (λ image. IsEither (records_of image) before (before ++ one ∷ [])) →
        NeverLoses old new (λ image. records_of image ≡ before ++ one ∷ []) →
        (ok : Bool) →
        OnTrue ok (EachImage (λ image. records_of image ≡ before ++ one ∷ []) new.now) →
        CommitsFirst (one_if ok) (not ok) before (one ∷ []) records_of old new }
    // After some commits that are all acknowledged, more are added to them.
    ensures more { (acknowledged : ℕ) (was_broken broken : Bool) (before xs ys : List Record)
        (records_of : Image → List Record) (old middle new : Moments) →
        CommitsFirst (length xs) was_broken before xs records_of old middle →
        CommitsFirst acknowledged broken (before ++ xs) ys records_of middle new →
        CommitsFirst (length xs + acknowledged) broken before (xs ++ ys) records_of old new }
{}

/// The phases of a run, from what a store says of its opening and its commits.
pub fn laws_of_phases()
    // An opening, whatever it answered,
    ensures failed { (records_of : Image → List Record) (clean : Bool) (more : List Record)
        (old new : Moments) →
        OpensWith old new (λ image.
        IsAllOrLatest (records_of (reads_of old.now)) (records_of image)) →
        HasPhases records_of clean 0 more old.now (added_since old new) }
    // and one after which the store is open;
    ensures opened { (records_of : Image → List Record) (clean : Bool) (old new : Moments) →
        OpensWith old new (λ image.
        IsAllOrLatest (records_of (reads_of old.now)) (records_of image)) →
        IsAllOrLatest (records_of (reads_of old.now)) (records_of (reads_of new.now)) →
        IsDurable new.now → IsOpening records_of clean old.now (added_since old new) }
    // one that empties the disk, whatever it answered,
    ensures emptying { (records_of : Image → List Record) (more : List Record)
        (old new : Moments) →
        OpensWith old new (λ image.
        IsEither (records_of image) (records_of (reads_of old.now)) []) →
        HasPhases records_of true 0 more old.now (added_since old new) }
    // and one after which the store is open;
    ensures emptied { (records_of : Image → List Record) (old new : Moments) →
        OpensWith old new (λ image.
        IsEither (records_of image) (records_of (reads_of old.now)) []) →
        records_of (reads_of new.now) ≡ [] → IsDurable new.now →
        IsOpening records_of true old.now (added_since old new) }
    // and commits after these.
    ensures committed { (records_of : Image → List Record) (clean : Bool) (acknowledged : ℕ)
        (broken : Bool) (more base : List Record) (old middle new : Moments) →
        Follows old middle → IsOpening records_of clean old.now (added_since old middle) →
        IsBase records_of clean old.now base →
        CommitsFirst acknowledged broken base more records_of middle new →
        IsCommitting records_of clean acknowledged broken more old.now (added_since old new) }
    // Through all phases an image has records from before, and a prefix of what is committed.
    ensures gives { (records_of : Image → List Record) (clean : Bool) (more : List Record)
        (first : DiskState) → IsImage first (reads_of first) →
        (acknowledged : ℕ) (later : List DiskState) →
        HasPhases records_of clean acknowledged more first later →
        AllByRecursion (EachImage (HasBaseAndPrefix records_of clean more first))
        (first ∷ later) }
{}
