//! The laws of the journals of builds, with any number of children at once, whether a build keeps going or not.

ghost use Rattle.std.specs.Prelude.{◌≡◌, ◌≢◌, ◌↔◌, if◌then◌else◌, ℕ, ◌<◌, ◌++◌, [], ◌∷◌, true, false, List, length, slice_get, Some, None, is_some, All, AllPairs, Contains};
ghost use Rattle.std.specs.List.{list_any};
ghost use Rattle.run_spec.specs.Types.{Entry, Request, Exit, Event};
ghost use Rattle.base.specs.declared.child.Event.TheVariants.{Started};
ghost use Rattle.base.specs.Graphs.{IsGraph};
ghost use Rattle.run_spec.specs.ChildJournal.{Work, Lawful, Answered, IsWhole, artefact_after, artefact_so_far, progress_of, next_position};
ghost use Rattle.run_spec.specs.Commits.{commits};
ghost use Rattle.run_spec.specs.Faithful.{IsTrueRecord};
ghost use Rattle.run_spec.specs.JournalParts.{compile_part, test_part};
ghost use Rattle.base.specs.Jobs.{compile_request};
ghost use Rattle.run_spec.specs.CleanBuild.{Made, built_below, is_free, clean_build, clean_request, RecordsClean};
ghost use Rattle.run_spec.specs.Settled.{Blocked, settle, settled_by, artefact_settled, request_unless};
ghost use Rattle.run_spec.specs.Statuses.{statuses_of, steady_statuses, is_refused, NoRefusalHalts};

/// The requests, artefacts and commits of lawful journals, compared with those of the settled build. If the current records are
/// clean (`RecordsClean`), the settled build is compared with the clean build.
pub fn laws_of_journals()
    // All events of a lawful journal are of compilers.
    ensures compiles { (setting : Work) (events : List Event) →
        Lawful setting events → compile_part events ≡ events }
    // No event of a lawful journal is of a test.
    ensures no_tests { (setting : Work) (events : List Event) →
        Lawful setting events → test_part events ≡ [] }
    // If no event of a journal is of a test, all are of compilers.
    ensures parts { (events : List Event) → test_part events ≡ [] → compile_part events ≡ events }
    // Over a graph without files, a lawful journal is empty.
    ensures no_file { (setting : Work) (events : List Event) →
        setting.graph ≡ [] → Lawful setting events → events ≡ [] }
    // If each file has an artefact before any child has ended, a lawful journal is empty.
    ensures fresh { (setting : Work) →
        ((position : ℕ) → position < length setting.graph →
        artefact_so_far setting [] position ≡ None → ⊥) →
        (events : List Event) → Lawful setting events → events ≡ [] }
    // Each prefix of a lawful journal is lawful.
    ensures prefix { (setting : Work) (before rest : List Event) →
        Lawful setting (before ++ rest) → Lawful setting before }
    // Each start has the request that the settled build makes for its file.
    ensures asked { (answer : Request → Exit) (setting : Work) → IsGraph setting.graph →
        (before rest : List Event) (ticket : ℕ) (request : Request) →
        Lawful setting (before ++ Started ticket request ∷ rest) →
        Answered answer (before ++ Started ticket request ∷ rest) →
        (position : ℕ)
        × (next_position setting (progress_of setting before) ≡ Some position)
        × (request_unless answer setting.graph setting.current position ≡ Some request) }
    // The settled build makes a request for each file that was started.
    ensures stale { (answer : Request → Exit) (setting : Work) → IsGraph setting.graph →
        (events : List Event) → Lawful setting events → Answered answer events →
        (position : ℕ) → Contains (progress_of setting events).taken position → (request : Request)
        × (request_unless answer setting.graph setting.current position ≡ Some request) }
    // No file is started twice.
    ensures once { (answer : Request → Exit) (setting : Work)
        (events : List Event) → Lawful setting events → Answered answer events →
        AllPairs (λ position other. position ≢ other) (progress_of setting events).taken }
    // An artefact that a file has after these events is its artefact in the settled build.
    ensures made { (answer : Request → Exit) (setting : Work) → IsGraph setting.graph →
        (events : List Event) → Lawful setting events → Answered answer events →
        (position : ℕ) (artefact : List ℕ) →
        artefact_after setting events position ≡ Some artefact →
        artefact_settled answer setting.graph setting.current position ≡ Some artefact }
    // If the current records are clean, each request of the settled build is that of the clean build.
    ensures clean_asked { (answer : Request → Exit) (setting : Work) → IsGraph setting.graph →
        RecordsClean answer setting.graph setting.current → (position : ℕ) (request : Request) →
        request_unless answer setting.graph setting.current position ≡ Some request →
        clean_request answer setting.graph position ≡ Some request }
    // The settled build makes it for exactly the files that the clean build doesn't block and that lack a current record over the
    // dependencies that the clean build makes.
    ensures clean_exactly { (answer : Request → Exit) (setting : Work) → IsGraph setting.graph →
        RecordsClean answer setting.graph setting.current → (position : ℕ) (entry : Entry) →
        slice_get setting.graph position ≡ Some entry →
        let below = built_below (clean_build answer setting.graph) entry in
        request_unless answer setting.graph setting.current position
        ≡ (if is_some (setting.current position below) then None
        else clean_request answer setting.graph position) }
    // If the current records are clean, the result of a file in the settled build follows from its dependencies in the clean build.
    ensures clean_settled { (answer : Request → Exit) (setting : Work) → IsGraph setting.graph →
        RecordsClean answer setting.graph setting.current → (position : ℕ) (entry : Entry) →
        slice_get setting.graph position ≡ Some entry →
        let clean = clean_build answer setting.graph in
        let below = built_below clean entry in
        settle answer setting.graph setting.current position
        ≡ (if is_free clean entry then settled_by (setting.current position below)
        (Some (answer (compile_request entry below))) else Blocked) }
    // If the current records are clean, an artefact of the settled build is that of the clean build.
    ensures clean_made { (answer : Request → Exit) (setting : Work) → IsGraph setting.graph →
        RecordsClean answer setting.graph setting.current →
        (position : ℕ) (entry : Entry) (artefact : List ℕ) →
        slice_get setting.graph position ≡ Some entry →
        artefact_settled answer setting.graph setting.current position ≡ Some artefact →
        slice_get (clean_build answer setting.graph) position
        ≡ Some (Made (record { name = entry.name; artefact = artefact })) }
    // All commits are true records, whether or not the current records are clean.
    ensures commits { (answer : Request → Exit) (setting : Work) → IsGraph setting.graph →
        (events : List Event) → Lawful setting events → Answered answer events →
        All (IsTrueRecord answer) (commits setting events) }
{}

/// The starts, artefacts and statuses of a build that ended by itself and that no refusal halted. They are those of the settled
/// build, in whatever order the children ended.
pub fn laws_of_whole_builds()
    // The started files are exactly the files for which the settled build makes a request.
    ensures started { (answer : Request → Exit) (setting : Work) → IsGraph setting.graph →
        (events : List Event) → IsWhole setting events → Answered answer events →
        NoRefusalHalts setting events → (position : ℕ) →
        Contains (progress_of setting events).taken position ↔ ((request : Request)
        × (request_unless answer setting.graph setting.current position ≡ Some request)) }
    // The build and the settled build make the same files, with the same artefacts.
    ensures built { (answer : Request → Exit) (setting : Work) → IsGraph setting.graph →
        (events : List Event) → IsWhole setting events → Answered answer events →
        NoRefusalHalts setting events → (position : ℕ) →
        artefact_after setting events position
        ≡ artefact_settled answer setting.graph setting.current position }
    // The statuses are those of the settled build.
    ensures steady { (answer : Request → Exit) (setting : Work) → IsGraph setting.graph →
        (events : List Event) → IsWhole setting events → Answered answer events →
        NoRefusalHalts setting events →
        statuses_of setting events ≡ steady_statuses answer setting.graph setting.current }
    // If no file was refused, all files are made.
    ensures all_made { (answer : Request → Exit) (setting : Work) → IsGraph setting.graph →
        (events : List Event) → IsWhole setting events → Answered answer events →
        list_any is_refused (statuses_of setting events) ≡ false →
        (position : ℕ) → position < length setting.graph →
        is_some (artefact_after setting events position) ≡ true }
{}
