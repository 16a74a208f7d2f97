//! Laws of the graph of the generated project and of its clean builds, as functions with empty bodies.

ghost use Rattle.std.specs.Prelude.{◌≡◌, ◌≢◌, ℕ, ◌+◌, ◌<◌, ◌≤◌, Bool, true, false, List, length, map, Contains, slice_get, slice_index, Some};
ghost use Rattle.run_spec.specs.Types.{Entry, Request, Exit};
ghost use Rattle.base.specs.Graphs.{IsGraph};
ghost use Rattle.run_tests.specs.Libraries.{libraries};
ghost use Rattle.generated_project.specs.Files.{unedited};
ghost use Rattle.generated_sources.specs.NumberedFiles.{numbered_graph, uses_number};
ghost use Rattle.generated_laws.specs.Edits.{ChangesFile, IsEdit, MakesAll, clean_file, is_touched, touched_files};
ghost use Rattle.generated_laws.specs.NumberedBuilds.{MakesNumbered, numbered_built};
ghost use Rattle.generated_laws.specs.NumberedExamples.{NumberedExamples};
ghost use Rattle.generated_laws.specs.NumberedGraphs.{AreInOrder, IsEntryOfNumber, ordered_number};
ghost use Rattle.generated_laws.specs.TouchedNumbers.{comes_to, touched_numbers};

/// The files of the generated project, edited or not, are a graph, whatever order they come in.
pub fn laws_of_numbered_graphs()
    ensures graph { (count edited : ℕ) (command : List (List ℕ)) (numbers order : List ℕ) →
        AreInOrder count command numbers order →
        IsGraph (numbered_graph command edited numbers order) }
    // It has the bench and all packages, each once,
    ensures count { (count edited : ℕ) (command : List (List ℕ)) (numbers order : List ℕ) →
        AreInOrder count command numbers order →
        length (numbered_graph command edited numbers order) ≡ count + 1 }
    ensures every { (count : ℕ) (command : List (List ℕ)) (numbers order : List ℕ) (number : ℕ) →
        AreInOrder count command numbers order → number ≤ count →
        (position : ℕ) × (position < count + 1)
        × (ordered_number numbers order position ≡ number) }
    // with the name, the command and the text of its number.
    ensures entries { (count edited : ℕ) (command : List (List ℕ)) (numbers order : List ℕ) →
        AreInOrder count command numbers order → (position : ℕ) (entry : Entry) →
        slice_get (numbered_graph command edited numbers order) position ≡ Some entry →
        (ordered_number numbers order position ≤ count)
        × IsEntryOfNumber command edited (ordered_number numbers order position) entry }
    // What a file uses comes before it, and is among its dependencies.
    ensures uses { (count edited : ℕ) (command : List (List ℕ)) (numbers order : List ℕ) →
        AreInOrder count command numbers order → (position : ℕ) (entry : Entry) (used : ℕ) →
        slice_get (numbered_graph command edited numbers order) position ≡ Some entry →
        uses_number (ordered_number numbers order position) used ≡ true →
        (earlier : ℕ) × (earlier < position) × Contains entry.deps earlier
        × (ordered_number numbers order earlier ≡ used) }
    // The edit of one package is one of the graph.
    ensures edit { (count edited : ℕ) (command : List (List ℕ)) (numbers order : List ℕ)
        (position : ℕ) → AreInOrder count command numbers order → position < count + 1 →
        ordered_number numbers order position ≡ edited →
        IsEdit position (numbered_graph command unedited numbers order)
        (numbered_graph command edited numbers order) }
{}

/// Where a compiler makes the artefact of each number, a clean build of the generated project makes all files.
pub fn laws_of_numbered_builds()
    ensures makes { (count edited : ℕ) (command : List (List ℕ)) (numbers order : List ℕ)
        (artefact : (number : ℕ) → (noted : Bool) → List ℕ) (answer : Request → Exit) →
        AreInOrder count command numbers order → MakesNumbered count command artefact answer →
        MakesAll answer (numbered_graph command edited numbers order) }
    // Each has the artefact of its number.
    ensures file { (count edited : ℕ) (command : List (List ℕ)) (numbers order : List ℕ)
        (artefact : (number : ℕ) → (noted : Bool) → List ℕ) (answer : Request → Exit)
        (position : ℕ) → AreInOrder count command numbers order →
        MakesNumbered count command artefact answer → position < count + 1 →
        clean_file answer (numbered_graph command edited numbers order) position
        ≡ Some (numbered_built artefact edited (ordered_number numbers order position)) }
    // The edit of one package changes its file, where it changes the artefact.
    ensures changes { (count edited : ℕ) (command : List (List ℕ)) (numbers order : List ℕ)
        (artefact : (number : ℕ) → (noted : Bool) → List ℕ) (answer : Request → Exit)
        (position : ℕ) → AreInOrder count command numbers order →
        MakesNumbered count command artefact answer → 1 ≤ edited → position < count + 1 →
        ordered_number numbers order position ≡ edited →
        artefact edited true ≢ artefact edited false →
        ChangesFile answer position (numbered_graph command unedited numbers order)
        (numbered_graph command edited numbers order) }
    // The libraries are all files with their artefacts, in compile order,
    ensures libraries { (count edited : ℕ) (command : List (List ℕ)) (numbers order : List ℕ)
        (artefact : (number : ℕ) → (noted : Bool) → List ℕ) (answer : Request → Exit) →
        AreInOrder count command numbers order → MakesNumbered count command artefact answer →
        libraries answer (numbered_graph command edited numbers order)
        ≡ map (λ file. numbered_built artefact edited (slice_index numbers file)) order }
    // with the bench and each package among them.
    ensures every { (count edited : ℕ) (command : List (List ℕ)) (numbers order : List ℕ)
        (artefact : (number : ℕ) → (noted : Bool) → List ℕ) (answer : Request → Exit)
        (number : ℕ) → AreInOrder count command numbers order →
        MakesNumbered count command artefact answer → number ≤ count →
        Contains (libraries answer (numbered_graph command edited numbers order))
        (numbered_built artefact edited number) }
{}

/// The edit of a package touches exactly its file and the files that use it, directly or through other packages.
pub fn laws_of_touched_numbers()
    ensures which { (count edited : ℕ) (command : List (List ℕ)) (numbers order : List ℕ)
        (position other : ℕ) → AreInOrder count command numbers order →
        position < count + 1 → other < count + 1 →
        ordered_number numbers order position ≡ edited →
        is_touched (numbered_graph command unedited numbers order) position other
        ≡ comes_to count edited (ordered_number numbers order other) }
    // There are `touched_numbers` of them.
    ensures count { (count edited : ℕ) (command : List (List ℕ)) (numbers order : List ℕ)
        (position : ℕ) → AreInOrder count command numbers order → position < count + 1 →
        ordered_number numbers order position ≡ edited →
        touched_files (numbered_graph command unedited numbers order) position
        ≡ touched_numbers count edited }
{}

/// The graphs of two and of three packages, and how many files edits touch, worked out by hand.
pub fn examples_of_numbers()
    ensures { NumberedExamples }
{}
