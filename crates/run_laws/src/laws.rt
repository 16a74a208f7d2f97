//! The laws of clean builds, and of records of what they make.

ghost use Rattle.std.specs.Prelude.{◌≡◌, ℕ, List, slice_get, Option, Some};
ghost use Rattle.std.specs.List.{filter_map};
ghost use Rattle.run_spec.specs.Types.{FileName, Entry, Request, Exit};
ghost use Rattle.base.specs.Graphs.{IsGraph};
ghost use Rattle.base.specs.View.{part};
ghost use Rattle.outside.specs.Records.{Record, latest, latest_alone};
ghost use Rattle.project_views.specs.Parts.{IsPart};
ghost use Rattle.run_spec.specs.CleanBuild.{clean_build, RecordsClean};
ghost use Rattle.run_spec.specs.Faithful.{IsTrueRecord};
ghost use Rattle.run_spec.specs.Recorded.{current_by_request};

/// The results of a clean build for a closed part of a graph, and how they relate to the records of compiled files.
pub fn laws_of_clean_builds()
    // A clean build of a closed part, such as the view of a file, gives the results of a clean build of the whole graph for the
    // files in the part.
    ensures part { (answer : Request → Exit) (graph : List Entry) → IsGraph graph →
        (positions : List ℕ) → IsPart graph positions →
        clean_build answer (part graph positions)
        ≡ filter_map (slice_get (clean_build answer graph)) positions }
    // If the latest records are true, the current records are clean: each has the artefact that a clean build makes.
    ensures clean { (answer : Request → Exit) (latest_of : FileName → Option Record)
        (graph : List Entry) →
        IsGraph graph →
        ((name : FileName) (kept : Record) → latest_of name ≡ Some kept →
        IsTrueRecord answer kept) →
        RecordsClean answer graph (current_by_request latest_of graph) }
    // A name keeps its latest record if only the latest record of each name is kept.
    ensures latest { (name : FileName) (records : List Record) →
        latest name (latest_alone records) ≡ latest name records }
{}
