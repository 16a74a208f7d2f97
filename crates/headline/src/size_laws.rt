//! Laws of the answer and the text for the generated project of each size, as functions with empty bodies.

ghost use Rattle.std.specs.Prelude.{◌≡◌, ◌<◌, ◌≤◌, ◌^◌, ℕ, List, Ok};
ghost use Rattle.base.specs.declared.child.Event.{Event};
ghost use Rattle.base.specs.declared.child.Exit.{Exit};
ghost use Rattle.base.specs.declared.child.Request.{Request};
ghost use Rattle.base_outcomes.specs.declared.outcome.Outcome.{Outcome};
ghost use Rattle.memory_children.specs.OneAnswer.{IsLoopAnswer};
ghost use Rattle.project_file.specs.Csv.{listed_command};
ghost use Rattle.vhdl_spec.specs.Scans.{Finding, IsScanner};
ghost use Rattle.vunit_top.specs.Generated.{GeneratesAs};
ghost use Rattle.generated_laws.specs.NumberedBuilds.{MakesNumbered};
ghost use Rattle.generated_runs.specs.Ran.{RanGenerated};
ghost use Rattle.generated_runs.specs.Sources.{first_reading, second_reading};
ghost use Rattle.generated_runs.specs.declared.options.GenerateOptions.{GenerateOptions};
ghost use Rattle.generated_runs.specs.declared.options.GeneratedSaid.{GeneratedSaid};
ghost use Rattle.headline.specs.SaidOfSizes.{IsAnsweredInFull, made_artefact, said_of_size};
ghost use Rattle.headline.specs.SizeExamples.{SizeExamples};

use outside::Sink;

/// The compiler that is part of the program makes the artefact of each file of the generated project.
pub fn laws_of_made_numbers()
    ensures { (answer : Request → Exit) (count : ℕ) → IsLoopAnswer answer → count < 2 ^ 64 →
        MakesNumbered count listed_command made_artefact answer }
{}

/// Laws of runs that generate a project of up to 4,095 packages, with the built-in compiler and simulator as children. If no
/// fault ends the run, it puts the four lines with these numbers, and the answer is `Done`.
pub fn laws_of_generated_projects<O: Sink>()
    // By what both builds and the tests did,
    ensures said { (scan : List ℕ → Finding) (answer : Request → Exit) (options : GenerateOptions)
        (said : GeneratedSaid) (events : List Event) →
        IsScanner scan → IsLoopAnswer answer → 1 ≤ options.packages → options.packages ≤ 4095 →
        RanGenerated answer options
        (first_reading scan options) (second_reading scan options) (Ok said) events →
        said ≡ said_of_size options.packages }
    // and by what a run says of itself.
    ensures answered { (scan : List ℕ → Finding) (answer : Request → Exit)
        (options : GenerateOptions) (result : Outcome) (events : List Event) (old new : List ℕ) →
        IsScanner scan → IsLoopAnswer answer → 1 ≤ options.packages → options.packages ≤ 4095 →
        GeneratesAs scan answer options result O.tells events old new →
        IsAnsweredInFull options.packages result O.tells old new }
{}

/// The lines of three sizes, worked out by hand.
pub fn examples_of_sizes()
    ensures { SizeExamples }
{}
