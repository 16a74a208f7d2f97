//! Laws of the counts in the answer for the generated project, as functions with empty bodies.

ghost use Rattle.std.specs.Prelude.{◌≡◌, ℕ, true, List, length, Ok};
ghost use Rattle.run_spec.specs.Types.{Request, Exit, Event};
ghost use Rattle.run_spec.specs.JournalParts.{compile_part};
ghost use Rattle.run_spec.specs.Statuses.{statuses_of};
ghost use Rattle.run_tests.specs.Libraries.{libraries};
ghost use Rattle.project_reading.specs.Reading.{SourceReading, Found};
ghost use Rattle.project_reading.specs.declared.linking.ReadProject.{ReadProject};
ghost use Rattle.generated_runs.specs.declared.options.GenerateOptions.{GenerateOptions};
ghost use Rattle.generated_runs.specs.declared.options.GeneratedSaid.{GeneratedSaid};
ghost use Rattle.generated_runs.specs.Sources.{first_work, first_records, second_work, plan_of, runs_in};
ghost use Rattle.generated_runs.specs.Said.{tests_of};
ghost use Rattle.generated_runs.specs.Ran.{RanGenerated};
ghost use Rattle.generated_laws.specs.Compiled.{CompilesOnly};
ghost use Rattle.generated_laws.specs.Edits.{MakesAll, ChangesFile, is_touched, touched_files};
ghost use Rattle.generated_laws.specs.Passes.{PassesAll};
ghost use Rattle.generated_laws.specs.Counted.{HavePassed, passed_said};

/// How many files each of two builds compiles, and how many cases pass, where all files are made.
pub fn laws_of_counts()
    // The first build compiles all files.
    ensures first { (answer : Request → Exit) (options : GenerateOptions) (read : ReadProject) →
        MakesAll answer read.graph →
        (reading changed : SourceReading) (said : GeneratedSaid) (events : List Event) →
        reading ≡ Found read →
        (ran : RanGenerated answer options reading changed (Ok said) events) →
        CompilesOnly read.graph (λ position. true) (length read.graph)
        (statuses_of (first_work options read.graph) ran.first) }
    // The second build compiles exactly the edited file and its dependents.
    ensures second { (answer : Request → Exit) (options : GenerateOptions)
        (read again : ReadProject) (edited : ℕ) →
        MakesAll answer read.graph → MakesAll answer again.graph →
        ChangesFile answer edited read.graph again.graph →
        (reading changed : SourceReading) (said : GeneratedSaid) (events : List Event) →
        reading ≡ Found read → changed ≡ Found again →
        (ran : RanGenerated answer options reading changed (Ok said) events) →
        let records = first_records options read.graph ran.first in
        let work = second_work options records again.graph in
        CompilesOnly read.graph (is_touched read.graph edited) (touched_files read.graph edited)
        (statuses_of work (compile_part ran.second)) }
    // Where the simulator passes all runs, all cases pass.
    ensures passed { (answer : Request → Exit) (options : GenerateOptions)
        (read again : ReadProject) →
        MakesAll answer read.graph → MakesAll answer again.graph →
        PassesAll answer (plan_of again) (libraries answer again.graph) →
        (reading changed : SourceReading) (said : GeneratedSaid) (events : List Event) →
        reading ≡ Found read → changed ≡ Found again →
        (ran : RanGenerated answer options reading changed (Ok said) events) →
        let records = first_records options read.graph ran.first in
        let work = second_work options records again.graph in
        HavePassed (runs_in again) (tests_of options again work ran.second) }
    // The text has these counts, and the answer is `Done`.
    ensures said { (answer : Request → Exit) (options : GenerateOptions)
        (read again : ReadProject) (edited : ℕ) →
        MakesAll answer read.graph → MakesAll answer again.graph →
        ChangesFile answer edited read.graph again.graph →
        PassesAll answer (plan_of again) (libraries answer again.graph) →
        (reading changed : SourceReading) (said : GeneratedSaid) (events : List Event) →
        reading ≡ Found read → changed ≡ Found again →
        RanGenerated answer options reading changed (Ok said) events →
        said ≡ passed_said options edited read again }
{}
