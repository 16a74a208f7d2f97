//! The worked examples that compute, subject by subject.

ghost use Rattle.tests_examples.specs.Graphs.{ListedFiles, Orders, Ways, Views};
ghost use Rattle.tests_examples.specs.Builds.{CompilerRequests, CleanBuilds, CleanRequests};
ghost use Rattle.tests_examples.specs.Recorded.{LatestRecords, AskedFiles, CurrentFiles, BuildCommits, TrueRecords};
ghost use Rattle.tests_examples.specs.Starts.{Journals, NextStarts, LawfulStarts, SoFar, BuildEvents, CompileParts};
ghost use Rattle.tests_examples.specs.JournalSides.{SpelledSides, ImagePayloads};
ghost use Rattle.tests_examples.specs.StoredRequests.{ShelvedRequests, CompactedRequests};
ghost use Rattle.tests_examples.specs.SaidTexts.{FileStatuses, HaltedBuilds};
ghost use Rattle.tests_examples.specs.OutsideObjects.{EndedChildren, SidesOfDisks, LatestAfter};
ghost use Rattle.tests_examples.specs.WordsAndSources.{SettingsOfWords, ReadSources};
ghost use Rattle.tests_examples.specs.AskedTasks.{TasksOfSettings, WholeReadings};
ghost use Rattle.tests_examples.specs.RunReadings.{OrdersOfReadings, EndedRuns, FaultsAnswered};
ghost use Rattle.tests_examples.specs.MadeFiles.{MadeInTheEnd, AnsweredFaults, GivenBeforeLosses, FirstOfTwoFaults, CountedFaults};
ghost use Rattle.tests_examples.specs.BuildHistories.{FoundRecords};
ghost use Rattle.tests_examples.specs.TestedRuns.{TestsSaid, MovesOfTests, EndsOfTests, RunsSaid};

/// The examples of "The graph".
pub fn examples_of_graphs()
    ensures listed_files { ListedFiles }
    ensures orders { Orders }
    ensures ways { Ways }
    ensures views { Views }
{}

/// The examples of "The compiler and the clean build".
pub fn examples_of_builds()
    ensures compiler_requests { CompilerRequests }
    ensures clean_builds { CleanBuilds }
    ensures clean_requests { CleanRequests }
{}

/// The examples of "Records, and what a stop can leave".
pub fn examples_of_recorded()
    ensures latest_records { LatestRecords }
    ensures asked_files { AskedFiles }
    ensures current_files { CurrentFiles }
    ensures build_commits { BuildCommits }
    ensures true_records { TrueRecords }
{}

/// The examples of "What is started".
pub fn examples_of_starts()
    ensures journals { Journals }
    ensures next_starts { NextStarts }
    ensures lawful_starts { LawfulStarts }
    ensures so_far { SoFar }
    ensures build_events { BuildEvents }
    ensures compile_parts { CompileParts }
{}

/// The examples of "The journal of payloads".
pub fn examples_of_journal_sides()
    ensures spelled_sides { SpelledSides }
    ensures image_payloads { ImagePayloads }
{}

/// The examples of "Texts and products stored once".
pub fn examples_of_stored_requests()
    ensures shelved_requests { ShelvedRequests }
    ensures compacted_requests { CompactedRequests }
{}

/// The examples of "Statuses, texts and answers".
pub fn examples_of_said_texts()
    ensures file_statuses { FileStatuses }
    ensures halted_builds { HaltedBuilds }
{}

/// The examples of "The outside".
pub fn examples_of_outside_objects()
    ensures ended_children { EndedChildren }
    ensures sides_of_disks { SidesOfDisks }
    ensures latest_after { LatestAfter }
{}

/// The examples of "Reading: what words and sources say".
pub fn examples_of_words_and_sources()
    ensures settings_of_words { SettingsOfWords }
    ensures read_sources { ReadSources }
{}

/// The examples of "Reading: what words and sources say".
pub fn examples_of_asked_tasks()
    ensures tasks_of_settings { TasksOfSettings }
    ensures whole_readings { WholeReadings }
{}

/// The examples of "What a run of the program did".
pub fn examples_of_run_readings()
    ensures orders_of_readings { OrdersOfReadings }
    ensures ended_runs { EndedRuns }
    ensures faults_answered { FaultsAnswered }
{}

/// The examples of "A build over any store".
pub fn examples_of_made_files()
    ensures made_in_the_end { MadeInTheEnd }
    ensures answered_faults { AnsweredFaults }
    ensures given_before_losses { GivenBeforeLosses }
    ensures first_of_two_faults { FirstOfTwoFaults }
    ensures counted_faults { CountedFaults }
{}

/// The examples of "Histories".
pub fn examples_of_build_histories()
    ensures found_records { FoundRecords }
{}

/// The examples of "Runs of tests".
pub fn examples_of_tested_runs()
    ensures tests_said { TestsSaid }
    ensures moves_of_tests { MovesOfTests }
    ensures ends_of_tests { EndsOfTests }
    ensures runs_said { RunsSaid }
{}
