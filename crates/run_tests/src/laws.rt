//! Laws of what tests start over and of how they end, as functions with an empty body: a caller cites one by calling it.

ghost use Rattle.std.specs.Prelude.{◌≡◌, [], true, false, Bool, List, Result};
ghost use Rattle.std.specs.List.{list_all};
ghost use Rattle.run_spec.specs.Types.{Request, Exit, Event};
ghost use Rattle.base.specs.Graphs.{IsGraph};
ghost use Rattle.outside.specs.Records.{Record};
ghost use Rattle.outside.specs.Disks.{Image, Moments};
ghost use Rattle.run_spec.specs.ChildJournal.{Work, Lawful, Answered};
ghost use Rattle.run_spec.specs.CleanBuild.{RecordsClean};
ghost use Rattle.run_spec.specs.Faithful.{IsFaithfulDisk};
ghost use Rattle.run_spec.specs.Statuses.{statuses_of};
ghost use Rattle.run_spec.specs.Histories.{Order, IsReadable, work_over};
ghost use Rattle.run_build.specs.Ran.{built_by, is_made};
ghost use Rattle.run_spec.specs.declared.fault.RunFault.{RunFault};
ghost use Rattle.run_spec.specs.TestJournal.{TestPlan, TestSetting, IsWholeTests};
ghost use Rattle.run_tests.specs.declared.build_and_test.Tested.{Tested};
ghost use Rattle.run_tests.specs.Tested.{TestsOver, setting_after};
ghost use Rattle.run_tests.specs.Libraries.{libraries};
ghost use Rattle.run_tests.specs.Results.{test_ends, steady_ends};

/// What holds of the files that tests start over.
pub fn laws_of_libraries()
    // If the current records are clean, and all files are made in the end, the built files are the libraries of a clean build.
    ensures built { (answer : Request → Exit) (work : Work) → IsGraph work.graph →
        RecordsClean answer work.graph work.current → (events : List Event) →
        Lawful work events → Answered answer events →
        list_all is_made (statuses_of work events) ≡ true →
        built_by work events ≡ libraries answer work.graph }
    // From a disk of true records, each test starts over these libraries, whatever the result is.
    ensures tests { (records_of : Image → List Record) (answer : Request → Exit) (order : Order)
        (plan : TestPlan) (result : Result Tested RunFault) (failed : Bool)
        (old new : Moments) (events : List Event) →
        IsReadable old.now →
        IsFaithfulDisk answer records_of old.now →
        (over : TestsOver records_of answer order plan result failed old new events) →
        (over.tests ≡ [] → ⊥) →
        (setting_after order plan (work_over records_of order old.now) over.compiled).built
        ≡ libraries answer order.graph }
{}

/// What holds of the ends of tests that ended by themselves, without `--fail-fast`.
pub fn laws_of_test_ends()
    // The end of each run is that of the answer to its request, whatever the order of ends, and however many runs there were at
    // once.
    ensures { (answer : Request → Exit) (setting : TestSetting) (events : List Event) →
        setting.plan.fail_fast ≡ false → IsWholeTests setting events → Answered answer events →
        test_ends setting events ≡ steady_ends answer setting.plan setting.built }
{}
