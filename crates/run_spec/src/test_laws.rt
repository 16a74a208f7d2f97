//! The laws of journals of tests.

ghost use Rattle.std.specs.Prelude.{◌≡◌, ◌≤◌, length, List};
ghost use Rattle.base.specs.declared.child.Event.{Event};
ghost use Rattle.base.specs.PresentGraph.{below};
ghost use Rattle.run_spec.specs.TestJournal.{TestSetting, LawfulTests, progress_of_tests};

/// Runs are started in order, each at most once.
pub fn laws_of_tests()
    ensures in_order { (setting : TestSetting) (events : List Event) → LawfulTests setting events →
        (progress_of_tests setting events).schedule.taken ≡
        below (length (progress_of_tests setting events).schedule.taken) }
    ensures few { (setting : TestSetting) (events : List Event) → LawfulTests setting events →
        length (progress_of_tests setting events).schedule.taken ≤ length setting.plan.runs }
{}
