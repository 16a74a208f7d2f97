//! The laws of histories, as functions with an empty body: a caller cites one by calling it.

ghost use Rattle.std.specs.Prelude.{◌≡◌, ◌⊎◌, ◌↔◌, [], ◌∷◌, ◌++◌, false, List, Some};
ghost use Rattle.run_spec.specs.Types.{FileName, Request, Exit, Event};
ghost use Rattle.base.specs.Graphs.{IsGraph};
ghost use Rattle.outside.specs.Records.{Record, latest};
ghost use Rattle.outside.specs.Disks.{DiskState, Image, reads_of, settled_disk};
ghost use Rattle.run_spec.specs.ChildJournal.{Lawful, Answered};
ghost use Rattle.run_spec.specs.Faithful.{IsFaithfulDisk};
ghost use Rattle.run_spec.specs.Histories.{Order, World, ProgramRun, Sources, IsMoment, IsReadable, empty_image, work_over};
ghost use Rattle.run_spec.specs.TestJournal.{TestPlan};
ghost use Rattle.run_laws.specs.Spares.{IsAcknowledged, HasFileAsked};
ghost use Rattle.run_tests.specs.Histories.{Stop, HistoryStep, Stopped, HasTested, IsHistory, disk_after, sources_after};
ghost use Rattle.run_tests.specs.Rights.{AreRightTests, AllRight};
ghost use Rattle.run_tests.specs.Spares.{AllSpare};

/// What holds of every history of runs with their tests, edits of the sources, and stops by a loss of power or a kill of the
/// program, with any number of children at once. The compiler is one function of its requests; simulators may answer anything.
pub fn laws_of_histories()
    // From a disk with only true records, each run is right with its tests. Whatever a stop can leave has only true records. Each
    // request to a compiler is that of a clean build of the sources of the run. Each test, also in a run that is stopped, starts
    // over the libraries of that clean build.
    ensures right { (world : World) (sources : Sources) (disk : DiskState)
        (steps : List HistoryStep) → IsReadable disk →
        IsFaithfulDisk world.compiler world.records_of disk →
        IsHistory world sources disk steps → AllRight world sources disk steps }
    // The same holds from an empty disk.
    ensures from_empty { (world : World) (sources : Sources) (steps : List HistoryStep) →
        world.records_of empty_image ≡ [] →
        IsHistory world sources (settled_disk empty_image) steps →
        AllRight world sources (settled_disk empty_image) steps }
    // Whatever the records of the disk say, no run starts a file whose acknowledged record has the request that is due for it. This
    // holds until a run rebuilds everything, or commits a record of the name without that request being due.
    ensures spares { (world : World) (sources : Sources) (disk : DiskState)
        (steps : List HistoryStep) (name : FileName) (kept : Record) → IsReadable disk →
        IsAcknowledged world name kept disk →
        IsHistory world sources disk steps → AllSpare world name kept sources disk steps }
    // After a stop, the same holds of each record that was acknowledged at the moment of the stop.
    ensures stopped { (world : World) (sources : Sources) (disk : DiskState) (run : ProgramRun)
        (stop : Stop) (steps : List HistoryStep) (name : FileName) (kept : Record) →
        IsHistory world sources disk (Stopped run stop ∷ steps) →
        IsAcknowledged world name kept stop.moment →
        AllSpare world name kept sources stop.disk steps }
    // It also holds of a record that was acknowledged at an earlier moment of the run and has the request that is due for its file.
    // If the run rebuilds everything, reads must not have given the record as the latest of its name before the run.
    ensures stopped_since { (world : World) (sources : Sources) (disk : DiskState)
        (run : ProgramRun) (stop : Stop) (steps : List HistoryStep) (order : Order)
        (name : FileName) (kept : Record) → IsReadable disk →
        IsHistory world sources disk (Stopped run stop ∷ steps) →
        world.reading run.words sources ≡ Some order →
        HasFileAsked world order disk name kept.asked →
        (order.clean ≡ false)
        ⊎ (latest name (world.records_of (reads_of disk)) ≡ Some kept → ⊥) →
        (moment : DiskState) (is : IsMoment moment disk run.later) →
        IsAcknowledged world name kept moment → IsMoment stop.moment moment is.after →
        AllSpare world name kept sources stop.disk steps }
    // Two lists of steps, one after the other, are a history exactly if each is one: the later list from the sources and the disk
    // that the earlier list leaves.
    ensures joined { (world : World) (sources : Sources) (disk : DiskState)
        (steps more : List HistoryStep) → IsHistory world sources disk (steps ++ more)
        ↔ (IsHistory world sources disk steps
        × IsHistory world (sources_after sources steps) (disk_after disk steps) more) }
    // Within one run: from a disk of true records the tests that follow a lawful build are right.
    ensures tests { (compiler : Request → Exit) (records_of : Image → List Record)
        (order : Order) (plan : TestPlan) (first : DiskState) (compiled tests : List Event) →
        IsReadable first → IsFaithfulDisk compiler records_of first → IsGraph order.graph →
        Lawful (work_over records_of order first) compiled → Answered compiler compiled →
        HasTested order plan (work_over records_of order first) compiled tests →
        AreRightTests compiler order plan tests }
{}
