//! The law of histories, of the program.

ghost use Rattle.std.specs.Prelude.{ℕ, List};
ghost use Rattle.base.specs.declared.child.Exit.{Exit};
ghost use Rattle.base.specs.declared.child.Request.{Request};
ghost use Rattle.outside.specs.Disks.{settled_disk};
ghost use Rattle.run_spec.specs.Histories.{Sources, empty_image};
ghost use Rattle.vhdl_spec.specs.Scans.{Finding};
ghost use Rattle.run_tests.specs.Histories.{HistoryStep, IsHistory};
ghost use Rattle.run_tests.specs.Rights.{AllRight};
ghost use Rattle.vunit_top.specs.Runs.{world_of};

/// What holds of every history of runs of the program, edits of the sources, and stops.
pub fn laws_of_program()
    // From an empty disk, whose store holds no record, each run is right with its tests. Whatever a stop can leave has only
    // true records. Each start of a compiler sends the request that a clean build of the sources sends for this file. Each
    // start of a test, also in a run that is stopped, is over the libraries of that clean build.
    ensures from_empty { (scan : List ℕ → Finding) (compiler : Request → Exit) (sources : Sources)
        (steps : List HistoryStep) →
        IsHistory (world_of scan compiler) sources (settled_disk empty_image) steps →
        AllRight (world_of scan compiler) sources (settled_disk empty_image) steps }
{}
