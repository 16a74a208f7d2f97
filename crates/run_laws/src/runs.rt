//! The laws of a run, whatever disk it finds, and of what a stop leaves.

ghost use Rattle.std.specs.Prelude.{◌≡◌, ◌⊎◌, ℕ, Bool, ◌<◌, ◌++◌, [], ◌∷◌, false, List, length, slice_get, Some};
ghost use Rattle.std.specs.List.{AllByRecursion};
ghost use Rattle.run_spec.specs.Types.{FileName, Entry, Request, Event};
ghost use Rattle.base.specs.declared.child.Event.TheVariants.{Started};
ghost use Rattle.outside.specs.Disks.{DiskState, Image, IsImage, reads_of, settled_disk};
ghost use Rattle.outside.specs.Records.{Record, deps_at, latest};
ghost use Rattle.outside.specs.Commits.{last_state};
ghost use Rattle.outside.specs.Phases.{IsCommitting};
ghost use Rattle.run_spec.specs.ChildJournal.{built_at};
ghost use Rattle.run_spec.specs.Commits.{record_at, commits};
ghost use Rattle.run_spec.specs.Histories.{World, Order, ProgramRun, RunStep, IsBuildRun, IsReadable, IsMoment, IsLeft, work_over};
ghost use Rattle.run_laws.specs.Spares.{IsAcknowledged, HasFile, HasFileAsked};

/// What holds within one run, whatever disk it finds.
pub fn laws_of_runs()
    // A record with the request that is due for its file stays acknowledged from any moment on at which it is acknowledged. In a run
    // that rebuilds everything, this holds of a record that reads didn't give as the latest of its name before the run.
    ensures lasts { (world : World) (order : Order) (run : ProgramRun) (first : DiskState)
        (name : FileName) (kept : Record) → IsReadable first →
        RunStep world (Some order) run first →
        HasFileAsked world order first name kept.asked →
        (order.clean ≡ false)
        ⊎ (latest name (world.records_of (reads_of first)) ≡ Some kept → ⊥) →
        (moment : DiskState) (is : IsMoment moment first run.later) →
        IsAcknowledged world name kept moment →
        AllByRecursion (IsAcknowledged world name kept) (moment ∷ is.after) }
    // In any run, such a record stays acknowledged from any moment on that comes after the opening of the store.
    ensures lasts_anew { (world : World) (order : Order) (run : ProgramRun) (first : DiskState)
        (name : FileName) (kept : Record) (acknowledged : ℕ) (broken : Bool)
        (committing : IsCommitting world.records_of order.clean acknowledged broken
        (commits (work_over world.records_of order first) run.events) first run.later) →
        IsReadable first → IsBuildRun world order run first →
        HasFileAsked world order first name kept.asked →
        (moment : DiskState)
        (is : IsMoment moment (last_state first committing.opening) committing.committing) →
        IsAcknowledged world name kept moment →
        AllByRecursion (IsAcknowledged world name kept) (moment ∷ is.after) }
    // If each file has an acknowledged record over given artefacts of all files, and the run doesn't rebuild everything, nothing is
    // started.
    ensures fresh { (world : World) (order : Order) (run : ProgramRun) (first : DiskState)
        (artefact_of : ℕ → List ℕ) → IsReadable first → RunStep world (Some order) run first →
        order.clean ≡ false →
        ((position : ℕ) (entry : Entry) → slice_get order.graph position ≡ Some entry →
        IsAcknowledged world entry.name (record_at order.graph position
        (built_at order.graph (λ p. Some (artefact_of p)) (deps_at order.graph position))
        (artefact_of position)) first) → run.events ≡ [] }
    // A commit is acknowledged at the end of the run if fewer commits come before it than the run acknowledges.
    ensures acknowledged { (world : World) (order : Order) (run : ProgramRun) (first : DiskState)
        (build : IsBuildRun world order run first) (name : FileName) (only : Record)
        (before after : List Record) → HasFile order name → only.asked.name ≡ name →
        commits (work_over world.records_of order first) run.events ≡ before ++ only ∷ after →
        length before < build.acknowledged →
        IsAcknowledged world name only (last_state first run.later) }
    // Each commit of a child that ended before the last start is acknowledged too.
    ensures before_starts { (world : World) (order : Order) (run : ProgramRun)
        (first : DiskState) → IsBuildRun world order run first →
        (name : FileName) (only : Record) → HasFile order name → only.asked.name ≡ name →
        (before rest : List Event) (ticket : ℕ) (request : Request) →
        run.events ≡ before ++ Started ticket request ∷ rest →
        (earlier later : List Record) →
        commits (work_over world.records_of order first) before ≡ earlier ++ only ∷ later →
        IsAcknowledged world name only (last_state first run.later) }
{}

/// What a stop can leave.
pub fn laws_of_stops()
    // A kill of the program leaves the disk of that moment.
    ensures kill { (moment : DiskState) → IsReadable moment → IsLeft moment moment }
    // A loss of power leaves one of the images of the moment.
    ensures power { (moment : DiskState) (image : Image) → IsImage moment image →
        IsLeft moment (settled_disk image) }
{}
