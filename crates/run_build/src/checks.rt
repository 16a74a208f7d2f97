//! The check of one file.

ghost use Rattle.std.specs.Prelude.{◌≡◌, ◌↔◌, ◌<◌, [], ℕ, Bool, List, Option, length, All, IsTrue};
ghost use Rattle.base.specs.declared.child.Event.{Event};
ghost use Rattle.outside.specs.Records.{IsRecorded, deps_at};
ghost use Rattle.run_scheduler.specs.declared.step.BuildStep.TheVariants.{Check};
ghost use Rattle.run_scheduler.specs.Machines.{next_of, tickets_of, files_of, to_come};
ghost use Rattle.run_spec.specs.declared.fault.RunFault.{RunFault};
ghost use Rattle.run_build.specs.UnderWay.{Origin, BuildState, IsUnderWay};

use base::Graph;
use outside::Records;
use run_scheduler::BuildScheduler;
use run_spec::FileStatus;

/// Checks the file that the machine gives, and says whether its record is current, so that it is fresh; else it is to be
/// compiled. All that it depends on is recorded.
pub(crate) fn check_one<K: Records>(
    graph: &Graph,
    at: u32,
    store: &K,
    scheduler: &mut BuildScheduler,
    statuses: &mut Vec<FileStatus>,
) -> bool
    requires step { next_of scheduler.old ≡ Check at }
    requires position { at < length graph.now }
    requires count { length statuses.old.items ≡ length graph.now }
    requires over { K.is_over store.now graph.now }
    requires recorded { All (IsRecorded (K.latest_of store.now) graph.now) (deps_at graph.now at) }
    ensures fits { IsTrue result ↔ IsRecorded (K.latest_of store.now) graph.now at }
    ensures files { files_of scheduler.new ≡ files_of scheduler.old }
    ensures tickets { tickets_of scheduler.new ≡ tickets_of scheduler.old }
    ensures nearer { to_come scheduler.new < to_come scheduler.old }
    ensures goes { (from : Origin) (events : List Event) (acknowledged : ℕ)
        (first_fault : Option RunFault) (broken : Bool) →
        let before : BuildState = record {
          machine = scheduler.old;
          statuses = statuses.old.items;
          first_fault = first_fault;
          latest_of = K.latest_of store.now;
          broken = broken;
        } in
        let after : BuildState = record {
          machine = scheduler.new;
          statuses = statuses.new.items;
          first_fault = first_fault;
          latest_of = K.latest_of store.now;
          broken = broken;
        } in
        IsUnderWay graph.now from events acknowledged before →
        IsUnderWay graph.now from events acknowledged after }
{
    let fresh = store.is_current(graph, at);
    scheduler.record_check(at, fresh);
    if fresh {
        statuses[at as usize] = FileStatus::Fresh;
    }
    fresh
}
