//! Children: how they are started and waited for, and how each ended.
ghost use Rattle.std.specs.Prelude.{◌≡◌, ℕ, ◌<◌, List, ◌++◌, [], ◌∷◌, length, IfOk, Contains};
ghost use Rattle.base.specs.declared.child.Request.{Request};
ghost use Rattle.base.specs.declared.child.Exit.{Exit};
ghost use Rattle.base.specs.declared.child.Event.{Event};
ghost use Rattle.outside.specs.Counts.{StartCounts, ChildCounts};
ghost use Rattle.outside.specs.Children.{IsFresh, AddsTicket, AddsStart, ended_ticket, without, end_event, AnswersStarted, AnswersStartedPath, FitsExit};

use base::{Exit, Request};
use std::alloc::Global;

/// A child that has ended.
#[derive(Drop)]
pub struct Ended {
    pub ticket: u64,
    pub exit: Exit,
}

/// Why no child was started.
#[derive(Clone, Copy, Debug, PartialEq, Eq)]
pub enum StartFault {
    NoMemory,
    Failed,
}

/// The child of this ticket was waited for, and its exit is lost.
#[derive(Clone, Copy, Debug, PartialEq, Eq)]
pub enum WaitFault {
    NoMemory { ticket: u64 },
    Lost { ticket: u64 },
}

/// Starts children and waits for them.
pub trait Procs {
    /// Whether the object tells its journal and its answer function.
    ghost tells: { Type 0 };

    /// The tickets of the running children, in order of start. Every object tells them.
    ghost running: { Self → List ℕ };

    /// What has happened so far, in order.
    ghost journal: { Self → List Event };

    /// The exit that a child started with a request ends with.
    ghost answer: { Self → Request → Exit };

    /// How often a start has failed.
    ghost failed_starts: { Self → ℕ };

    /// How many children were lost.
    ghost lost_children: { Self → ℕ };

    /// Starts a child, and gives a ticket that no earlier start gave. It doesn't wait for the child's end.
    fn start(&mut self, alloc: Global, request: &Request) -> Result<u64, StartFault>
        ensures running { AddsTicket result (running self.old) (running self.new) }
        ensures fresh { tells → IfOk result (IsFresh (journal self.old)) }
        ensures journal { tells →
            AddsStart request.now result (journal self.old) (journal self.new) }
        ensures same { answer self.new ≡ answer self.old }
        ensures cause { StartCounts result (failed_starts self.old) (failed_starts self.new) }
        ensures children { lost_children self.new ≡ lost_children self.old };

    /// Waits until some running child has ended. After each answer that child no longer runs.
    fn wait_any(&mut self, alloc: Global) -> Result<Ended, WaitFault>
        requires { 0 < length (running self.old) }
        ensures picks { Contains (running self.old) (ended_ticket result) }
        ensures running { running self.new ≡ without (ended_ticket result) (running self.old) }
        ensures sizes { IfOk result (λ end. FitsExit end.exit) }
        ensures journal { tells → (journal self.new ≡ journal self.old ++ end_event result ∷ []) }
        // Each end is the answer to what its ticket was started with,
        ensures exit { tells → IfOk result (AnswersStarted (answer self.old) (journal self.old)) }
        // and has results only where that names a path for them.
        ensures results { tells → IfOk result (AnswersStartedPath (journal self.old)) }
        ensures same { answer self.new ≡ answer self.old }
        ensures cause { ChildCounts result (lost_children self.old) (lost_children self.new) }
        ensures starts { failed_starts self.new ≡ failed_starts self.old };

    /// Announces that `_starts` more starts may come. Only an implementation that shows progress uses this.
    fn announce_starts(&mut self, _starts: u64)
        ensures running { running self.new ≡ running self.old }
        ensures journal { journal self.new ≡ journal self.old }
        ensures same { answer self.new ≡ answer self.old }
        ensures starts { failed_starts self.new ≡ failed_starts self.old }
        ensures children { lost_children self.new ≡ lost_children self.old }
    {}

    /// Announces that one of these starts isn't needed.
    fn skip_start(&mut self)
        ensures running { running self.new ≡ running self.old }
        ensures journal { journal self.new ≡ journal self.old }
        ensures same { answer self.new ≡ answer self.old }
        ensures starts { failed_starts self.new ≡ failed_starts self.old }
        ensures children { lost_children self.new ≡ lost_children self.old }
    {}

    /// Announces the path that a later start may name for its results. Only an implementation that warns of names that are too
    /// long uses this.
    fn announce_results(&mut self, _alloc: Global, _path: &[u8])
        ensures running { running self.new ≡ running self.old }
        ensures journal { journal self.new ≡ journal self.old }
        ensures same { answer self.new ≡ answer self.old }
        ensures starts { failed_starts self.new ≡ failed_starts self.old }
        ensures children { lost_children self.new ≡ lost_children self.old }
    {}
}
