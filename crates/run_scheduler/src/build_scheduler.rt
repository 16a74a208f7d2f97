//! The machine: which file is checked or started next.

ghost use Rattle.std.specs.Prelude.{◌≡◌, ℕ, ◌<◌, ◌≤◌, false, length, All};
ghost use Rattle.std.specs.Vec.{vec_capacity};
ghost use Rattle.base.specs.declared.limits.TheConstants.{FILE_LIMIT, SLOT_LIMIT};
ghost use Rattle.base_collections.specs.Positions.{has};
ghost use Rattle.order.specs.Waits.{file_count};

use crate::Need;
use crate::lists::{checked_files, count_files, fresh_files, later_files, note_made, stale_files};
use crate::step::BuildStep;
use base::{FILE_LIMIT, Graph, NoMemory, SLOT_LIMIT};
use base_collections::PositionSet;
use order::ReadyFiles;
use run_spec::{Child, Step, has_ticket, index_of};
use std::alloc::Global;

/// The scheduler of a build with many children. Only `new` takes memory. All calls together take time in proportion to the number
/// of files and dependencies.
#[derive(Drop)]
pub struct BuildScheduler {
    /// The files that need no check, or were checked.
    checked: Vec<bool>,
    /// The files that are fresh, or whose child has ended with code 0.
    made: Vec<bool>,
    /// The other files: each waits for its check until all its dependencies are made.
    later: ReadyFiles,
    /// The files that may be started: they were checked, aren't made, and weren't started.
    ready: PositionSet,
    /// The running children, in order of their starts.
    children: Vec<Child>,
    limit: u32,
    keep_going: bool,
    /// A refusal has ended all starts.
    is_halted: bool,
    /// All checks and starts are at their end.
    is_stopped: bool,
    ghost few: { length made.items ≤ FILE_LIMIT },
    ghost as_many_checked: { length checked.items ≡ length made.items },
    ghost as_many_later: { file_count later ≡ length made.items },
    ghost inside: { All (λ child. child.position < length made.items) children.items },
    ghost past: { (at : ℕ) → length made.items ≤ at → has ready at ≡ false },
    ghost some: { 1 ≤ limit },
    ghost room: { limit ≤ vec_capacity children },
}

impl BuildScheduler {
    ghost use Rattle.std.specs.Prelude.{◌≡◌, ◌≢◌, ◌↔◌, IsTrue, ◌+◌, ◌<◌, ◌≤◌, ◌++◌, ◌==◌, nat_lt, not, ◌&&◌, ◌||◌, Bool, true, List, [], ◌∷◌, length, Contains, Option, Some, None, IfOk, OnOk};
    ghost use Rattle.std.specs.List.{list_all};
    ghost use Rattle.outside.specs.Children.{without};
    ghost use Rattle.run_spec.specs.Moves.{Workload, SchedulerState, Starts, Ends, Loses, Halts, IsLawfulMove, IsGreedyMove, IsFinished, empty_schedule, position_of, after_move, is_taken, is_made_so_far};
    ghost use Rattle.run_spec.specs.Steps.{step_at, step_of, without_ticket, with_end};
    ghost use Rattle.run_spec.specs.declared.step.Step.{Step};
    ghost use Rattle.run_spec.specs.declared.step.Step.TheVariants.{Start, Wait, Finished};
    ghost use Rattle.run_scheduler.specs.Plans.{is_later, need_at};
    ghost use Rattle.run_scheduler.specs.declared.step.BuildStep.TheVariants.{Check, Run};
    ghost use Rattle.run_scheduler.specs.Machines.{IsWorkloadOf, IsMachineOf, is_checked, is_stopped_in, check_of, candidate_of, next_of, tickets_of, files_of, to_come};

    /// The machine for a build of a graph by a plan, which has one need for each file, with 1 to 64 slots, that goes on
    /// after a refusal or not. Nothing has happened yet.
    pub fn new(
        alloc: Global,
        graph: &Graph,
        needs: &[Need],
        limit: u32,
        keep_going: bool,
    ) -> Result<BuildScheduler, NoMemory>
        requires needs { length needs.now ≡ length graph.now }
        requires limit { (1 ≤ limit) × (limit ≤ SLOT_LIMIT) }
        ensures files { IfOk result (λ machine. files_of machine ≡ length graph.now) }
        ensures tickets { IfOk result (λ machine. tickets_of machine ≡ []) }
        ensures checked { IfOk result (λ machine. (at : ℕ) → at < length graph.now →
            is_checked machine at ≡ not (is_later (need_at needs.now at))) }
        ensures stopped { IfOk result (λ machine. is_stopped_in machine ≡ false) }
        ensures in_step { IfOk result (λ machine. (workload : Workload) →
            IsWorkloadOf workload graph.now needs.now limit keep_going →
            IsMachineOf machine workload empty_schedule) }
    {
        let few = graph.len();
        prove!(few <= FILE_LIMIT as u64);
        let checked = checked_files(alloc, needs)?;
        let made = fresh_files(alloc, needs)?;
        let waiting = later_files(alloc, needs)?;
        let mut later = ReadyFiles::new(alloc, waiting)?;
        count_files(graph, checked.as_slice(), made.as_slice(), &mut later)?;
        let ready = stale_files(needs);
        let children = Vec::with_capacity(alloc, limit as usize)?;
        Ok(BuildScheduler {
            checked,
            made,
            later,
            ready,
            children,
            limit,
            keep_going,
            is_halted: false,
            is_stopped: false,
        })
    }

    /// The position of the file to check next, if any.
    fn due_check(&self) -> Option<u32>
        ensures { result ≡ check_of self.now }
    {
        if self.is_stopped {
            return None;
        }
        self.later.next()
    }

    /// A child may be started: there is a free slot, and nothing has ended all starts.
    fn is_free(&self) -> bool
        ensures { result ≡ (nat_lt (length self.now.children.items) self.now.limit &&
            not (self.now.is_halted || self.now.is_stopped)) }
    {
        if self.is_halted {
            return false;
        }
        if self.is_stopped {
            return false;
        }
        self.children.len() < self.limit as usize
    }

    /// The position of the file to start next, if any may be started.
    fn candidate(&self) -> Option<u32>
        ensures { result ≡ candidate_of self.now }
    {
        if self.is_free() {
            self.ready.next_from(0)
        } else {
            None
        }
    }

    /// The next step with the children.
    fn run_step(&self) -> Step
        ensures { result ≡ step_of (candidate_of self.now) (length self.now.children.items == 0) }
    {
        match self.candidate() {
            Some(at) => Step::Start(at),
            None => {
                if self.children.is_empty() {
                    Step::Finished
                } else {
                    Step::Wait
                }
            }
        }
    }

    /// The next step, by the lists of the machine.
    fn step(&self) -> BuildStep
        ensures { result ≡ next_of self.now }
    {
        match self.due_check() {
            Some(at) => BuildStep::Check(at),
            None => BuildStep::Run(self.run_step()),
        }
    }

    /// The next step, by the first of these rules that applies:
    ///
    /// - A check of the first unchecked file whose dependencies are all made, unless the machine was stopped.
    /// - A start of the first file that may be started, if a slot is free and the build is neither halted nor stopped.
    /// - A wait, if some child runs.
    /// - The end.
    pub fn next(&self) -> BuildStep
        ensures is { result ≡ next_of self.now }
        // A step other than a check is the one that follows from the scheduler state.
        ensures in_step { (workload : Workload) (schedule : SchedulerState) → IsMachineOf self.now workload schedule →
            (step : Step) → result ≡ Run step → step ≡ step_at workload schedule }
        // A check is of a file that wasn't started and whose dependencies are all made.
        ensures free { (workload : Workload) (schedule : SchedulerState) → IsMachineOf self.now workload schedule →
            (at : ℕ) → result ≡ Check at → (is_taken schedule at ≡ false) ×
            (list_all (is_made_so_far workload schedule) (workload.deps at) ≡ true) }
        // If the step is another and the machine wasn't stopped, the unchecked files are neither made nor started.
        ensures unchecked { (workload : Workload) (schedule : SchedulerState) → IsMachineOf self.now workload schedule →
            is_stopped_in self.now ≡ false → (step : Step) → result ≡ Run step → (at : ℕ) →
            at < files_of self.now → is_checked self.now at ≡ false →
            (is_taken schedule at ≡ false) × (is_made_so_far workload schedule at ≡ false) }
        // Nothing is checked once the machine was stopped.
        ensures goes_on { (at : ℕ) → result ≡ Check at → is_stopped_in self.now ≡ false }
        // The dependencies of each checked file are all made.
        ensures ready { (workload : Workload) (schedule : SchedulerState) → IsMachineOf self.now workload schedule → (at : ℕ) →
            at < files_of self.now → is_checked self.now at ≡ true →
            list_all (is_made_so_far workload schedule) (workload.deps at) ≡ true }
        // A check and a start are of files of the graph.
        ensures checks { (at : ℕ) → result ≡ Check at → at < files_of self.now }
        ensures starts { (at : ℕ) → result ≡ Run (Start at) → at < files_of self.now }
        // A wait comes while some child runs. The end comes when no child runs and nothing is left to do.
        ensures runs { result ≡ Run Wait → 0 < length (tickets_of self.now) }
        ensures idle { result ≡ Run Finished → tickets_of self.now ≡ [] }
        ensures finished { result ≡ Run Finished → (workload : Workload) (schedule : SchedulerState) →
            IsMachineOf self.now workload schedule → IsFinished workload schedule }
    {
        self.step()
    }

    /// Records the check of the file that `next` gave. If the file is fresh, its record is current, and the file is made.
    pub fn record_check(&mut self, at: u32, fresh: bool)
        requires { next_of self.old ≡ Check at }
        ensures in_step { (workload : Workload) (schedule : SchedulerState) → IsMachineOf self.old workload schedule →
            fresh ≡ is_made_so_far workload schedule at → IsMachineOf self.new workload schedule }
        ensures checked { (k : ℕ) →
            is_checked self.new k ≡ (is_checked self.old k || at == k) }
        ensures stopped { is_stopped_in self.new ≡ is_stopped_in self.old }
        ensures files { files_of self.new ≡ files_of self.old }
        ensures tickets { tickets_of self.new ≡ tickets_of self.old }
        ensures nearer { to_come self.new < to_come self.old }
    {
        self.later.take(at);
        self.checked[at as usize] = true;
        if fresh {
            note_made(&mut self.made, &mut self.ready, &mut self.later, at);
        } else {
            self.ready.insert(at);
        }
    }

    /// Whether a child of this ticket runs.
    pub fn is_running(&self, ticket: u64) -> bool
        ensures { IsTrue result ↔ Contains (tickets_of self.now) ticket }
    {
        has_ticket(self.children.as_slice(), ticket)
    }

    /// Removes the child of a ticket. Gives the position of its file.
    #[tactic(auto, unfolding(crate::specs::Machines::is_checked, crate::specs::Machines::is_stopped_in, crate::specs::Machines::files_of, crate::specs::Machines::tickets_of))]
    fn end_child(&mut self, ticket: u64) -> u32
        requires { Contains (tickets_of self.old) ticket }
        ensures within { result < files_of self.old }
        ensures position { (workload : Workload) (schedule : SchedulerState) → IsMachineOf self.old workload schedule →
            position_of ticket schedule.running ≡ Some result }
        ensures checked { (workload : Workload) (schedule : SchedulerState) → IsMachineOf self.old workload schedule →
            is_checked self.new result ≡ true }
        ensures in_step { (workload : Workload) (schedule : SchedulerState) → IsMachineOf self.old workload schedule →
            IsMachineOf self.new workload (without_ticket ticket schedule) }
        ensures same { (k : ℕ) → is_checked self.new k ≡ is_checked self.old k }
        ensures stopped { is_stopped_in self.new ≡ is_stopped_in self.old }
        ensures files { files_of self.new ≡ files_of self.old }
        ensures tickets { tickets_of self.new ≡ without ticket (tickets_of self.old) }
        ensures nearer { to_come self.new < to_come self.old }
    {
        let at = index_of(self.children.as_slice(), ticket);
        let child = self.children.remove(at);
        child.position
    }

    /// The file at a position, which was checked, is made by a child.
    fn make(&mut self, at: u32)
        requires { at < files_of self.old }
        ensures in_step { (workload : Workload) (schedule : SchedulerState) (output : List ℕ) →
            IsMachineOf self.old workload schedule → is_checked self.old at ≡ true →
            IsMachineOf self.new workload (with_end workload schedule at true output) }
        ensures checked { (k : ℕ) → is_checked self.new k ≡ is_checked self.old k }
        ensures stopped { is_stopped_in self.new ≡ is_stopped_in self.old }
        ensures files { files_of self.new ≡ files_of self.old }
        ensures tickets { tickets_of self.new ≡ tickets_of self.old }
        ensures nearer { to_come self.new ≤ to_come self.old }
    {
        note_made(&mut self.made, &mut self.ready, &mut self.later, at);
    }

    /// A compiler has refused its file.
    #[tactic(auto, unfolding(crate::specs::Machines::is_checked, crate::specs::Machines::is_stopped_in, crate::specs::Machines::files_of, crate::specs::Machines::tickets_of))]
    fn refuse(&mut self)
        ensures in_step { (workload : Workload) (schedule : SchedulerState) (at : ℕ) (output : List ℕ) →
            IsMachineOf self.old workload schedule →
            IsMachineOf self.new workload (with_end workload schedule at false output) }
        ensures checked { (k : ℕ) → is_checked self.new k ≡ is_checked self.old k }
        ensures stopped { is_stopped_in self.new ≡ is_stopped_in self.old }
        ensures files { files_of self.new ≡ files_of self.old }
        ensures tickets { tickets_of self.new ≡ tickets_of self.old }
        ensures nearer { to_come self.new ≤ to_come self.old }
    {
        if !self.keep_going {
            self.is_halted = true;
        }
    }

    /// Nothing more is checked or started.
    #[tactic(auto, unfolding(crate::specs::Machines::is_checked, crate::specs::Machines::is_stopped_in, crate::specs::Machines::files_of, crate::specs::Machines::tickets_of))]
    pub fn stop(&mut self)
        ensures in_step { (workload : Workload) (schedule : SchedulerState) → IsMachineOf self.old workload schedule →
            IsMachineOf self.new workload (after_move workload schedule Halts) }
        ensures checked { (k : ℕ) → is_checked self.new k ≡ is_checked self.old k }
        ensures files { files_of self.new ≡ files_of self.old }
        ensures tickets { tickets_of self.new ≡ tickets_of self.old }
        ensures stopped { is_stopped_in self.new ≡ true }
        ensures no_check { (at : ℕ) → next_of self.new ≢ Check at }
        ensures over { (at : ℕ) → next_of self.new ≢ Run (Start at) }
        ensures nearer { to_come self.new ≤ to_come self.old }
        // If a file could be started, as after a failed start, fewer steps are left.
        ensures ends { (at : ℕ) → next_of self.old ≡ Run (Start at) →
            to_come self.new < to_come self.old }
    {
        self.is_stopped = true;
    }

    /// Records the start of the file that `next` gave: its child runs and has this ticket.
    #[tactic(auto, unfolding(crate::specs::Machines::is_checked, crate::specs::Machines::is_stopped_in, crate::specs::Machines::files_of, crate::specs::Machines::tickets_of))]
    pub fn record_start(&mut self, at: u32, ticket: u64)
        requires { next_of self.old ≡ Run (Start at) }
        ensures lawful { (workload : Workload) (schedule : SchedulerState) → IsMachineOf self.old workload schedule →
            IsLawfulMove workload schedule (Starts at ticket) }
        ensures in_step { (workload : Workload) (schedule : SchedulerState) → IsMachineOf self.old workload schedule →
            IsMachineOf self.new workload (after_move workload schedule (Starts at ticket)) }
        ensures checked { (k : ℕ) → is_checked self.new k ≡ is_checked self.old k }
        ensures stopped { is_stopped_in self.new ≡ is_stopped_in self.old }
        ensures files { files_of self.new ≡ files_of self.old }
        ensures tickets { tickets_of self.new ≡ tickets_of self.old ++ ticket ∷ [] }
        ensures nearer { to_come self.new < to_come self.old }
    {
        self.ready.remove(at);
        self.children.push_reserved(Child {
            ticket,
            position: at,
        });
    }

    /// The child of a ticket has ended, with code 0 or not. Gives the position of its file.
    pub fn record_end(&mut self, ticket: u64, ok: bool) -> u32
        requires { Contains (tickets_of self.old) ticket }
        ensures within { result < files_of self.old }
        ensures position { (workload : Workload) (schedule : SchedulerState) → IsMachineOf self.old workload schedule →
            position_of ticket schedule.running ≡ Some result }
        ensures lawful { (workload : Workload) (schedule : SchedulerState) (output : List ℕ) →
            IsMachineOf self.old workload schedule → IsLawfulMove workload schedule (Ends ticket ok output) }
        ensures greedy { (workload : Workload) (schedule : SchedulerState) (output : List ℕ) →
            IsMachineOf self.old workload schedule → next_of self.old ≡ Run Wait →
            IsGreedyMove workload schedule (Ends ticket ok output) }
        ensures in_step { (workload : Workload) (schedule : SchedulerState) (output : List ℕ) →
            IsMachineOf self.old workload schedule →
            IsMachineOf self.new workload (after_move workload schedule (Ends ticket ok output)) }
        ensures here { (workload : Workload) (schedule : SchedulerState) → IsMachineOf self.old workload schedule →
            is_checked self.old result ≡ true }
        ensures checked { (k : ℕ) → is_checked self.new k ≡ is_checked self.old k }
        ensures stopped { is_stopped_in self.new ≡ is_stopped_in self.old }
        ensures files { files_of self.new ≡ files_of self.old }
        ensures tickets { tickets_of self.new ≡ without ticket (tickets_of self.old) }
        ensures nearer { to_come self.new < to_come self.old }
    {
        let at = self.end_child(ticket);
        if ok {
            self.make(at);
        } else {
            self.refuse();
        }
        at
    }

    /// The end of the child of a ticket is lost. Gives the position of its file. Nothing more is checked or started.
    pub fn record_loss(&mut self, ticket: u64) -> u32
        requires { Contains (tickets_of self.old) ticket }
        ensures within { result < files_of self.old }
        ensures position { (workload : Workload) (schedule : SchedulerState) → IsMachineOf self.old workload schedule →
            position_of ticket schedule.running ≡ Some result }
        ensures lawful { (workload : Workload) (schedule : SchedulerState) → IsMachineOf self.old workload schedule →
            IsLawfulMove workload schedule (Loses ticket) }
        ensures greedy { (workload : Workload) (schedule : SchedulerState) → IsMachineOf self.old workload schedule →
            next_of self.old ≡ Run Wait → IsGreedyMove workload schedule (Loses ticket) }
        ensures in_step { (workload : Workload) (schedule : SchedulerState) → IsMachineOf self.old workload schedule →
            IsMachineOf self.new workload (after_move workload schedule (Loses ticket)) }
        ensures checked { (k : ℕ) → is_checked self.new k ≡ is_checked self.old k }
        ensures files { files_of self.new ≡ files_of self.old }
        ensures tickets { tickets_of self.new ≡ without ticket (tickets_of self.old) }
        ensures stopped { is_stopped_in self.new ≡ true }
        ensures no_check { (at : ℕ) → next_of self.new ≢ Check at }
        ensures over { (at : ℕ) → next_of self.new ≢ Run (Start at) }
        ensures nearer { to_come self.new < to_come self.old }
    {
        let at = self.end_child(ticket);
        self.stop();
        at
    }
}
