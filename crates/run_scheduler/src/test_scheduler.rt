//! The scheduler of tests: which run is started next.

ghost use Rattle.std.specs.Prelude.{◌≡◌, ◌<◌, ◌≤◌, length, All};
ghost use Rattle.std.specs.Vec.{vec_capacity};

use base::NoMemory;
use run_spec::{Child, Step, index_of};
use std::alloc::Global;

/// The scheduler of runs of tests with many children. The runs are started in order. Only `new` takes memory.
#[derive(Drop)]
pub struct TestScheduler {
    /// The first run that wasn't started. All runs before it were started.
    next: u32,
    count: u32,
    /// The running children, in order of their starts.
    children: Vec<Child>,
    limit: u32,
    fail_fast: bool,
    is_halted: bool,
    ghost within: { next ≤ count },
    ghost inside: { All (λ child. child.position < next) children.items },
    ghost some: { 1 ≤ limit },
    ghost room: { limit ≤ vec_capacity children },
}

impl TestScheduler {
    ghost use Rattle.std.specs.Prelude.{◌≡◌, ◌≢◌, ℕ, ◌+◌, ◌<◌, ◌≤◌, ◌++◌, Bool, List, [], ◌∷◌, length, Contains, Option, Some, None, IfOk};
    ghost use Rattle.base.specs.declared.limits.TheConstants.{SLOT_LIMIT};
    ghost use Rattle.outside.specs.Children.{without};
    ghost use Rattle.run_spec.specs.Moves.{Workload, SchedulerState, Starts, Ends, Loses, Halts, IsLawfulMove, IsGreedyMove, IsFinished, empty_schedule, position_of, after_move};
    ghost use Rattle.run_spec.specs.declared.step.Step.TheVariants.{Start, Wait, Finished};
    ghost use Rattle.run_spec.specs.Steps.{step_at, without_ticket, with_end};
    ghost use Rattle.run_scheduler.specs.Rows.{IsSchedulerWorkload, IsSchedulerOf, next_of, candidate_of, tickets_of, run_count, to_come};

    /// The scheduler of `count` runs before any event, with 1 to 64 slots. With `fail_fast` it stops at the first failed run.
    #[tactic(auto, unfolding(crate::specs::Rows::run_count, crate::specs::Rows::tickets_of, base::specs::PresentGraph::below))]
    pub fn new(
        alloc: Global,
        count: u32,
        limit: u32,
        fail_fast: bool,
    ) -> Result<TestScheduler, NoMemory>
        requires { (1 ≤ limit) × (limit ≤ SLOT_LIMIT) }
        ensures runs { IfOk result (λ scheduler. run_count scheduler ≡ count) }
        ensures tickets { IfOk result (λ scheduler. tickets_of scheduler ≡ []) }
        ensures in_step { IfOk result (λ scheduler. (workload : Workload) → IsSchedulerWorkload workload count limit fail_fast →
            IsSchedulerOf scheduler workload empty_schedule) }
    {
        let children = Vec::with_capacity(alloc, limit as usize)?;
        Ok(TestScheduler {
            next: 0,
            count,
            children,
            limit,
            fail_fast,
            is_halted: false,
        })
    }

    /// The run to start next, if any may be started.
    #[tactic(auto, unfolding(crate::specs::Rows::candidate_of))]
    fn candidate(&self) -> Option<u32>
        ensures { result ≡ candidate_of self.now }
    {
        if self.is_halted {
            return None;
        }
        if self.children.len() >= self.limit as usize {
            return None;
        }
        if self.next >= self.count {
            return None;
        }
        Some(self.next)
    }

    /// The next step, by the state of the scheduler.
    #[tactic(auto, unfolding(crate::specs::Rows::next_of))]
    fn step(&self) -> Step
        ensures { result ≡ next_of self.now }
    {
        match self.candidate() {
            Some(at) => Step::Start(at),
            None => {
                if self.children.is_empty() {
                    Step::Finished
                } else {
                    Step::Wait
                }
            }
        }
    }

    /// The next step: a start of the first run that wasn't started while a slot is free and nothing is halted;
    /// else a wait where some child runs; else the end.
    pub fn next(&self) -> Step
        ensures is { result ≡ next_of self.now }
        // It is the step of what has happened so far,
        ensures in_step { (workload : Workload) (schedule : SchedulerState) →
            IsSchedulerOf self.now workload schedule → result ≡ step_at workload schedule }
        // a start is of a run of the row,
        ensures within { (at : ℕ) → result ≡ Start at → at < run_count self.now }
        // a wait comes while some child runs, and the end while none does and nothing is left to do.
        ensures runs { result ≡ Wait → 0 < length (tickets_of self.now) }
        ensures idle { result ≡ Finished → tickets_of self.now ≡ [] }
        ensures finished { result ≡ Finished → (workload : Workload) (schedule : SchedulerState) →
            IsSchedulerOf self.now workload schedule → IsFinished workload schedule }
    {
        self.step()
    }

    /// The run of the child with a ticket.
    #[tactic(auto, unfolding(crate::specs::Rows::run_count, crate::specs::Rows::tickets_of))]
    pub fn run_of(&self, ticket: u64) -> u32
        requires { Contains (tickets_of self.now) ticket }
        ensures within { result < run_count self.now }
        ensures position { (workload : Workload) (schedule : SchedulerState) → IsSchedulerOf self.now workload schedule →
            position_of ticket schedule.running ≡ Some result }
    {
        let at = index_of(self.children.as_slice(), ticket);
        self.children[at].position
    }

    /// The child of a ticket runs no more. Gives its run.
    #[tactic(auto, unfolding(crate::specs::Rows::run_count, crate::specs::Rows::tickets_of, crate::specs::Rows::to_come))]
    fn end_child(&mut self, ticket: u64) -> u32
        requires { Contains (tickets_of self.old) ticket }
        ensures within { result < run_count self.old }
        ensures before { result < self.new.next }
        ensures position { (workload : Workload) (schedule : SchedulerState) → IsSchedulerOf self.old workload schedule →
            position_of ticket schedule.running ≡ Some result }
        ensures in_step { (workload : Workload) (schedule : SchedulerState) → IsSchedulerOf self.old workload schedule →
            IsSchedulerOf self.new workload (without_ticket ticket schedule) }
        ensures runs { run_count self.new ≡ run_count self.old }
        ensures tickets { tickets_of self.new ≡ without ticket (tickets_of self.old) }
        ensures nearer { to_come self.new < to_come self.old }
    {
        let at = index_of(self.children.as_slice(), ticket);
        let child = self.children.remove(at);
        child.position
    }

    /// Nothing more is started.
    #[tactic(auto, unfolding(crate::specs::Rows::run_count, crate::specs::Rows::tickets_of, crate::specs::Rows::to_come))]
    pub fn stop(&mut self)
        ensures in_step { (workload : Workload) (schedule : SchedulerState) → IsSchedulerOf self.old workload schedule →
            IsSchedulerOf self.new workload (after_move workload schedule Halts) }
        ensures runs { run_count self.new ≡ run_count self.old }
        ensures tickets { tickets_of self.new ≡ tickets_of self.old }
        ensures over { (at : ℕ) → next_of self.new ≢ Start at }
        ensures nearer { to_come self.new ≤ to_come self.old }
        // It is nearer to the end where some run could be started, as where its start has failed.
        ensures ends { (at : ℕ) → next_of self.old ≡ Start at →
            to_come self.new < to_come self.old }
    {
        self.is_halted = true;
    }

    /// The child of the run that `next` gave runs, and has this ticket.
    #[tactic(auto, unfolding(crate::specs::Rows::run_count, crate::specs::Rows::tickets_of, crate::specs::Rows::to_come))]
    pub fn record_start(&mut self, at: u32, ticket: u64)
        requires { next_of self.old ≡ Start at }
        ensures lawful { (workload : Workload) (schedule : SchedulerState) → IsSchedulerOf self.old workload schedule →
            IsLawfulMove workload schedule (Starts at ticket) }
        ensures in_step { (workload : Workload) (schedule : SchedulerState) → IsSchedulerOf self.old workload schedule →
            IsSchedulerOf self.new workload (after_move workload schedule (Starts at ticket)) }
        ensures runs { run_count self.new ≡ run_count self.old }
        ensures tickets { tickets_of self.new ≡ tickets_of self.old ++ ticket ∷ [] }
        ensures nearer { to_come self.new < to_come self.old }
    {
        self.next = at + 1;
        self.children.push_reserved(Child {
            ticket,
            position: at,
        });
    }

    /// A run has ended, and all its verdicts are passed or not.
    #[tactic(auto, unfolding(crate::specs::Rows::run_count, crate::specs::Rows::tickets_of, crate::specs::Rows::to_come))]
    fn judge(&mut self, ok: bool)
        ensures in_step { (workload : Workload) (schedule : SchedulerState) (at : ℕ) (output : List ℕ) →
            at < self.old.next → IsSchedulerOf self.old workload schedule →
            IsSchedulerOf self.new workload (with_end workload schedule at ok output) }
        ensures runs { run_count self.new ≡ run_count self.old }
        ensures tickets { tickets_of self.new ≡ tickets_of self.old }
        ensures nearer { to_come self.new ≤ to_come self.old }
    {
        if self.fail_fast {
            if !ok {
                self.is_halted = true;
            }
        }
    }

    /// The child of a ticket has ended, with all verdicts passed or not. Gives its run.
    pub fn record_end(&mut self, ticket: u64, ok: bool) -> u32
        requires { Contains (tickets_of self.old) ticket }
        ensures within { result < run_count self.old }
        ensures position { (workload : Workload) (schedule : SchedulerState) → IsSchedulerOf self.old workload schedule →
            position_of ticket schedule.running ≡ Some result }
        ensures lawful { (workload : Workload) (schedule : SchedulerState) (output : List ℕ) →
            IsSchedulerOf self.old workload schedule → IsLawfulMove workload schedule (Ends ticket ok output) }
        ensures greedy { (workload : Workload) (schedule : SchedulerState) (output : List ℕ) →
            IsSchedulerOf self.old workload schedule → next_of self.old ≡ Wait →
            IsGreedyMove workload schedule (Ends ticket ok output) }
        ensures in_step { (workload : Workload) (schedule : SchedulerState) (output : List ℕ) →
            IsSchedulerOf self.old workload schedule →
            IsSchedulerOf self.new workload (after_move workload schedule (Ends ticket ok output)) }
        ensures runs { run_count self.new ≡ run_count self.old }
        ensures tickets { tickets_of self.new ≡ without ticket (tickets_of self.old) }
        ensures nearer { to_come self.new < to_come self.old }
    {
        let at = self.end_child(ticket);
        self.judge(ok);
        at
    }

    /// A run has ended, and it isn't known how: nothing more is started.
    #[tactic(auto, unfolding(crate::specs::Rows::run_count, crate::specs::Rows::tickets_of, crate::specs::Rows::to_come, run_spec::specs::Moves::after_move))]
    fn give_up(&mut self)
        ensures in_step { (workload : Workload) (schedule : SchedulerState) (at : ℕ) (ok : Bool)
            (output : List ℕ) → at < self.old.next → IsSchedulerOf self.old workload schedule →
            IsSchedulerOf self.new workload (after_move workload (with_end workload schedule at ok output) Halts) }
        ensures runs { run_count self.new ≡ run_count self.old }
        ensures tickets { tickets_of self.new ≡ tickets_of self.old }
        ensures nearer { to_come self.new ≤ to_come self.old }
    {
        self.is_halted = true;
    }

    /// The child of a ticket has ended, but there is no memory for its verdicts. Nothing more is started.
    pub fn given_up(&mut self, ticket: u64)
        requires { Contains (tickets_of self.old) ticket }
        ensures lawful { (workload : Workload) (schedule : SchedulerState) (ok : Bool) (output : List ℕ) →
            IsSchedulerOf self.old workload schedule → IsLawfulMove workload schedule (Ends ticket ok output) }
        ensures greedy { (workload : Workload) (schedule : SchedulerState) (ok : Bool) (output : List ℕ) →
            IsSchedulerOf self.old workload schedule → next_of self.old ≡ Wait →
            IsGreedyMove workload schedule (Ends ticket ok output) }
        ensures in_step { (workload : Workload) (schedule : SchedulerState) (ok : Bool) (output : List ℕ) →
            IsSchedulerOf self.old workload schedule → IsSchedulerOf self.new workload
            (after_move workload (after_move workload schedule (Ends ticket ok output)) Halts) }
        ensures runs { run_count self.new ≡ run_count self.old }
        ensures tickets { tickets_of self.new ≡ without ticket (tickets_of self.old) }
        ensures nearer { to_come self.new < to_come self.old }
    {
        let _at = self.end_child(ticket);
        self.give_up();
    }

    /// The end of the child of a ticket is lost. Gives its run. Nothing more is started.
    pub fn record_loss(&mut self, ticket: u64) -> u32
        requires { Contains (tickets_of self.old) ticket }
        ensures within { result < run_count self.old }
        ensures position { (workload : Workload) (schedule : SchedulerState) → IsSchedulerOf self.old workload schedule →
            position_of ticket schedule.running ≡ Some result }
        ensures lawful { (workload : Workload) (schedule : SchedulerState) → IsSchedulerOf self.old workload schedule →
            IsLawfulMove workload schedule (Loses ticket) }
        ensures greedy { (workload : Workload) (schedule : SchedulerState) → IsSchedulerOf self.old workload schedule →
            next_of self.old ≡ Wait → IsGreedyMove workload schedule (Loses ticket) }
        ensures in_step { (workload : Workload) (schedule : SchedulerState) → IsSchedulerOf self.old workload schedule →
            IsSchedulerOf self.new workload (after_move workload schedule (Loses ticket)) }
        ensures runs { run_count self.new ≡ run_count self.old }
        ensures tickets { tickets_of self.new ≡ without ticket (tickets_of self.old) }
        ensures over { (at : ℕ) → next_of self.new ≢ Start at }
        ensures nearer { to_come self.new < to_come self.old }
    {
        let at = self.end_child(ticket);
        self.stop();
        at
    }
}
