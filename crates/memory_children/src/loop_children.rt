//! Children that answer as those of the program do.
ghost use Rattle.std.specs.Prelude.{◌≡◌, ◌<◌, ◌++◌, [], ◌∷◌, ℕ, List, length, IfOk, IfSome, Contains};
ghost use Rattle.outside.specs.Counts.{StartCounts, ChildCounts};
ghost use Rattle.outside.specs.Children.{IsFresh, AddsTicket, AddsStart, ended_ticket, without, end_event, started_with, AnswersStarted, AnswersPath, AnswersStartedPath, FitsExit};
ghost use Rattle.memory_outside.specs.Failing.{next_call, MakesCall, StartFails, WaitFails};
ghost use Rattle.memory_outside.specs.ChildLogs.{no_children, picked};
ghost use Rattle.vhdl_spec.specs.Scans.{Finding, IsScanner};
ghost use Rattle.memory_children.specs.Answers.{loop_answer};
ghost use Rattle.memory_children.specs.OneAnswer.{HasLoopAnswer, answer_in, one_answer};

use crate::exits::{two_exits, unknown_exit};
use base::{Exit, NoMemory, Numbers, Positions, Request};
use memory_outside::{ChildLog, EventList};
use outside::{Ended, Procs, StartFault, WaitFault};
use std::alloc::Global;

/// Children that answer as the child processes of the program do. The second word of the command decides:
///
/// - `child-analyse`: the answer of the compiler that is part of the program,
/// - `child-bench`: the answer of the simulator that is part of the program,
/// - any other word, or no second word: code 127, without output or results.
///
/// The first 262,144 bytes of an output are kept. If more was printed, the code 0 becomes 257, unless the request names a path
/// for results. Results are given only if the request names such a path, and if they have at most 1,048,576 bytes.
#[derive(Drop)]
pub struct LoopProcs {
    child_log: ChildLog,
    // what they answer
    pub ghost known: { HasLoopAnswer } by { one_answer },
}

impl LoopProcs {
    /// Children of which none was started; it takes no memory. Wait number k takes the running ticket of place
    /// `picks[k]`, modulo how many run; past the end of the picks it takes the oldest. The calls of the numbers in
    /// `failing`, counted from 0 over starts and waits, are to fail.
    #[tactic(auto, unfolding(crate::specs::OneAnswer::answer_in))]
    pub fn new(alloc: Global, picks: Positions, failing: Numbers) -> LoopProcs
        ensures child_log { result.child_log ≡ no_children picks failing }
        // By whatever scanner the answer is told, it is the same.
        ensures answer { (scan : List ℕ → Finding) → IsScanner scan →
            answer_in result.known ≡ loop_answer scan }
    {
        LoopProcs {
            child_log: ChildLog::new(alloc, picks, failing),
        }
    }

    /// What has happened so far, in order.
    pub fn journal(&self) -> &EventList
        ensures { result.now.items ≡ self.now.child_log.journal }
    {
        self.child_log.journal()
    }

    /// The tickets of the running children, in order of start.
    pub fn running_tickets(&self) -> &[u64]
        ensures { result.now ≡ self.now.child_log.running }
    {
        self.child_log.running_tickets()
    }
}

impl Procs for LoopProcs {
    ghost tells = { Unit {0} };

    ghost running = { λ p. p.child_log.running };

    ghost journal = { λ p. p.child_log.journal };

    ghost answer = { λ p. answer_in p.known };

    ghost failed_starts = { λ p. p.child_log.calls.failed };

    ghost lost_children = { λ p. p.child_log.lost_children };

    fn start(&mut self, alloc: Global, request: &Request) -> Result<u64, StartFault>
        ensures running { AddsTicket result self.old.child_log.running self.new.child_log.running }
        ensures fresh { IfOk result (IsFresh self.old.child_log.journal) }
        ensures journal { AddsStart request.now result self.old.child_log.journal self.new.child_log.journal }
        ensures same { answer_in self.new.known ≡ answer_in self.old.known }
        ensures cause { StartCounts result self.old.child_log.calls.failed self.new.child_log.calls.failed }
        ensures children { self.new.child_log.lost_children ≡ self.old.child_log.lost_children }
        ensures fails { StartFails result self.old.child_log.calls }
        ensures calls { MakesCall self.old.child_log.calls self.new.child_log.calls }
        ensures picks { self.new.child_log.picks ≡ self.old.child_log.picks }
        ensures waits { self.new.child_log.waits ≡ self.old.child_log.waits }
    {
        self.child_log.start(alloc, request)
    }

    fn wait_any(&mut self, alloc: Global) -> Result<Ended, WaitFault>
        requires { 0 < length self.old.child_log.running }
        ensures picks { Contains self.old.child_log.running (ended_ticket result) }
        ensures running { let before = self.old.child_log.running in
            self.new.child_log.running ≡ without (ended_ticket result) before }
        ensures sizes { IfOk result (λ end. FitsExit end.exit) }
        ensures journal { self.new.child_log.journal ≡ self.old.child_log.journal ++ end_event result ∷ [] }
        ensures exit { IfOk result
            (AnswersStarted (answer_in self.old.known) self.old.child_log.journal) }
        ensures results { IfOk result (AnswersStartedPath self.old.child_log.journal) }
        ensures same { answer_in self.new.known ≡ answer_in self.old.known }
        ensures cause { ChildCounts result self.old.child_log.lost_children self.new.child_log.lost_children }
        ensures starts { self.new.child_log.calls.failed ≡ self.old.child_log.calls.failed }
        ensures picked { ended_ticket result ≡ picked self.old.child_log }
        ensures fails { WaitFails result self.old.child_log.calls }
        ensures calls { MakesCall self.old.child_log.calls self.new.child_log.calls }
        ensures list { self.new.child_log.picks ≡ self.old.child_log.picks }
        ensures waits { self.new.child_log.waits ≡ next_call self.old.child_log.waits }
    {
        let ticket = self.child_log.next_ticket();
        if self.child_log.fails() {
            self.child_log.lose(ticket);
            return Err(WaitFault::Lost { ticket });
        }
        match self.exits(alloc, ticket) {
            Ok((exit, kept)) => {
                self.child_log.end(ticket, kept);
                Ok(Ended { ticket, exit })
            }
            Err(_) => {
                self.child_log.forget(ticket);
                Err(WaitFault::NoMemory { ticket })
            }
        }
    }
}

impl LoopProcs {
    /// Two copies of the exit of the child of a ticket, one of them for the journal. Without such a child, it is the exit of an
    /// unknown command.
    fn exits(&self, alloc: Global, ticket: u64) -> Result<(Exit, Exit), NoMemory>
        ensures same { IfOk result (λ exits. exits.1 ≡ exits.0) }
        ensures sizes { IfOk result (λ exits. FitsExit exits.0) }
        ensures exit { let request = started_with ticket self.now.child_log.journal in
            IfOk result (λ exits. IfSome request (λ r. exits.0 ≡ answer_in self.now.known r)) }
        ensures results { let request = started_with ticket self.now.child_log.journal in
            IfOk result (λ exits. IfSome request (λ r. AnswersPath r.results exits.0.results)) }
    {
        match self.child_log.request(ticket) {
            Some(request) => two_exits(alloc, request),
            None => Ok((unknown_exit(alloc), unknown_exit(alloc))),
        }
    }
}
