//! Children that answer by a table.
ghost use Rattle.std.specs.Prelude.{◌≡◌, ◌<◌, ◌++◌, [], ◌∷◌, length, IfOk, IfSome, Contains, option_copied};
ghost use Rattle.outside.specs.Counts.{StartCounts, ChildCounts};
ghost use Rattle.outside.specs.Children.{IsFresh, AddsTicket, AddsStart, ended_ticket, without, end_event, AnswersStarted, AnswersPath, AnswersStartedPath, FitsExit};
ghost use Rattle.memory_outside.specs.Failing.{next_call, MakesCall, StartFails, WaitFails};
ghost use Rattle.memory_outside.specs.ChildLogs.{no_children, picked};
ghost use Rattle.memory_outside.specs.Scripts.{answer_of, CanAnswer};

use crate::table::{exit_of, unknown};
use crate::{Answer, AnswerList, ChildLog, EventList};
use base::{Exit, NoMemory, Numbers, Positions, Request};
use outside::{Ended, Procs, StartFault, WaitFault};
use std::alloc::Global;
use std::marker::Model;

/// Children that answer by a table. A request that the table doesn't have ends with code 127, no output and no results.
#[derive(Drop)]
pub struct ScriptProcs {
    answers: AnswerList,
    child_log: ChildLog,
}

impl Model for ScriptProcs {
    ghost use Rattle.memory_outside.specs.Scripts.{Script, CanAnswer};

    ghost Value = { Script };

    ghost view = { λ a. record { answers = a.answers; child_log = a.child_log } };

    ghost invariant = { λ a. CanAnswer a.answers };
}

impl ScriptProcs {
    /// Children that answer by this table, of which none was started; it takes no memory. Of two answers to one
    /// request the first counts. Wait number k takes the running ticket of index `picks[k]`, modulo how many run;
    /// past the end of the picks it takes the oldest. The calls of the numbers in `failing`, counted from 0 over
    /// starts and waits, are to fail.
    pub fn new(
        alloc: Global,
        answers: AnswerList,
        picks: Positions,
        failing: Numbers,
    ) -> ScriptProcs
        requires { CanAnswer answers }
        ensures answers { result.answers ≡ answers }
        ensures child_log { result.child_log ≡ no_children picks failing }
    {
        ScriptProcs {
            answers,
            child_log: ChildLog::new(alloc, picks, failing),
        }
    }

    /// What has happened so far, in order.
    pub fn journal(&self) -> &EventList
        ensures { result.now.items ≡ self.now.child_log.journal }
    {
        self.child_log.journal()
    }

    /// The tickets of the running children, in order of start.
    pub fn running_tickets(&self) -> &[u64]
        ensures { result.now ≡ self.now.child_log.running }
    {
        self.child_log.running_tickets()
    }
}

impl Procs for ScriptProcs {
    ghost tells = { Unit {0} };

    ghost running = { λ p. p.child_log.running };

    ghost journal = { λ p. p.child_log.journal };

    ghost answer = { λ p. answer_of p.answers };

    ghost failed_starts = { λ p. p.child_log.calls.failed };

    ghost lost_children = { λ p. p.child_log.lost_children };

    fn start(&mut self, alloc: Global, request: &Request) -> Result<u64, StartFault>
        ensures running { AddsTicket result self.old.child_log.running self.new.child_log.running }
        ensures fresh { IfOk result (IsFresh self.old.child_log.journal) }
        ensures journal { AddsStart request.now result self.old.child_log.journal self.new.child_log.journal }
        ensures same { self.new.answers ≡ self.old.answers }
        ensures cause { StartCounts result self.old.child_log.calls.failed self.new.child_log.calls.failed }
        ensures children { self.new.child_log.lost_children ≡ self.old.child_log.lost_children }
        ensures fails { StartFails result self.old.child_log.calls }
        ensures calls { MakesCall self.old.child_log.calls self.new.child_log.calls }
        ensures picks { self.new.child_log.picks ≡ self.old.child_log.picks }
        ensures waits { self.new.child_log.waits ≡ self.old.child_log.waits }
    {
        self.child_log.start(alloc, request)
    }

    fn wait_any(&mut self, alloc: Global) -> Result<Ended, WaitFault>
        requires { 0 < length self.old.child_log.running }
        ensures picks { Contains self.old.child_log.running (ended_ticket result) }
        ensures running { let before = self.old.child_log.running in
            self.new.child_log.running ≡ without (ended_ticket result) before }
        ensures sizes { IfOk result (λ end. FitsExit end.exit) }
        ensures journal { self.new.child_log.journal ≡ self.old.child_log.journal ++ end_event result ∷ [] }
        ensures exit { let answer = answer_of self.old.answers in
            IfOk result (AnswersStarted answer self.old.child_log.journal) }
        ensures results { IfOk result (AnswersStartedPath self.old.child_log.journal) }
        ensures same { self.new.answers ≡ self.old.answers }
        ensures cause { ChildCounts result self.old.child_log.lost_children self.new.child_log.lost_children }
        ensures starts { self.new.child_log.calls.failed ≡ self.old.child_log.calls.failed }
        ensures picked { ended_ticket result ≡ picked self.old.child_log }
        ensures fails { WaitFails result self.old.child_log.calls }
        ensures calls { MakesCall self.old.child_log.calls self.new.child_log.calls }
        ensures list { self.new.child_log.picks ≡ self.old.child_log.picks }
        ensures waits { self.new.child_log.waits ≡ next_call self.old.child_log.waits }
    {
        let ticket = self.child_log.next_ticket();
        if self.child_log.fails() {
            self.child_log.lose(ticket);
            return Err(WaitFault::Lost { ticket });
        }
        match two_exits(
            alloc,
            self.answers.as_slice(),
            self.child_log.request(ticket),
        ) {
            Ok((exit, kept)) => {
                self.child_log.end(ticket, kept);
                Ok(Ended { ticket, exit })
            }
            Err(_) => {
                self.child_log.forget(ticket);
                Err(WaitFault::NoMemory { ticket })
            }
        }
    }
}

/// Two copies of the exit that a table has for a request, one of them for the journal. Without a request, it is the exit of
/// an unknown request.
fn two_exits(
    alloc: Global,
    answers: &[Answer],
    request: Option<&Request>,
) -> Result<(Exit, Exit), NoMemory>
    requires { CanAnswer answers.now }
    ensures same { IfOk result (λ exits. exits.1 ≡ exits.0) }
    ensures sizes { IfOk result (λ exits. FitsExit exits.0) }
    ensures exit { IfOk result (λ exits.
        IfSome (option_copied request.entry) (λ r. exits.0 ≡ answer_of answers.now r)) }
    ensures results { IfOk result (λ exits.
        IfSome (option_copied request.entry) (λ r. AnswersPath r.results exits.0.results)) }
{
    match request {
        Some(request) => {
            let exit = exit_of(alloc, answers, request)?;
            let kept = exit.copy(alloc)?;
            Ok((exit, kept))
        }
        None => Ok((unknown(alloc), unknown(alloc))),
    }
}
