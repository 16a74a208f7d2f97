//! Children that are started and ended, with their journal.
ghost use Rattle.std.specs.Prelude.{◌≡◌, ◌<◌, [], ◌∷◌, length, IfOk, Contains, option_copied};
ghost use Rattle.base.specs.declared.child.Event.TheVariants as event;
ghost use Rattle.outside.specs.Counts.{StartCounts};
ghost use Rattle.outside.specs.Children.{IsFresh, AddsTicket, AddsStart, started_with};
ghost use Rattle.memory_outside.specs.Failing.{fails_next, MakesCall, StartFails};
ghost use Rattle.memory_outside.specs.ChildLogs.{no_children, picked as picked_of, IsEnd, EndsChild, LosesChild};

use crate::RoomItems;
use crate::failing::{Calls, call_after};
use crate::tickets::{leave, pick};
use base::{Event, Exit, Numbers, Positions, Request};
use outside::{StartFault, count_fault};
use std::alloc::Global;
use std::marker::Model;

/// What happened to children, in order.
pub type EventList = RoomItems<Event>;

/// Children that are started and ended, with their journal. It says which child a wait takes, and leaves to its
/// owner how that child ends.
#[derive(Drop)]
pub struct ChildLog {
    running: Vec<u64>,
    journal: EventList,
    picks: Positions,
    waits: u64,
    // the faults that these count are failed starts
    calls: Calls,
    lost_children: u64,
}

impl Model for ChildLog {
    ghost use Rattle.memory_outside.specs.ChildLogs.{HeldChildLog, IsChildLog};

    ghost Value = { HeldChildLog };

    ghost view = { λ a. record {
      running = a.running.items;
      journal = a.journal.items;
      picks = a.picks;
      waits = a.waits;
      calls = a.calls;
      lost_children = a.lost_children;
    } };

    ghost invariant = { λ a. IsChildLog a.running.items a.journal };
}

impl ChildLog {
    /// A book of no children, which takes no memory. Wait number k takes the running ticket of index `picks[k]`,
    /// modulo how many run; past the end of the picks it takes the oldest. The calls of the numbers in `failing`,
    /// counted from 0 over starts and waits, are to fail.
    pub fn new(alloc: Global, picks: Positions, failing: Numbers) -> ChildLog
        ensures { result ≡ no_children picks failing }
    {
        ChildLog {
            running: Vec::new(alloc),
            journal: EventList::new(alloc),
            picks,
            waits: 0,
            calls: Calls::new(failing),
            lost_children: 0,
        }
    }

    /// What has happened so far, in order.
    pub fn journal(&self) -> &EventList
        ensures { result.now.items ≡ self.now.journal }
    {
        &self.journal
    }

    /// The tickets of the running children, in order of start.
    pub fn running_tickets(&self) -> &[u64]
        ensures { result.now ≡ self.now.running }
    {
        self.running.as_slice()
    }

    /// Whether the next call is to fail.
    pub fn fails(&self) -> bool
        ensures { result ≡ fails_next self.now.calls }
    {
        self.calls.fails()
    }

    /// The ticket that the next wait takes.
    pub fn next_ticket(&self) -> u64
        requires { 0 < length self.now.running }
        ensures picked { result ≡ picked_of self.now }
        ensures running { Contains self.now.running result }
    {
        let at = pick(self.picks.as_slice(), self.waits, self.running.len());
        self.running[at]
    }

    /// The request that a ticket was started with.
    pub fn request(&self, ticket: u64) -> Option<&Request>
        ensures { option_copied result ≡ started_with ticket self.now.journal }
    {
        if ticket >= self.journal.len() {
            return None;
        }
        started_as(self.journal.get(ticket), ticket)
    }

    /// Starts a child, or fails where that is listed. It copies the request; where it finds no memory nothing starts.
    pub fn start(&mut self, alloc: Global, request: &Request) -> Result<u64, StartFault>
        ensures running { AddsTicket result self.old.running self.new.running }
        ensures fresh { IfOk result (IsFresh self.old.journal) }
        ensures journal { AddsStart request.now result self.old.journal self.new.journal }
        ensures cause { StartCounts result self.old.calls.failed self.new.calls.failed }
        ensures fails { StartFails result self.old.calls }
        ensures calls { MakesCall self.old.calls self.new.calls }
        ensures picks { self.new.picks ≡ self.old.picks }
        ensures waits { self.new.waits ≡ self.old.waits }
        ensures children { self.new.lost_children ≡ self.old.lost_children }
    {
        if self.calls.begin() {
            self.calls.fail();
            return Err(StartFault::Failed);
        }
        let Ok(request) = request.copy(alloc) else {
            return Err(StartFault::NoMemory);
        };
        let Ok(()) = self.journal.reserve(self.running.len() + 2) else {
            return Err(StartFault::NoMemory);
        };
        let ticket = self.journal.len();
        let Ok(()) = self.running.push(ticket) else {
            return Err(StartFault::NoMemory);
        };
        self.journal.push_within(Event::Started { ticket, request });
        Ok(ticket)
    }

    /// A wait that ends in this exit. It takes no memory.
    pub fn end(&mut self, ticket: u64, exit: Exit)
        requires { Contains self.old.running ticket }
        ensures { EndsChild ticket (event.Ended ticket exit) self.old self.new }
    {
        self.close(ticket, Event::Ended { ticket, exit });
    }

    /// A wait that ends for lack of memory.
    pub fn forget(&mut self, ticket: u64)
        requires { Contains self.old.running ticket }
        ensures { EndsChild ticket (event.Gone ticket) self.old self.new }
    {
        self.close(ticket, Event::Gone { ticket });
    }

    /// A wait that loses the child, and counts that.
    pub fn lose(&mut self, ticket: u64)
        requires { Contains self.old.running ticket }
        ensures { LosesChild ticket self.old self.new }
    {
        self.lost_children = count_fault(self.lost_children);
        self.close(ticket, Event::Gone { ticket });
    }
}

impl ChildLog {
    /// A wait that ends a child with an event.
    fn close(&mut self, ticket: u64, end: Event)
        requires running { Contains self.old.running ticket }
        requires end { IsEnd end }
        ensures { EndsChild ticket end self.old self.new }
    {
        let _ = self.calls.begin();
        self.waits = call_after(self.waits);
        leave(&mut self.running, ticket);
        self.journal.push_within(end);
    }
}

/// The request of an event, if it is the start of the ticket.
fn started_as(event: &Event, ticket: u64) -> Option<&Request>
    ensures { option_copied result ≡ started_with ticket (event.now ∷ []) }
{
    match event {
        Event::Started {
            ticket: other,
            request,
        } if *other == ticket => Some(request),
        _ => None,
    }
}
