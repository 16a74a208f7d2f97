//! The children that run, by their tickets.

ghost use Rattle.std.specs.Prelude.{◌≡◌, ◌<◌, ◌++◌, ◌∷◌, [], vec_len, ◌⊎◌, length, Contains, IfOk, OnErr, MatchResult};
ghost use Rattle.base.specs.declared.child.MaybeText.TheVariants.{Nothing};

use crate::child::{ChildEnd, Running, end_child, start_child};
use crate::tickets::leave;
use crate::turns::Turns;
use base::{MaybeText, NoMemory, Request, Text};
use libc::net::{POLLHUP, POLLOUT, poll};
use libc::types::pollfd;
use outside::{Ended, Procs, StartFault, WaitFault, count_fault};
use std::alloc::Global;
use std::fs::Files;
use std::io::{ErrorKind, Write};
use std::os::fd::{AsRawFd, RawFd};
use std::process::{ChildStdin, Processes, SystemProcess};
use std::{env, fs, io};
use system_files::{Cause, IoFault};

/// The bytes that one read takes at most: what a pipe holds.
const CHUNK: usize = 65_536;

/// The system's link to the program of the process that opens it.
const OWN_LINK: &str = "/proc/self/exe";

/// How long, in milliseconds, a child alone is waited for while its input is written, before all others are looked at too.
const PATIENCE: i32 = 10;

/// How many turns are for one child alone before all others are looked at too.
const TURNS_ALONE: u64 = 16;

/// How often a child that reads no more is looked at for what it says of that, for the time of one patience each.
const LAST_TURNS: u64 = 50;

/// Children of this process. It counts its failures, and tells nothing but its running tickets. A command whose first
/// word is `@self` starts the program itself.
#[derive(Drop)]
pub struct ChildProcs<R: Processes<Started = SystemProcess>> {
    runtime: R,
    own_path: Option<String>,
    next_ticket: u64,
    // the running children and, apart from them, their tickets, both in order of start
    children: Vec<Running>,
    tickets: Vec<u64>,
    failed_starts: u64,
    lost_children: u64,
    // why the first start failed that did, and what it was about where there was memory for that
    start_cause: Option<Cause>,
    start_title: Option<Text>,
    // what the child had printed that was started and couldn't be fed
    start_said: Option<Vec<u8>>,
    // why the first child was lost that was
    child_cause: Option<Cause>,
    // the signal that ended the child that ended last, if one did
    signal: Option<i32>,
    // what the system is asked, kept for its room
    asked: Vec<pollfd>,
    buffer: Vec<u8>,
    ghost has_room: { 0 < vec_len buffer },
    ghost together: { vec_len children ≡ vec_len tickets },
}

impl<R: Processes<Started = SystemProcess> + Files + AllocGlobal + Drop> ChildProcs<R> {
    /// No child runs. Where the program's own path isn't known, only commands with `@self` fail.
    pub fn new(alloc: Global, runtime: R) -> Result<ChildProcs<R>, NoMemory>
        ensures { IfOk result (λ procs. procs.tickets.items ≡ []) }
    {
        let own_path = own_path(&runtime)?;
        Ok(ChildProcs {
            runtime,
            own_path,
            next_ticket: 0,
            children: Vec::new(alloc),
            tickets: Vec::new(alloc),
            failed_starts: 0,
            lost_children: 0,
            start_cause: None,
            start_title: None,
            start_said: None,
            child_cause: None,
            signal: None,
            asked: Vec::new(alloc),
            buffer: vec![in alloc; 0; CHUNK]?,
        })
    }

    /// The tickets of the running children, in order of start.
    pub fn running_tickets(&self) -> &[u64]
        ensures { result.now ≡ self.now.tickets.items }
    {
        self.tickets.as_slice()
    }

    /// The cause of the first failed start, and its title: the command, and for a test the path of its results.
    pub fn start_cause(&self) -> Option<(&[u8], Cause)> {
        let cause = self.start_cause?;
        match &self.start_title {
            Some(title) => Some((title.bytes(), cause)),
            None => Some((b"a command", cause)),
        }
    }

    /// The output of the first child that was started and took less than its whole input.
    pub fn start_said(&self) -> Option<&[u8]> {
        match &self.start_said {
            Some(said) => Some(said.as_slice()),
            None => None,
        }
    }

    /// The cause of the first loss of a child.
    pub fn child_cause(&self) -> Option<Cause> {
        self.child_cause
    }

    /// Keeps why a start failed, if none did before.
    fn note_start(&mut self, alloc: Global, request: &Request, cause: Cause)
        ensures tickets { self.new.tickets.items ≡ self.old.tickets.items }
        ensures starts { self.new.failed_starts ≡ self.old.failed_starts }
        ensures children { self.new.lost_children ≡ self.old.lost_children }
    {
        if self.start_cause.is_none() {
            self.start_cause = Some(cause);
            self.start_title = match title_of(alloc, request) {
                Ok(title) => Some(title),
                Err(_) => None,
            };
        }
    }

    /// Keeps why a child was lost, if none was before.
    fn note_loss(&mut self, cause: Cause)
        ensures tickets { self.new.tickets.items ≡ self.old.tickets.items }
        ensures starts { self.new.failed_starts ≡ self.old.failed_starts }
        ensures children { self.new.lost_children ≡ self.old.lost_children }
    {
        if self.child_cause.is_none() {
            self.child_cause = Some(cause);
        }
    }

    /// Keeps the output of a child that couldn't be given its whole input, if it is the first such child.
    fn note_said(&mut self, said: Vec<u8>)
        ensures tickets { self.new.tickets.items ≡ self.old.tickets.items }
        ensures starts { self.new.failed_starts ≡ self.old.failed_starts }
        ensures children { self.new.lost_children ≡ self.old.lost_children }
    {
        if self.start_said.is_none() {
            self.start_said = Some(said);
        }
    }

    /// A ticket that no earlier start gave and that no running child has. It fails if no ticket is left.
    fn fresh_ticket(&self) -> Result<u64, IoFault>
        ensures ticket { IfOk result (λ ticket. ¬ (Contains self.now.tickets.items ticket)) }
        ensures later { IfOk result (λ ticket. ticket < u64.MAX) }
        ensures refused { let next = self.now.next_ticket in
            OnErr result ((next ≡ u64.MAX) ⊎ Contains self.now.tickets.items next) }
    {
        let ticket = self.next_ticket;
        if ticket == u64::MAX {
            return Err(IoFault::own_fault("start", "no ticket is left"));
        }
        if self.tickets.contains(&ticket) {
            return Err(IoFault::own_fault("start", "no ticket is left"));
        }
        Ok(ticket)
    }

    /// Room for one more child is made first, so that a started child is never given up for lack of memory.
    fn start_next(&mut self, alloc: Global, request: &Request) -> Result<u64, IoFault>
        ensures tickets { MatchResult result
            (λ ticket.
            (¬ (Contains self.old.tickets.items ticket))
            × (self.new.tickets.items ≡ self.old.tickets.items ++ ticket ∷ []))
            (λ _. self.new.tickets.items ≡ self.old.tickets.items) }
        ensures starts { self.new.failed_starts ≡ self.old.failed_starts }
        ensures children { self.new.lost_children ≡ self.old.lost_children }
    {
        let ticket = self.fresh_ticket()?;
        self.tickets.reserve(1)?;
        self.children.reserve(1)?;
        let (child, stdin) = start_child(&self.runtime, alloc, &self.own_path, request)?;
        self.tickets.push_reserved(ticket);
        self.children.push_reserved(child);
        match self.feed(stdin, request.input.bytes()) {
            Ok(()) => {
                self.next_ticket = ticket + 1;
                Ok(ticket)
            }
            Err(fault) => {
                self.hear_last();
                self.tickets.pop();
                if let Some(child) = self.children.pop() {
                    self.note_said(child.abandon());
                }
                Err(fault)
            }
        }
    }

    /// Writes the whole input and closes it, and reads what children print meanwhile, so that neither waits for the
    /// other.
    fn feed(&mut self, stdin: Option<ChildStdin>, input: &[u8]) -> Result<(), IoFault>
        ensures tickets { self.new.tickets.items ≡ self.old.tickets.items }
        ensures starts { self.new.failed_starts ≡ self.old.failed_starts }
        ensures children { self.new.lost_children ≡ self.old.lost_children }
    {
        let Some(mut stdin) = stdin else {
            return Err(IoFault::own_fault("write", "it has no input"));
        };
        if os::set_nonblocking(stdin.as_raw_fd(), true) != 0 {
            return Err(last_fault("ioctl"));
        }
        let mut rest = input;
        let mut alone = 0;
        for _ in 0..u64::MAX {
            if rest.is_empty() {
                return Ok(());
            }
            match stdin.write(rest) {
                Ok(count) => rest = &rest[count..],
                Err(error) if error.kind() == ErrorKind::WouldBlock => {
                    alone = self.turn_for_last(stdin.as_raw_fd(), alone)?;
                }
                Err(error) if error.kind() == ErrorKind::Interrupted => {}
                Err(error) => return Err(IoFault::of("write", error)),
            }
        }
        Err(IoFault::own_fault("write", "it has no end"))
    }

    /// Waits until the last child takes more of its input or prints, and reads what it printed. It may wait for another
    /// child, so where it does neither for a while, and after some turns for it alone, all children are looked at. Gives
    /// how many turns for it alone there were since.
    fn turn_for_last(&mut self, stdin: RawFd, alone: u64) -> Result<u64, IoFault>
        ensures tickets { self.new.tickets.items ≡ self.old.tickets.items }
        ensures starts { self.new.failed_starts ≡ self.old.failed_starts }
        ensures children { self.new.lost_children ≡ self.old.lost_children }
    {
        if alone < TURNS_ALONE {
            let last = self.children.len().saturating_sub(1);
            let is_told = self.turn(last, stdin, PATIENCE)?;
            if is_told {
                return Ok(alone + 1);
            }
        }
        let _is_told = self.turn(0, stdin, -1)?;
        Ok(0)
    }

    /// Reads for a while what the last child prints that reads no more.
    fn hear_last(&mut self)
        ensures tickets { self.new.tickets.items ≡ self.old.tickets.items }
        ensures starts { self.new.failed_starts ≡ self.old.failed_starts }
        ensures children { self.new.lost_children ≡ self.old.lost_children }
    {
        let last = self.children.len().saturating_sub(1);
        for _ in 0..LAST_TURNS {
            if self.has_end_from(last) || self.turn(last, -1, PATIENCE).is_err() {
                return;
            }
        }
    }

    /// Whether the output of a child from an index on is at its end.
    fn has_end_from(&self, from: usize) -> bool {
        self.children
            .iter()
            .skip(from)
            .any(|child| child.is_at_end())
    }

    /// Waits until the output of a child from an index on can be read, or until the pipe `stdin` can be written. Reads each
    /// output that can be read. Answers false if neither came within `limit` milliseconds, and true after an interruption. A
    /// `limit` below 0 means no limit, and a `stdin` below 0 means no pipe.
    fn turn(&mut self, from: usize, stdin: RawFd, limit: i32) -> Result<bool, IoFault>
        ensures tickets { self.new.tickets.items ≡ self.old.tickets.items }
        ensures starts { self.new.failed_starts ≡ self.old.failed_starts }
        ensures children { self.new.lost_children ≡ self.old.lost_children }
    {
        ask(&mut self.asked, self.children.as_slice(), from, stdin)?;
        let told = poll(self.asked.as_mut_slice(), limit);
        if told >= 0 {
            let buffer = self.buffer.as_mut_slice();
            let children = self.children.as_mut_slice();
            read_ready(children, from, self.asked.as_slice(), buffer);
            return Ok(told > 0);
        }
        if os::errno() == libc::EINTR {
            return Ok(true);
        }
        Err(last_fault("poll"))
    }

    /// The index of the first child, in order of start, whose output is at its end; it waits until there is one. If the poll
    /// fails, the oldest child is given up.
    fn first_at_end(&mut self) -> usize
        requires { 0 < length self.old.tickets.items }
        ensures index { result < length self.new.tickets.items }
        ensures tickets { self.new.tickets.items ≡ self.old.tickets.items }
        ensures starts { self.new.failed_starts ≡ self.old.failed_starts }
        ensures children { self.new.lost_children ≡ self.old.lost_children }
    {
        for _ in 0..u64::MAX {
            if let Some(at) = self.children.iter().position(|child| child.is_at_end()) {
                return at;
            }
            if let Err(fault) = self.turn(0, -1, -1) {
                self.children[0].give_up(fault);
                return 0;
            }
        }
        self.children[0].give_up(IoFault::own_fault("poll", "it has no end"));
        0
    }
}

/// The fault of the last call of the system, which failed.
fn last_fault(call: &'static str) -> IoFault {
    let error = io::Error::from_raw_os_error(os::errno());
    IoFault::Failed(Cause { call, error })
}

/// Collects the poll requests for the outputs of the children from an index on, and for a pipe that is written.
fn ask(
    asked: &mut Vec<pollfd>,
    children: &[Running],
    from: usize,
    stdin: RawFd,
) -> Result<(), IoFault> {
    asked.clear();
    for child in children.iter().skip(from) {
        asked.push(child.poll_request())?;
    }
    asked.push(pollfd {
        fd: stdin,
        events: POLLOUT,
        revents: 0,
    })?;
    Ok(())
}

/// Reads the output of each child from an index on for which the system reported something. One read takes all bytes that a pipe
/// holds. If nobody can write to the pipe any longer, it reads once more, since then no read waits.
fn read_ready(children: &mut [Running], from: usize, asked: &[pollfd], buffer: &mut [u8]) {
    for (child, asked) in children.iter_mut().skip(from).zip(asked) {
        if asked.revents != 0 {
            child.read_on(buffer);
        }
        if asked.revents & POLLHUP != 0 {
            child.read_on(buffer);
        }
    }
}

/// The words of a command with blanks between them, and then the path of results, if there is one.
fn title_of(alloc: Global, request: &Request) -> Result<Text, NoMemory> {
    let mut line = Vec::new(alloc);
    for word in request.command.as_slice() {
        if !line.is_empty() {
            line.push(b' ')?;
        }
        line.extend_from_slice(word.bytes())?;
    }
    if let MaybeText::Given(path) = &request.results {
        line.extend_from_slice(b" (")?;
        line.extend_from_slice(path.bytes())?;
        line.push(b')')?;
    }
    Ok(Text::from_vec(line))
}

/// The program's own path, or where that isn't UTF-8 the system's link to the program of whoever opens it, which is that of a
/// child until this starts another.
fn own_path<R: Files + AllocGlobal>(runtime: &R) -> Result<Option<String>, NoMemory> {
    match env::current_exe(runtime) {
        Ok(path) => Ok(Some(path.into_string())),
        Err(error) if error.kind() == ErrorKind::OutOfMemory => Err(NoMemory),
        Err(_) if fs::symlink_metadata(runtime, OWN_LINK).is_ok() => {
            Ok(Some(String::from_str(runtime.alloc(), OWN_LINK)?))
        }
        Err(_) => Ok(None),
    }
}

impl<R: Processes<Started = SystemProcess> + Files + AllocGlobal + Drop> Procs for ChildProcs<R> {
    ghost tells = { ⊥ };

    ghost running = { λ a. a.tickets.items };

    ghost journal = { λ _. [] };

    ghost answer = { λ _ _. record { code = 0; output = []; results = Nothing } };

    ghost failed_starts = { λ a. a.failed_starts };

    ghost lost_children = { λ a. a.lost_children };

    fn start(&mut self, alloc: Global, request: &Request) -> Result<u64, StartFault> {
        match self.start_next(alloc, request) {
            Ok(ticket) => Ok(ticket),
            Err(IoFault::NoMemory) => Err(StartFault::NoMemory),
            Err(IoFault::Failed(cause)) => {
                self.note_start(alloc, request, cause);
                self.failed_starts = count_fault(self.failed_starts);
                Err(StartFault::Failed)
            }
        }
    }

    fn wait_any(&mut self, alloc: Global) -> Result<Ended, WaitFault> {
        let at = self.first_at_end();
        let ticket = self.tickets[at];
        let index = leave(&mut self.tickets, ticket);
        let running = self.children.remove(index);
        let buffer = self.buffer.as_mut_slice();
        match end_child(&self.runtime, buffer, alloc, running) {
            Ok(ChildEnd { exit, signal }) => {
                self.signal = signal;
                Ok(Ended { ticket, exit })
            }
            Err(IoFault::NoMemory) => Err(WaitFault::NoMemory { ticket }),
            Err(IoFault::Failed(cause)) => {
                self.note_loss(cause);
                self.lost_children = count_fault(self.lost_children);
                Err(WaitFault::Lost { ticket })
            }
        }
    }
}

impl<R: Processes<Started = SystemProcess> + Files + AllocGlobal + Drop> Turns for ChildProcs<R> {
    fn has_end_within(&mut self, millis: i32) -> bool {
        if self.has_end_from(0) {
            return true;
        }
        match self.turn(0, -1, millis) {
            Ok(_) => self.has_end_from(0),
            Err(_) => true,
        }
    }

    fn last_signal(&self) -> Option<i32> {
        self.signal
    }
}
