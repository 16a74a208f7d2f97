//! The lines about children on standard error.

use crate::asked::{Asked, AskedTests, asked_of};
use crate::counts::{Counts, add};
use crate::line::{
    EMPTY_LINE, Failure, end_cause, failure_line, long_name_line, screen_line, summary_line,
};
use base::{Exit, NoMemory, Request};
use std::alloc::Global;
use std::rt::Clock;
use std::time::Instant;
use system_files::Messages;
use testbench_runs::{Verdict, verdicts};

/// When the first summary is due, in milliseconds of the run.
const FIRST_SUMMARY: u64 = 10_000;

/// The milliseconds from one summary to the next.
const SUMMARY_PERIOD: u64 = 30_000;

/// The bytes that the name of a folder has at most.
const FOLDER_LIMIT: usize = 255;

/// The milliseconds from one line of a terminal to the next.
const SCREEN_PERIOD: u64 = 1_000;

/// How lines are written to standard error.
#[derive(Clone, Copy)]
pub struct Manner {
    /// Whether it is a terminal, on which a line can be written over.
    pub is_screen: bool,
    /// Whether summaries are left out.
    pub is_quiet: bool,
}

/// A child that runs.
#[derive(Drop)]
struct Shown {
    ticket: u64,
    asked: Asked,
    /// When it was started, in milliseconds of the run.
    began: u64,
}

/// Writes lines about children to standard error, and counts children and tests. A line for which there is no memory is left out.
#[derive(Drop)]
pub struct Teller<R: Clock + Drop> {
    clock: R,
    messages: Messages,
    manner: Manner,
    began: Option<Instant>,
    running: Vec<Shown>,
    counts: Counts,
    /// When the next summary is due, and how many children had ended at the last one.
    next_summary: u64,
    summed_up: u64,
    /// The names of the tests that failed.
    failed: Vec<Vec<u8>>,
    lost: Option<Vec<u8>>,
}

impl<R: Clock + Drop> Teller<R> {
    /// The run begins now.
    pub fn new(alloc: Global, clock: R, messages: Messages, manner: Manner) -> Teller<R> {
        let began = Instant::now(&clock).ok();
        Teller {
            clock,
            messages,
            manner,
            began,
            running: Vec::new(alloc),
            counts: Counts::new(),
            next_summary: FIRST_SUMMARY,
            summed_up: 0,
            failed: Vec::new(alloc),
            lost: None,
        }
    }

    /// The counts of children and tests so far.
    pub fn counts(&self) -> Counts {
        self.counts
    }

    /// The title of the first child that was lost, if one was.
    pub fn lost_title(&self) -> Option<&[u8]> {
        match &self.lost {
            Some(title) => Some(title.as_slice()),
            None => None,
        }
    }

    /// The names of the tests that failed, in the order of their ends.
    pub fn failed_tests(&self) -> &[Vec<u8>] {
        self.failed.as_slice()
    }

    /// Standard error, for the lines after the last child has ended.
    pub fn into_messages(self) -> Messages {
        let Teller { messages, .. } = self;
        messages
    }

    /// Up to `starts` more starts are due.
    pub fn note_due(&mut self, starts: u64) {
        add(&mut self.counts.due, starts);
    }

    /// One of the due starts isn't needed.
    pub fn note_spared(&mut self) {
        self.counts.due = self.counts.due.saturating_sub(1);
    }

    /// The results of a run that isn't started yet will lie at a path. A folder whose name is too long is told at once.
    pub fn note_results(&mut self, alloc: Global, path: &[u8]) {
        let name = folder_name(path);
        if name.len() <= FOLDER_LIMIT {
            return;
        }
        if let Ok(line) = long_name_line(alloc, name, FOLDER_LIMIT) {
            self.messages.say(line.as_slice());
        }
    }

    /// A child was started.
    pub fn note_start(&mut self, alloc: Global, ticket: u64, request: &Request) {
        let Ok(Some(asked)) = asked_of(alloc, request) else {
            return;
        };
        self.count_start(&asked);
        let began = self.now();
        let _ = self.running.push(Shown {
            ticket,
            asked,
            began,
        });
        self.show(alloc);
    }

    fn count_start(&mut self, asked: &Asked) {
        match &asked.tests {
            Some(tests) => {
                add(&mut self.counts.tests_started, count_of(tests));
                self.counts.has_own_simulator |= asked.is_own;
            }
            None => self.counts.has_own_compiler |= asked.is_own,
        }
    }

    /// A child has ended, by this signal if by one.
    pub fn note_exit(&mut self, alloc: Global, ticket: u64, exit: &Exit, signal: Option<i32>) {
        add(&mut self.counts.ended, 1);
        let Some(shown) = self.take(ticket) else {
            return;
        };
        let _ = self.tell_exit(alloc, &shown, exit, signal);
        self.show(alloc);
    }

    /// The end of a child is lost.
    pub fn note_loss(&mut self, alloc: Global, ticket: u64) {
        add(&mut self.counts.ended, 1);
        let Some(shown) = self.take(ticket) else {
            return;
        };
        if let Some(tests) = &shown.asked.tests {
            add(&mut self.counts.tests_lost, count_of(tests));
        }
        if self.lost.is_none() {
            self.lost = shown.asked.title(alloc).ok();
        }
        self.show(alloc);
    }

    fn take(&mut self, ticket: u64) -> Option<Shown> {
        let at = self
            .running
            .iter()
            .position(|shown| shown.ticket == ticket)?;
        Some(self.running.remove(at))
    }

    fn tell_exit(
        &mut self,
        alloc: Global,
        shown: &Shown,
        exit: &Exit,
        signal: Option<i32>,
    ) -> Result<(), NoMemory> {
        let cause = end_cause(alloc, exit.code, signal)?;
        let millis = self.now().saturating_sub(shown.began);
        let has_passed = match &shown.asked.tests {
            Some(tests) => {
                self.tell_tests(alloc, &shown.asked, tests, exit, millis, cause.as_slice())?
            }
            None => self.tell_file(alloc, &shown.asked, exit, millis, cause.as_slice())?,
        };
        if has_passed {
            add(&mut self.counts.passed, 1);
        } else {
            add(&mut self.counts.failed, 1);
        }
        Ok(())
    }

    /// Tells of a file that failed. Gives whether it passed.
    fn tell_file(
        &mut self,
        alloc: Global,
        asked: &Asked,
        exit: &Exit,
        millis: u64,
        cause: &[u8],
    ) -> Result<bool, NoMemory> {
        if exit.code == 0 {
            return Ok(true);
        }
        let failure = Failure {
            name: asked.name.as_slice(),
            millis,
            folder: b"",
            cause,
        };
        self.tell_failure(alloc, &failure)?;
        Ok(false)
    }

    /// Tells of the tests that failed. Gives whether all have passed.
    fn tell_tests(
        &mut self,
        alloc: Global,
        asked: &Asked,
        tests: &AskedTests,
        exit: &Exit,
        millis: u64,
        cause: &[u8],
    ) -> Result<bool, NoMemory> {
        let found = verdicts(
            alloc,
            &tests.cases,
            tests.is_whole,
            exit.code,
            &exit.results,
        )?;
        let mut has_passed = true;
        let mut has_started = found.is_empty();
        for i in 0..found.len() {
            let name = case_at(tests, i);
            match found.get(i) {
                Verdict::Passed => {
                    has_started = true;
                    add(&mut self.counts.tests_passed, 1);
                }
                Verdict::Failed => {
                    has_started = true;
                    has_passed = false;
                    self.tell_test(alloc, asked, tests, name, millis, cause)?;
                }
                Verdict::Skipped => has_passed = false,
            }
        }
        if !has_started {
            self.tell_unstarted(alloc, asked, tests, millis, cause)?;
        }
        Ok(has_passed)
    }

    /// Tells of a test that failed, and keeps its name.
    fn tell_test(
        &mut self,
        alloc: Global,
        asked: &Asked,
        tests: &AskedTests,
        case: &[u8],
        millis: u64,
        cause: &[u8],
    ) -> Result<(), NoMemory> {
        add(&mut self.counts.tests_failed, 1);
        let name = asked.case_name(alloc, case)?;
        let failure = Failure {
            name: name.as_slice(),
            millis,
            folder: tests.folder.as_slice(),
            cause,
        };
        self.tell_failure(alloc, &failure)?;
        self.failed.push(name)?;
        Ok(())
    }

    /// Tells of a simulator that ended before it had started any of its tests, which are then skipped.
    fn tell_unstarted(
        &mut self,
        alloc: Global,
        asked: &Asked,
        tests: &AskedTests,
        millis: u64,
        cause: &[u8],
    ) -> Result<(), NoMemory> {
        let title = asked.title(alloc)?;
        let failure = Failure {
            name: title.as_slice(),
            millis,
            folder: tests.folder.as_slice(),
            cause,
        };
        self.tell_failure(alloc, &failure)
    }

    /// Writes the line of a failure, on a terminal in the place of the line that is written over.
    fn tell_failure(&mut self, alloc: Global, failure: &Failure<'_>) -> Result<(), NoMemory> {
        let line = failure_line(alloc, failure)?;
        if self.manner.is_screen {
            self.messages.show(EMPTY_LINE);
        }
        self.messages.say(line.as_slice());
        Ok(())
    }

    /// Writes the terminal's line over; it is empty if no child runs.
    fn show(&mut self, alloc: Global) {
        if !self.manner.is_screen {
            return;
        }
        let Some(oldest) = self.running.first() else {
            self.messages.show(EMPTY_LINE);
            return;
        };
        let Ok(title) = oldest.asked.title(alloc) else {
            return;
        };
        let now = self.now();
        if let Ok(line) = screen_line(alloc, &self.counts, now, title.as_slice()) {
            self.messages.show(line.as_slice());
        }
    }

    /// The milliseconds until the next line is due, if no child ends before. `None` if no line will be due.
    pub fn pause(&self) -> Option<i32> {
        if self.began.is_none() {
            return None;
        }
        let now = self.now();
        let millis = if self.manner.is_screen {
            SCREEN_PERIOD - now % SCREEN_PERIOD
        } else if self.manner.is_quiet {
            return None;
        } else {
            self.next_summary.saturating_sub(now)
        };
        Some(i32::try_from(millis).unwrap_or(i32::MAX))
    }

    /// Writes the line that is due by now, if one is.
    pub fn tick(&mut self, alloc: Global) {
        if self.manner.is_screen {
            self.show(alloc);
            return;
        }
        let now = self.now();
        if now < self.next_summary {
            return;
        }
        self.next_summary = now.saturating_add(SUMMARY_PERIOD);
        if self.summed_up == self.counts.ended {
            return;
        }
        self.summed_up = self.counts.ended;
        if let Ok(line) = summary_line(alloc, &self.counts) {
            self.messages.say(line.as_slice());
        }
    }

    /// The milliseconds since the run began.
    fn now(&self) -> u64 {
        let Some(began) = self.began else {
            return 0;
        };
        match began.elapsed(&self.clock) {
            Ok(time) => u64::try_from(time.as_millis()).unwrap_or(u64::MAX),
            Err(_) => 0,
        }
    }
}

/// The name of the folder that a file lies in: what is between the last slash of its path and the one before.
fn folder_name(path: &[u8]) -> &[u8] {
    let folder = match path.iter().rposition(|byte| *byte == b'/') {
        Some(end) => path.get(..end).unwrap_or(path),
        None => return b"",
    };
    match folder.iter().rposition(|byte| *byte == b'/') {
        Some(slash) => folder.get(slash.saturating_add(1)..).unwrap_or(folder),
        None => folder,
    }
}

/// How many tests a run has.
fn count_of(tests: &AskedTests) -> u64 {
    if tests.is_whole { 1 } else { tests.cases.len() }
}

/// The name of the case that a verdict is of.
fn case_at(tests: &AskedTests, i: u64) -> &[u8] {
    if i < tests.cases.len() {
        tests.cases.get(i).bytes()
    } else {
        b"all"
    }
}
