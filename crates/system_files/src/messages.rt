//! Standard error, which is asked for room before each write.

use crate::line::end_line;
use base::NoMemory;
use libc::net::{POLLERR, POLLHUP, POLLNVAL, POLLOUT, poll};
use libc::types::pollfd;
use std::alloc::Global;
use std::io::{Stderr, Write};

/// The descriptor of standard error.
const STDERR: i32 = 2;

/// How long the last lines of a run wait for room, in milliseconds, all of them together.
const PATIENCE: i32 = 2_000;

/// The milliseconds of one wait.
const WAIT: i32 = 100;

/// Lines for standard error. A line for which there is no room is dropped and counted, and the count is written once there
/// is room again. The modes of the descriptor are never changed, since other processes share it.
#[derive(Drop)]
pub struct Messages {
    alloc: Global,
    out: Stderr,
    is_open: bool,
    dropped: u64,
    patience: i32,
}

impl Messages {
    /// Nothing is written yet. Call this before the program opens a file: if standard error is closed, the file could get its
    /// descriptor.
    pub fn new(alloc: Global, out: Stderr) -> Messages {
        let mut messages = Messages {
            alloc,
            out,
            is_open: true,
            dropped: 0,
            patience: PATIENCE,
        };
        let _ = messages.has_room(0);
        messages
    }

    /// Writes a line with its end, where there is room for it now.
    pub fn say(&mut self, line: &[u8]) {
        let has_room = self.has_room(0);
        self.write_or_drop(line, has_room);
    }

    /// Writes a line with its end, and waits a while for room.
    pub fn say_at_end(&mut self, line: &[u8]) {
        let has_room = self.waits_for_room();
        self.write_or_drop(line, has_room);
    }

    /// Writes bytes that matter only for the moment, if there is room for them now. Otherwise they are dropped and not counted.
    pub fn show(&mut self, bytes: &[u8]) {
        if self.has_room(0) {
            let _ = self.out.write_all(bytes);
        }
    }

    /// Says at the end of a run how many lines were dropped, if any were.
    pub fn finish(&mut self) {
        if self.dropped > 0 && self.waits_for_room() {
            self.tell_dropped();
        }
    }

    fn write_or_drop(&mut self, line: &[u8], has_room: bool) {
        if !has_room {
            self.dropped = self.dropped.saturating_add(1);
            return;
        }
        self.tell_dropped();
        if self.out.write_all(line).is_err() {
            self.dropped = self.dropped.saturating_add(1);
        }
    }

    /// Writes how many lines were dropped, if any were.
    fn tell_dropped(&mut self) {
        if self.dropped == 0 {
            return;
        }
        if let Ok(line) = dropped_line(self.alloc, self.dropped) {
            if self.out.write_all(line.as_slice()).is_ok() {
                self.dropped = 0;
            }
        }
    }

    /// Whether there is room for a short write, now or within the remaining patience.
    fn waits_for_room(&mut self) -> bool {
        if self.has_room(0) {
            return true;
        }
        for _ in 0..PATIENCE / WAIT {
            if !self.is_open || self.patience < WAIT {
                return false;
            }
            self.patience -= WAIT;
            if self.has_room(WAIT) {
                return true;
            }
        }
        false
    }

    /// Whether there is room for a short write within `millis` milliseconds. Once nobody can read any more, there is never room.
    fn has_room(&mut self, millis: i32) -> bool {
        if !self.is_open {
            return false;
        }
        let mut asked = [pollfd {
            fd: STDERR,
            events: POLLOUT,
            revents: 0,
        }];
        if poll(&mut asked, millis) <= 0 {
            return false;
        }
        let told = asked[0].revents;
        if told & (POLLERR | POLLHUP | POLLNVAL) != 0 {
            self.is_open = false;
            return false;
        }
        told & POLLOUT != 0
    }
}

/// The line that counts what was dropped.
fn dropped_line(alloc: Global, dropped: u64) -> Result<Vec<u8>, NoMemory> {
    let text = format!(in alloc;
        "vunit_run: warning: {dropped} lines dropped, standard error was full"
    )?;
    let mut line = Vec::from_slice(alloc, text.as_bytes())?;
    end_line(&mut line)?;
    Ok(line)
}
