//! An input in memory.
ghost use Rattle.std.specs.Prelude.{◌≡◌, ◌≤◌, [], length, drop, IfOk, OnOk, OnErr};
ghost use Rattle.outside.specs.Counts.{SourceCounts};
ghost use Rattle.outside.specs.Streams.{take_end, IsTaken, line_end, after_line, FitsLine};
ghost use Rattle.memory_outside.specs.Failing.{no_calls, MakesCall, LineFails, SourceFails};

use crate::failing::Calls;
use base::{NoMemory, Numbers, Text};
use outside::{LineEnd, Source, SourceFault, TakeEnd, line_length};
use std::alloc::Global;
use std::marker::Model;
use std::mem;

/// An input in memory.
#[derive(Drop)]
pub struct MemSource {
    bytes: Text,
    // how many of these bytes were taken
    start: usize,
    calls: Calls,
}

impl Model for MemSource {
    ghost use Rattle.std.specs.Prelude.{drop, length, ◌≤◌};
    ghost use Rattle.memory_outside.specs.Streams.{HeldSource};

    ghost Value = { HeldSource };

    ghost view = { λ a. record { left = drop a.start a.bytes; calls = a.calls } };

    ghost invariant = { λ a. a.start ≤ length a.bytes };
}

/// The bytes from a start on. It takes no memory.
fn from_start(bytes: Text, start: usize) -> Text
    requires { start ≤ length bytes }
    ensures { result ≡ drop start bytes }
{
    let mut rest = bytes.into_vec();
    drop(rest.drain(..start));
    Text::from_vec(rest)
}

impl MemSource {
    /// A source of these bytes. The calls of these numbers, counted from 0, are to fail.
    pub fn new(bytes: Text, failing: Numbers) -> MemSource
        ensures { result ≡ record { left = bytes; calls = no_calls failing } }
    {
        MemSource {
            bytes,
            start: 0,
            calls: Calls::new(failing),
        }
    }

    /// What remains, which is taken.
    fn take_rest(&mut self, alloc: Global) -> Text
        ensures rest { result ≡ self.old.left }
        ensures taken { self.new.left ≡ [] }
        ensures calls { self.new.calls ≡ self.old.calls }
    {
        let start = mem::replace(&mut self.start, 0);
        from_start(mem::replace(&mut self.bytes, Text::new(alloc)), start)
    }

    /// The next line, up to a limit, which is taken.
    fn next_line(&mut self, alloc: Global, limit: u64) -> Result<LineEnd, NoMemory>
        ensures size { IfOk result (FitsLine limit) }
        ensures line { IfOk result (λ end. end ≡ line_end self.old.left limit) }
        ensures left { OnOk result (self.new.left ≡ after_line self.old.left) }
        ensures unchanged { OnErr result (self.new.left ≡ self.old.left) }
        ensures calls { self.new.calls ≡ self.old.calls }
    {
        let rest = &self.bytes.bytes()[self.start..];
        if rest.is_empty() {
            return Ok(LineEnd::End);
        }
        let length = line_length(rest);
        let next = if length < rest.len() {
            self.start + length + 1
        } else {
            self.start + length
        };
        if length as u64 > limit {
            self.start = next;
            return Ok(LineEnd::TooLong);
        }
        let line = Text::from_slice(alloc, &rest[..length])?;
        self.start = next;
        Ok(LineEnd::Got(line))
    }
}

impl Source for MemSource {
    ghost tells = { Unit {0} };

    ghost left = { λ s. s.left };

    ghost failed_takes = { λ s. s.calls.failed };

    fn take_line(&mut self, alloc: Global, limit: u64) -> Result<LineEnd, SourceFault>
        ensures size { IfOk result (FitsLine limit) }
        ensures line { IfOk result (λ end. end ≡ line_end self.old.left limit) }
        ensures left { OnOk result (self.new.left ≡ after_line self.old.left) }
        ensures unchanged { OnErr result (self.new.left ≡ self.old.left) }
        ensures cause { SourceCounts result self.old.calls.failed self.new.calls.failed }
        ensures fails { LineFails result self.old.calls }
        ensures calls { MakesCall self.old.calls self.new.calls }
    {
        if self.calls.begin() {
            self.calls.fail();
            return Err(SourceFault::Failed);
        }
        match self.next_line(alloc, limit) {
            Ok(end) => Ok(end),
            Err(_) => Err(SourceFault::NoMemory),
        }
    }

    fn take(&mut self, alloc: Global, limit: u64) -> Result<TakeEnd, SourceFault>
        ensures size { IfOk result (IsTaken limit) }
        ensures input { IfOk result (λ end. end ≡ take_end self.old.left limit) }
        ensures taken { OnOk result (self.new.left ≡ []) }
        ensures unchanged { OnErr result (self.new.left ≡ self.old.left) }
        ensures cause { SourceCounts result self.old.calls.failed self.new.calls.failed }
        ensures fails { SourceFails result self.old.calls }
        ensures calls { MakesCall self.old.calls self.new.calls }
    {
        if self.calls.begin() {
            self.calls.fail();
            return Err(SourceFault::Failed);
        }
        let bytes = self.take_rest(alloc);
        if bytes.bytes().len() as u64 > limit {
            return Ok(TakeEnd::TooLong);
        }
        Ok(TakeEnd::Got(bytes))
    }
}
