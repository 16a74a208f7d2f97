//! An output in memory.
ghost use Rattle.std.specs.Prelude.{◌≡◌, ◌+◌, [], length, OnErr};
ghost use Rattle.outside.specs.Counts.{SinkCounts};
ghost use Rattle.outside.specs.Streams.{Puts};
ghost use Rattle.memory_outside.specs.Failing.{no_calls, MakesCall, SinkFails};

use crate::failing::Calls;
use base::Numbers;
use outside::{Sink, SinkFault};
use std::alloc::Global;
use std::marker::Model;

/// An output in memory.
#[derive(Drop)]
pub struct MemSink {
    bytes: Vec<u8>,
    calls: Calls,
}

impl Model for MemSink {
    ghost use Rattle.std.specs.Prelude.{vec_capacity};
    ghost use Rattle.memory_outside.specs.Streams.{HeldSink};

    ghost Value = { HeldSink };

    ghost view = { λ a. record {
      contents = a.bytes.items;
      room = vec_capacity a.bytes;
      calls = a.calls;
    } };
}

impl MemSink {
    /// An empty sink, which takes no memory. The calls of these numbers, counted from 0, are to fail.
    pub fn new(alloc: Global, failing: Numbers) -> MemSink
        ensures contents { result.contents ≡ [] }
        ensures calls { result.calls ≡ no_calls failing }
    {
        MemSink {
            bytes: Vec::new(alloc),
            calls: Calls::new(failing),
        }
    }

    /// What was put.
    pub fn bytes(&self) -> &[u8]
        ensures { result.now ≡ self.now.contents }
    {
        self.bytes.as_slice()
    }
}

impl Sink for MemSink {
    ghost tells = { Unit {0} };

    ghost contents = { λ s. s.contents };

    ghost failed_puts = { λ s. s.calls.failed };

    fn put(&mut self, bytes: &[u8]) -> Result<(), SinkFault>
        ensures contents { Puts result bytes.now self.old.contents self.new.contents }
        ensures unchanged { OnErr result (self.new.contents ≡ self.old.contents) }
        ensures cause { SinkCounts result self.old.calls.failed self.new.calls.failed }
        ensures fails { let wanted = length self.old.contents + length bytes.now in
            SinkFails result self.old.calls self.old.room wanted }
        ensures calls { MakesCall self.old.calls self.new.calls }
    {
        if self.calls.begin() {
            self.calls.fail();
            return Err(SinkFault::Failed);
        }
        let Ok(()) = self.bytes.extend_from_slice(bytes) else {
            self.calls.fail();
            return Err(SinkFault::Failed);
        };
        Ok(())
    }
}
