//! Bytes that were read of a reader and aren't taken yet.

ghost use Rattle.std.specs.Prelude.{◌≡◌, ◌<◌, ◌≤◌, [], length, drop, IfOk, OnOk};
ghost use Rattle.std.specs.Io.KnownBytes.{Consumes, IsAtEnd};
ghost use Rattle.outside.specs.Streams.{IsTaken};
ghost use Rattle.system_files.specs.Takes.{IsTakenOf};

use crate::IoFault;
use crate::reading::{read_some, take_whole};
use base::NoMemory;
use outside::TakeEnd;
use std::alloc::Global;
use std::io::Read;
use std::marker::Model;

/// The bytes that one read takes at most.
const CHUNK: usize = 65536;

/// Bytes that were read and aren't taken yet: those of a buffer from a start to an end.
#[derive(Drop)]
pub struct Buffered {
    buffer: Vec<u8>,
    start: usize,
    end: usize,
}

impl Model for Buffered {
    ghost use Rattle.std.specs.Prelude.{ℕ, List, ◌<◌, ◌≤◌, take, drop, vec_len};

    ghost Value = { List ℕ };

    ghost view = { λ a. drop a.start (take a.end a.buffer.items) };

    ghost invariant = { λ a. (a.start ≤ a.end) × (a.end ≤ vec_len a.buffer) × (0 < vec_len a.buffer) };
}

impl Buffered {
    /// Nothing is read yet.
    pub fn new(alloc: Global) -> Result<Buffered, NoMemory>
        ensures { IfOk result (λ buffered. buffered ≡ []) }
    {
        Ok(Buffered {
            buffer: vec![in alloc; 0; CHUNK]?,
            start: 0,
            end: 0,
        })
    }

    /// The bytes that aren't taken yet.
    pub(crate) fn rest(&self) -> &[u8]
        ensures { result.now ≡ self.now }
    {
        &self.buffer.as_slice()[self.start..self.end]
    }

    /// Takes the first bytes.
    pub(crate) fn skip(&mut self, count: usize)
        requires { count ≤ length self.old }
        ensures { self.new ≡ drop count self.old }
    {
        self.start += count;
    }

    /// Reads once, where all bytes are taken. Nothing is there afterwards exactly at the end.
    pub(crate) fn fill<R: Read>(&mut self, reader: &mut R) -> Result<(), IoFault>
        ensures given { OnOk result
            (Consumes (R.remaining reader.old) (R.remaining reader.new) self.new) }
        ensures end { OnOk result (self.new ≡ [] → IsAtEnd (R.remaining reader.new)) }
    {
        self.start = 0;
        self.end = 0;
        self.end = read_some(reader, self.buffer.as_mut_slice())?;
        Ok(())
    }

    /// What the reader still gives, to its end, where all bytes are taken.
    pub(crate) fn take_whole<R: Read>(
        &mut self,
        reader: &mut R,
        alloc: Global,
        limit: u64,
    ) -> Result<TakeEnd, IoFault>
        ensures size { IfOk result (IsTaken limit) }
        ensures input { IfOk result (IsTakenOf limit (R.remaining reader.old)) }
    {
        self.start = 0;
        self.end = 0;
        take_whole(reader, self.buffer.as_mut_slice(), alloc, limit)
    }
}
