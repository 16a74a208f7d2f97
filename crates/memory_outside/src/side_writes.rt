//! One side of a disk at a moment.
ghost use Rattle.std.specs.Prelude.{◌≡◌, ℕ, ◌+◌, ◌^◌, ◌≤◌, ◌<◌, [], length, IfOk, OnOk, OnErr, if◌then◌else◌};
ghost use Rattle.outside.specs.Disks.{SideState, settled as settled_side, touching, written, cutting, shortened, synced};
ghost use Rattle.memory_outside.specs.Disks.{write_after, side_after, IsFilled};

use crate::images::{is_allowed, is_touched, overwrite};
use crate::logged::Act;
use base::NoMemory;
use std::alloc::Global;
use std::marker::Model;

/// A side of a disk, with what decides what a stop can leave of it.
#[derive(Drop)]
pub struct SideWrites {
    reads: Vec<u8>,
    synced: Vec<u8>,
    low: u64,
    high: u64,
    touched: Vec<(u64, u64)>,
}

impl Model for SideWrites {
    ghost use Rattle.outside.specs.Disks.{SideState};

    ghost Value = { SideState };

    ghost view = { λ a. record {
      reads = a.reads.items;
      synced = a.synced.items;
      low = a.low;
      high = a.high;
      touched = a.touched.items;
    } };
}

impl SideWrites {
    /// A side of no bytes, which takes no memory.
    pub fn new(alloc: Global) -> SideWrites
        ensures { result ≡ settled_side [] }
    {
        SideWrites {
            reads: Vec::new(alloc),
            synced: Vec::new(alloc),
            low: 0,
            high: 0,
            touched: Vec::new(alloc),
        }
    }

    /// A side of these bytes, synced.
    pub fn from_synced(alloc: Global, bytes: &[u8]) -> Result<SideWrites, NoMemory>
        ensures { IfOk result (λ side. side ≡ settled_side bytes.now) }
    {
        let len = bytes.len() as u64;
        Ok(SideWrites {
            reads: Vec::from_slice(alloc, bytes)?,
            synced: Vec::from_slice(alloc, bytes)?,
            low: len,
            high: len,
            touched: Vec::new(alloc),
        })
    }

    /// Goes through a call that was done, or that failed inside. After `NoMemory` the side is unchanged.
    pub fn apply(&mut self, alloc: Global, act: &Act, done: bool) -> Result<(), NoMemory>
        ensures ok { OnOk result (self.new ≡ side_after done act.now self.old) }
        ensures err { OnErr result (self.new ≡ self.old) }
    {
        match act {
            Act::Write { at, bytes } => self.go_through_write(*at, bytes.bytes(), done),
            Act::Cut => {
                self.cut(done);
                Ok(())
            }
            Act::Sync => { if done { self.sync(alloc) } else { Ok(()) } }
        }
    }

    /// Goes through a write, unless it isn't allowed.
    fn go_through_write(&mut self, at: u64, bytes: &[u8], done: bool) -> Result<(), NoMemory>
        ensures ok { OnOk result (self.new ≡ write_after done at bytes.now self.old) }
        ensures err { OnErr result (self.new ≡ self.old) }
    {
        if !is_allowed(at, bytes.len(), self.reads.as_slice()) {
            return Ok(());
        }
        if done {
            self.write(at, bytes)
        } else {
            self.touch(at, bytes.len() as u64)
        }
    }

    fn write(&mut self, at: u64, bytes: &[u8]) -> Result<(), NoMemory>
        requires within { at ≤ length self.old.reads }
        requires fits { at + length bytes.now < 2 ^ 63 }
        ensures ok { OnOk result (self.new ≡ written at bytes.now self.old) }
        ensures err { OnErr result (self.new ≡ self.old) }
    {
        let count = bytes.len() as u64;
        self.touched.reserve(1)?;
        overwrite(&mut self.reads, at as usize, bytes)?;
        let Ok(()) = self.touched.insert(0, (at, count)) else {
            unreachable!()
        };
        self.high = self.high.max(at + count);
        Ok(())
    }

    /// Counts a write that may have reached its bytes.
    fn touch(&mut self, at: u64, count: u64) -> Result<(), NoMemory>
        requires { at + count < 2 ^ 63 }
        ensures ok { OnOk result (self.new ≡ touching at count self.old) }
        ensures err { OnErr result (self.new ≡ self.old) }
    {
        self.touched.insert(0, (at, count))?;
        self.high = self.high.max(at + count);
        Ok(())
    }

    fn cut(&mut self, done: bool)
        ensures { self.new ≡ (if done then shortened self.old else cutting self.old) }
    {
        self.low = 0;
        if done {
            self.reads.clear();
        }
    }

    fn sync(&mut self, alloc: Global) -> Result<(), NoMemory>
        ensures ok { OnOk result (self.new ≡ synced self.old) }
        ensures err { OnErr result (self.new ≡ self.old) }
    {
        let len = self.reads.len() as u64;
        self.synced = Vec::from_slice(alloc, self.reads.as_slice())?;
        self.low = len;
        self.high = len;
        self.touched.clear();
        Ok(())
    }

    /// The image whose length is nearest to `length`, and whose free bytes are all `fill`.
    pub fn image(&self, alloc: Global, length: u64, fill: u8) -> Result<Vec<u8>, NoMemory>
        ensures { IfOk result (λ bytes. IsFilled self.now length fill bytes.items) }
    {
        let size = self.low.max(self.high.min(length));
        let mut bytes = Vec::new(alloc);
        for k in 0..size as usize {
            let is_kept = k < self.synced.len() && !is_touched(self.touched.as_slice(), k as u64);
            bytes.push(if is_kept { self.synced[k] } else { fill })?;
        }
        Ok(bytes)
    }
}
