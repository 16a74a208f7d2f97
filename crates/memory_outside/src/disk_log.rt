//! The calls that may have changed a disk.
ghost use Rattle.std.specs.Prelude.{◌≡◌, ◌^◌, ◌<◌, ◌++◌, [], ◌∷◌, length, OnOk, OnErr, IfOk};
ghost use Rattle.outside.specs.Disks.{side_of, Goes};
ghost use Rattle.memory_outside.specs.Disks.{moments_of, moment_of, beginning, disk_after, disk_inside};

use crate::disk_reads::DiskReads;
use crate::disk_sides::DiskSides;
use crate::images::fits;
use crate::logged::{LoggedCall, LoggedCalls};
use crate::side_writes::SideWrites;
use base::{NoMemory, Text};
use outside::Side;
use std::alloc::Global;
use std::marker::Model;

/// The calls that may have changed a disk, and what reads give after them.
#[derive(Drop)]
pub struct DiskLog {
    first_a: Text,
    first_b: Text,
    kept: LoggedCalls,
    reads: DiskReads,
}

impl Model for DiskLog {
    ghost use Rattle.std.specs.Prelude.{◌≡◌};
    ghost use Rattle.outside.specs.Disks.{reads_of};
    ghost use Rattle.memory_outside.specs.Disks.{Log, now_of, start_of};

    ghost Value = { Log };

    ghost view = { λ l. record {
      first = record { a = l.first_a; b = l.first_b };
      kept = l.kept.items;
    } };

    ghost invariant = { λ l. l.reads ≡ reads_of
        (now_of l.kept.items (start_of (record { a = l.first_a; b = l.first_b }))) };
}

impl DiskLog {
    /// The log of a disk of no bytes, which takes no memory.
    pub fn new(alloc: Global) -> DiskLog
        ensures { result ≡ record { first = record { a = []; b = [] }; kept = [] } }
    {
        DiskLog {
            first_a: Text::new(alloc),
            first_b: Text::new(alloc),
            kept: LoggedCalls::new(alloc),
            reads: DiskReads::new(Vec::new(alloc), Vec::new(alloc)),
        }
    }

    /// The log of a disk of these bytes, synced.
    pub fn of(alloc: Global, a: Vec<u8>, b: Vec<u8>) -> Result<DiskLog, NoMemory>
        requires a { length a.items < 2 ^ 63 }
        requires b { length b.items < 2 ^ 63 }
        ensures { IfOk result (λ log.
            log ≡ record { first = record { a = a.items; b = b.items }; kept = [] }) }
    {
        let reads = DiskReads::new(
            Vec::from_slice(alloc, a.as_slice())?,
            Vec::from_slice(alloc, b.as_slice())?,
        );
        Ok(DiskLog {
            first_a: Text::from_vec(a),
            first_b: Text::from_vec(b),
            kept: LoggedCalls::new(alloc),
            reads,
        })
    }

    /// What reads of a side give.
    pub fn reads(&self, side: Side) -> &[u8]
        ensures reads { result.now ≡ (side_of side (moments_of self.now).now).reads }
        ensures short { length result.now < 2 ^ 63 }
    {
        self.reads.side(side)
    }

    /// Goes through a call. After `NoMemory` the log is unchanged.
    pub fn keep(&mut self, kept: LoggedCall) -> Result<(), NoMemory>
        ensures first { self.new.first ≡ self.old.first }
        ensures ok { OnOk result (self.new.kept ≡ self.old.kept ++ kept ∷ []) }
        ensures err { OnErr result (self.new ≡ self.old) }
        ensures after { let before = (moments_of self.old).now in
            OnOk result ((moments_of self.new).now ≡ disk_after kept before) }
        ensures goes { let before = moments_of self.old in
            Goes (disk_inside kept before.now) before (moments_of self.new) }
    {
        self.kept.reserve(1)?;
        self.reads.apply(kept.side, &kept.act, kept.done)?;
        self.kept.push_within(kept);
        Ok(())
    }

    /// Both sides at the moment inside the call of a number.
    pub fn sides_at(&self, alloc: Global, moment: u64) -> Result<DiskSides, NoMemory>
        ensures { IfOk result (λ sides. sides ≡ moment_of self.now moment) }
    {
        let mut sides = DiskSides::new(
            beginning_side(alloc, self.first_a.bytes())?,
            beginning_side(alloc, self.first_b.bytes())?,
        );
        for kept in self.kept.as_slice() {
            if kept.number > moment {
                return Ok(sides);
            }
            if kept.number == moment {
                sides.apply(alloc, kept.side, &kept.act, false)?;
                return Ok(sides);
            }
            sides.apply(alloc, kept.side, &kept.act, kept.done)?;
        }
        Ok(sides)
    }
}

/// A side that begins with these bytes.
fn beginning_side(alloc: Global, bytes: &[u8]) -> Result<SideWrites, NoMemory>
    ensures { IfOk result (λ side. side ≡ beginning bytes.now) }
{
    if fits(0, bytes.len()) {
        SideWrites::from_synced(alloc, bytes)
    } else {
        Ok(SideWrites::new(alloc))
    }
}
