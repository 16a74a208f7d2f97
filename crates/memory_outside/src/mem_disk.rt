//! A disk in memory.
ghost use Rattle.std.specs.Prelude.{◌≡◌, ◌+◌, ◌^◌, ◌≤◌, ◌<◌, true, [], length, Contains, IfOk, OnOk};
ghost use Rattle.outside.specs.Counts.{DiskCounts};
ghost use Rattle.outside.specs.Disks.{side_of, on_side, bytes_at, writing, written, cutting, shortened, synced, settled, settled_disk, reads_of, all_of, IsImage, Goes};
ghost use Rattle.memory_outside.specs.Failing.{no_calls, MakesCall, AskFails, DiskFails};
ghost use Rattle.memory_outside.specs.Disks.{moments_of, moment_of, disk_inside, disk_after, next_kept, LogsCall, AreFilled};
ghost use Rattle.memory_outside.specs.DiskLaws.{log_sound};
ghost use Rattle.memory_outside.specs.declared.logged.Act.TheVariants as act;

use crate::disk_log::DiskLog;
use crate::failing::Calls;
use crate::images::fits;
use crate::logged::{Act, LoggedCall};
use base::{DiskFailed, NoMemory, Numbers, Text};
use outside::{Disk, Side};
use std::alloc::Global;
use std::marker::Model;

/// A disk in memory, with the calls that may have changed it. A write, cut or sync that is to fail counts in what a
/// stop can leave like one that was cut off inside.
#[derive(Drop)]
pub struct MemDisk {
    alloc: Global,
    log: DiskLog,
    calls: Calls,
}

impl Model for MemDisk {
    ghost use Rattle.memory_outside.specs.Disks.{HeldDisk};

    ghost Value = { HeldDisk };

    ghost view = { λ d. record { log = d.log; calls = d.calls } };
}

impl MemDisk {
    /// A disk of two empty, synced sides; it takes no memory. The calls of these numbers, counted from 0, are to
    /// fail.
    pub fn new(alloc: Global, failing: Numbers) -> MemDisk
        ensures log { result.log ≡ record { first = record { a = []; b = [] }; kept = [] } }
        ensures moments { moments_of result.log
            ≡ record { past = []; now = record { a = settled []; b = settled [] } } }
        ensures calls { result.calls ≡ no_calls failing }
    {
        MemDisk {
            alloc,
            log: DiskLog::new(alloc),
            calls: Calls::new(failing),
        }
    }

    /// What reads of a side give.
    pub fn reads(&self, side: Side) -> &[u8]
        ensures { result.now ≡ (side_of side (moments_of self.now.log).now).reads }
    {
        self.log.reads(side)
    }

    /// What a stop inside call number `moment` may have left, as a new disk; a number that no call has means
    /// the present. The bytes that may be any are all `fill`, and each side is as near to `length` as it may be.
    pub fn crash(
        &self,
        alloc: Global,
        moment: u64,
        length: u64,
        fill: u8,
    ) -> Result<MemDisk, NoMemory>
        ensures moment { let inside = moment_of self.now.log moment in
            OnOk result (Contains (all_of (moments_of self.now.log)) inside) }
        ensures image { IfOk result (λ disk.
            IsImage (moment_of self.now.log moment) (reads_of (moments_of disk.log).now)) }
        ensures filled { let inside = moment_of self.now.log moment in
            IfOk result (λ disk.
            AreFilled inside length fill (reads_of (moments_of disk.log).now)) }
        ensures settled { IfOk result (λ disk.
            let image = reads_of (moments_of disk.log).now in
            moments_of disk.log ≡ record { past = []; now = settled_disk image }) }
        ensures calls { IfOk result (λ disk. disk.calls ≡ no_calls []) }
    {
        let sides = self.log.sides_at(alloc, moment)?;
        let a = sides.side(Side::A).image(alloc, length, fill)?;
        let b = sides.side(Side::B).image(alloc, length, fill)?;
        Ok(MemDisk {
            alloc,
            log: DiskLog::of(alloc, a, b)?,
            calls: Calls::new(Numbers::new(alloc)),
        })
    }

    /// Goes through a call that has begun.
    fn go_through(&mut self, kept: LoggedCall) -> Result<(), DiskFailed>
        ensures done { OnOk result (kept.done ≡ true) }
        ensures after { let before = (moments_of self.old.log).now in
            OnOk result ((moments_of self.new.log).now ≡ disk_after kept before) }
        ensures goes { let during = disk_inside kept (moments_of self.old.log).now in
            Goes during (moments_of self.old.log) (moments_of self.new.log) }
        ensures cause { DiskCounts result self.old.calls.failed self.new.calls.failed }
        ensures log { LogsCall result kept self.old.log self.new.log }
        ensures failing { self.new.calls.failing ≡ self.old.calls.failing }
        ensures made { self.new.calls.made ≡ self.old.calls.made }
    {
        let done = kept.done;
        let Ok(()) = self.log.keep(kept) else {
            self.calls.fail();
            return Err(DiskFailed);
        };
        if !done {
            self.calls.fail();
            return Err(DiskFailed);
        }
        Ok(())
    }
}

impl Disk for MemDisk {
    ghost tells = { Unit {0} };

    ghost moments = { λ d. moments_of d.log };

    ghost failed_disk_calls = { λ d. d.calls.failed };

    ghost sound = { λ d. log_sound d.log };

    fn len(&mut self, side: Side) -> Result<u64, DiskFailed>
        ensures short { IfOk result (λ len. len < 2 ^ 63) }
        ensures length { IfOk result (λ len.
            len ≡ length (side_of side (moments_of self.old.log).now).reads) }
        ensures log { self.new.log ≡ self.old.log }
        ensures cause { DiskCounts result self.old.calls.failed self.new.calls.failed }
        ensures fails { AskFails result self.old.calls }
        ensures calls { MakesCall self.old.calls self.new.calls }
    {
        if self.calls.begin() {
            self.calls.fail();
            return Err(DiskFailed);
        }
        Ok(self.log.reads(side).len() as u64)
    }

    fn read(&mut self, side: Side, at: u64, into: &mut [u8]) -> Result<(), DiskFailed>
        requires { let reads = (side_of side (moments_of self.old.log).now).reads in
            at + length into.old ≤ length reads }
        ensures bytes { let reads = (side_of side (moments_of self.old.log).now).reads in
            OnOk result (into.new ≡ bytes_at at (length into.old) reads) }
        ensures log { self.new.log ≡ self.old.log }
        ensures cause { DiskCounts result self.old.calls.failed self.new.calls.failed }
        ensures fails { AskFails result self.old.calls }
        ensures calls { MakesCall self.old.calls self.new.calls }
    {
        if self.calls.begin() {
            self.calls.fail();
            return Err(DiskFailed);
        }
        let start = at as usize;
        let bytes = self.log.reads(side);
        into.copy_from_slice(&bytes[start..start + into.len()]);
        Ok(())
    }

    fn write(&mut self, side: Side, at: u64, bytes: &[u8]) -> Result<(), DiskFailed>
        requires { at ≤ length (side_of side (moments_of self.old.log).now).reads }
        ensures fits { OnOk result (at + length bytes.now < 2 ^ 63) }
        ensures written { let before = (moments_of self.old.log).now in
            OnOk result
            ((moments_of self.new.log).now ≡ on_side side (written at bytes.now) before) }
        ensures moments { let before = moments_of self.old.log in
            Goes (on_side side (writing at (length bytes.now)) before.now) before
            (moments_of self.new.log) }
        ensures log { let call = next_kept self.old side (act.Write at bytes.now) in
            LogsCall result call self.old.log self.new.log }
        ensures cause { DiskCounts result self.old.calls.failed self.new.calls.failed }
        ensures fails { DiskFails result self.old.calls }
        ensures calls { MakesCall self.old.calls self.new.calls }
    {
        let number = self.calls.made;
        let done = !self.calls.begin();
        if !fits(at, bytes.len()) {
            self.calls.fail();
            return Err(DiskFailed);
        }
        let Ok(bytes) = Text::from_slice(self.alloc, bytes) else {
            self.calls.fail();
            return Err(DiskFailed);
        };
        self.go_through(LoggedCall {
            number,
            side,
            act: Act::Write { at, bytes },
            done,
        })
    }

    fn cut(&mut self, side: Side) -> Result<(), DiskFailed>
        ensures shortened { let before = (moments_of self.old.log).now in
            OnOk result ((moments_of self.new.log).now ≡ on_side side shortened before) }
        ensures moments { let before = moments_of self.old.log in
            Goes (on_side side cutting before.now) before (moments_of self.new.log) }
        ensures log { let call = next_kept self.old side act.Cut in
            LogsCall result call self.old.log self.new.log }
        ensures cause { DiskCounts result self.old.calls.failed self.new.calls.failed }
        ensures fails { DiskFails result self.old.calls }
        ensures calls { MakesCall self.old.calls self.new.calls }
    {
        let number = self.calls.made;
        let done = !self.calls.begin();
        self.go_through(LoggedCall {
            number,
            side,
            act: Act::Cut,
            done,
        })
    }

    fn sync(&mut self, side: Side) -> Result<(), DiskFailed>
        ensures synced { let before = (moments_of self.old.log).now in
            OnOk result ((moments_of self.new.log).now ≡ on_side side synced before) }
        ensures moments { let before = moments_of self.old.log in
            Goes before.now before (moments_of self.new.log) }
        ensures log { let call = next_kept self.old side act.Sync in
            LogsCall result call self.old.log self.new.log }
        ensures cause { DiskCounts result self.old.calls.failed self.new.calls.failed }
        ensures fails { DiskFails result self.old.calls }
        ensures calls { MakesCall self.old.calls self.new.calls }
    {
        let number = self.calls.made;
        let done = !self.calls.begin();
        self.go_through(LoggedCall {
            number,
            side,
            act: Act::Sync,
            done,
        })
    }

    fn rest(&mut self)
        ensures { self.new ≡ self.old }
    {}
}
