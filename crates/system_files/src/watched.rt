//! A wrapper of a disk, which hands on each answer unchanged, and looks at the files at the first read.

ghost use Rattle.std.specs.Prelude.{◌≡◌};

use crate::look::{Unread, unread_records};
use base::DiskFailed;
use outside::{Disk, Side};

/// A disk of two files that also counts the records that can't be read. It counts them after the first read that gives bytes,
/// when the disk has its locks and nothing was written yet. A failure in counting is ignored.
#[derive(Drop)]
pub struct WatchedDisk<D: Disk + Drop> {
    /// The disk itself.
    pub disk: D,
    runtime: HostRuntime,
    a: &'static str,
    b: &'static str,
    unread: Option<Unread>,
}

impl<D: Disk + Drop> WatchedDisk<D> {
    /// The disk over the files of two paths.
    pub fn new(disk: D, runtime: HostRuntime, a: &'static str, b: &'static str) -> WatchedDisk<D> {
        WatchedDisk {
            disk,
            runtime,
            a,
            b,
            unread: None,
        }
    }

    /// How many records couldn't be read as the run began; `None` if they were not counted.
    pub fn unread(&self) -> Option<Unread> {
        self.unread
    }

    fn look(&mut self)
        ensures { self.new.disk ≡ self.old.disk }
    {
        if self.unread.is_none() {
            self.unread = Some(unread_records(&self.runtime, self.a, self.b));
        }
    }
}

impl<D: Disk + Drop> Disk for WatchedDisk<D> {
    ghost tells = { D.tells };

    ghost moments = { λ a. D.moments a.disk };

    ghost failed_disk_calls = { λ a. D.failed_disk_calls a.disk };

    ghost sound = { λ a. D.sound a.disk };

    fn len(&mut self, side: Side) -> Result<u64, DiskFailed> {
        self.disk.len(side)
    }

    fn read(&mut self, side: Side, at: u64, into: &mut [u8]) -> Result<(), DiskFailed> {
        let answer = self.disk.read(side, at, into);
        if answer.is_ok() && !into.is_empty() {
            self.look();
        }
        answer
    }

    fn write(&mut self, side: Side, at: u64, bytes: &[u8]) -> Result<(), DiskFailed> {
        self.disk.write(side, at, bytes)
    }

    fn cut(&mut self, side: Side) -> Result<(), DiskFailed> {
        self.disk.cut(side)
    }

    fn sync(&mut self, side: Side) -> Result<(), DiskFailed> {
        self.disk.sync(side)
    }

    fn rest(&mut self) {
        self.disk.rest()
    }
}
