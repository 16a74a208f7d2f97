//! A disk of two files, and what a stop at any moment may leave of it.
ghost use Rattle.std.specs.Prelude.{◌≡◌, ℕ, ◌+◌, ◌^◌, ◌<◌, ◌≤◌, length, IfOk, OnOk};
ghost use Rattle.outside.specs.Counts.{DiskCounts};
ghost use Rattle.outside.specs.Disks.{Moments, side_of, on_side, bytes_at, writing, written, cutting, shortened, synced, Goes, AreSound};

use base::DiskFailed;

/// One of the two files of a disk.
#[derive(Clone, Copy, Debug, PartialEq, Eq)]
pub enum Side {
    A,
    B,
}

/// Two files that may lose power at any moment, each shorter than 2^63 bytes. A disk that finds no memory counts a
/// fault.
pub trait Disk {
    /// Whether the disk tells what it holds.
    ghost tells: { Type 0 };

    /// What was so far, and what is now.
    ghost moments: { Self → Moments };

    /// How often the disk has failed.
    ghost failed_disk_calls: { Self → ℕ };

    /// The length of a side in bytes.
    fn len(&mut self, side: Side) -> Result<u64, DiskFailed>
        ensures short { IfOk result (λ len. len < 2 ^ 63) }
        ensures length { tells →
            IfOk result (λ len. len ≡ length (side_of side (moments self.old).now).reads) }
        ensures same { tells → OnOk result ((moments self.new).now ≡ (moments self.old).now) }
        ensures moments { tells →
            Goes (moments self.old).now (moments self.old) (moments self.new) }
        ensures cause { DiskCounts result (failed_disk_calls self.old)
            (failed_disk_calls self.new) };

    /// Fills `into` with the bytes from an offset on.
    fn read(&mut self, side: Side, at: u64, into: &mut [u8]) -> Result<(), DiskFailed>
        requires { tells →
            (at + length into.old ≤ length (side_of side (moments self.old).now).reads) }
        ensures bytes { tells →
            let reads = (side_of side (moments self.old).now).reads in
            OnOk result (into.new ≡ bytes_at at (length into.old) reads) }
        ensures same { tells → OnOk result ((moments self.new).now ≡ (moments self.old).now) }
        ensures moments { tells →
            Goes (moments self.old).now (moments self.old) (moments self.new) }
        ensures cause { DiskCounts result (failed_disk_calls self.old)
            (failed_disk_calls self.new) };

    /// Overwrites bytes from an offset on, and appends those past the end. Until a sync, each byte that it reaches may have any
    /// value. A write that would end at 2^63 or above fails, and reaches no byte.
    fn write(&mut self, side: Side, at: u64, bytes: &[u8]) -> Result<(), DiskFailed>
        requires { tells → (at ≤ length (side_of side (moments self.old).now).reads) }
        ensures fits { OnOk result (at + length bytes.now < 2 ^ 63) }
        ensures written { tells →
            let before = (moments self.old).now in
            OnOk result ((moments self.new).now ≡ on_side side (written at bytes.now) before) }
        ensures moments { tells →
            let during = on_side side (writing at (length bytes.now)) (moments self.old).now in
            Goes during (moments self.old) (moments self.new) }
        ensures cause { DiskCounts result (failed_disk_calls self.old)
            (failed_disk_calls self.new) };

    /// Cuts a side to no bytes. Until a sync, it may have its earlier length, none, or one between.
    fn cut(&mut self, side: Side) -> Result<(), DiskFailed>
        ensures shortened { tells →
            let before = (moments self.old).now in
            OnOk result ((moments self.new).now ≡ on_side side shortened before) }
        ensures moments { tells →
            let during = on_side side cutting (moments self.old).now in
            Goes during (moments self.old) (moments self.new) }
        ensures cause { DiskCounts result (failed_disk_calls self.old)
            (failed_disk_calls self.new) };

    /// After it, a stop can leave of the side what reads give.
    fn sync(&mut self, side: Side) -> Result<(), DiskFailed>
        ensures synced { tells →
            let before = (moments self.old).now in
            OnOk result ((moments self.new).now ≡ on_side side synced before) }
        ensures moments { tells →
            Goes (moments self.old).now (moments self.old) (moments self.new) }
        ensures cause { DiskCounts result (failed_disk_calls self.old)
            (failed_disk_calls self.new) };

    /// Lets go of files and locks until the next call, so that meanwhile another object may use them. It changes no byte.
    fn rest(&mut self)
        ensures moments { moments self.new ≡ moments self.old }
        ensures no_fault { failed_disk_calls self.new ≡ failed_disk_calls self.old };

    /// At each moment so far, what reads gave is an image, and each side is shorter than 2^63 bytes.
    ghost sound: { (disk : Self) → AreSound (moments disk) };
}
