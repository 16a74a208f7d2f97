//! A write and a cut with a sync after it.
ghost use Rattle.std.specs.Prelude.{◌≡◌, ◌+◌, ◌^◌, ◌<◌, ◌≤◌, length, OnOk};
ghost use Rattle.outside.specs.Counts.{DiskCounts};
ghost use Rattle.outside.specs.Disks.{side_of, on_side, writing, written_through, cutting, cut_through, Goes};

use crate::{Disk, Side};
use base::DiskFailed;

/// Writes and syncs. Its moments are those of a write; after Ok a stop can leave of the side what reads give.
pub fn write_durably<D: Disk>(
    disk: &mut D,
    side: Side,
    at: u64,
    bytes: &[u8],
) -> Result<(), DiskFailed>
    requires { D.tells → (at ≤ length (side_of side (D.moments disk.old).now).reads) }
    ensures fits { OnOk result (at + length bytes.now < 2 ^ 63) }
    ensures written { D.tells →
        let before = (D.moments disk.old).now in
        let after = (D.moments disk.new).now in
        OnOk result (after ≡ on_side side (written_through at bytes.now) before) }
    ensures moments { D.tells →
        let during = on_side side (writing at (length bytes.now)) (D.moments disk.old).now in
        Goes during (D.moments disk.old) (D.moments disk.new) }
    ensures cause { DiskCounts result (D.failed_disk_calls disk.old)
        (D.failed_disk_calls disk.new) }
{
    disk.write(side, at, bytes)?;
    disk.sync(side)
}

/// Cuts to no bytes, and syncs. Its moments are those of a cut; after Ok a stop can leave of the side what reads give.
pub fn cut_durably<D: Disk>(disk: &mut D, side: Side) -> Result<(), DiskFailed>
    ensures shortened { D.tells →
        let before = (D.moments disk.old).now in
        OnOk result ((D.moments disk.new).now ≡ on_side side cut_through before) }
    ensures moments { D.tells →
        let during = on_side side cutting (D.moments disk.old).now in
        Goes during (D.moments disk.old) (D.moments disk.new) }
    ensures cause { DiskCounts result (D.failed_disk_calls disk.old)
        (D.failed_disk_calls disk.new) }
{
    disk.cut(side)?;
    disk.sync(side)
}
