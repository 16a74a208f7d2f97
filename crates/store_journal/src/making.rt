//! Making a side, so that a stop inside of it can leave no half of one.

ghost use Rattle.std.specs.Prelude.{◌≡◌, ◌∷◌, OnOk};
ghost use Rattle.outside.specs.Counts.{DiskCounts};
ghost use Rattle.outside.specs.Disks.{on_side, settled};
ghost use Rattle.store_journal.specs.Steps.{Went, making};

use base::DiskFailed;
use outside::{Disk, Side, cut_durably, write_durably};

/// Makes a side of a 1 and the bytes handed in: it is emptied and made dead, then written, then made live.
pub fn make_side<D: Disk>(disk: &mut D, side: Side, bytes: &[u8]) -> Result<(), DiskFailed>
    ensures steps { D.tells →
        Went (making side bytes.now (D.moments disk.old).now) (D.moments disk.old)
        (D.moments disk.new) }
    ensures made { D.tells →
        OnOk result
        ((D.moments disk.new).now
        ≡ on_side side (λ _. settled (1 ∷ bytes.now)) (D.moments disk.old).now) }
    ensures cause { DiskCounts result (D.failed_disk_calls disk.old)
        (D.failed_disk_calls disk.new) }
{
    cut_durably(disk, side)?;
    write_durably(disk, side, 0, &[0])?;
    write_durably(disk, side, 1, bytes)?;
    write_durably(disk, side, 0, &[1])
}
