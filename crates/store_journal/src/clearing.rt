//! Opening a journal without payloads over a disk that may hold either of two forms, whatever it holds.

ghost use Rattle.std.specs.Prelude.{◌≡◌, ℕ, [], ◌∷◌, Some, true, false, IfOk, OnOk};
ghost use Rattle.outside.specs.Counts.{DiskCounts, StoreCounts};
ghost use Rattle.outside.specs.Disks.{reads_of, settled_disk};
ghost use Rattle.store_journal.specs.Forms.{EmptiesSides, OpensEmpty, found_form, has_form};
ghost use Rattle.store_journal.specs.Payloads.{counting, payloads, side_bytes};
ghost use Rattle.store_journal.specs.Journals.{IsInStep, other_side};
ghost use Rattle.store_journal.specs.Steps.{Went, emptying, last_moment};

use crate::journal::other;
use crate::layout::{empty_side, found_side};
use crate::making::make_side;
use crate::opening::{Opened, begin};
use crate::sides::read_form_headers;
use crate::{Journal, Payloads};
use base::DiskFailed;
use outside::{Disk, Side, StoreFault, cut_durably, write_durably};
use std::alloc::Global;

impl Journal {
    /// Opens the journal of the newer one of two forms on a disk without payloads, whatever the disk holds of either. It reads
    /// how each side begins, once for both forms, and takes up nothing of it; both sides give back their room before one of them
    /// is made. Where a disk can hold one form alone, both forms are that one.
    pub fn open_empty<D: Disk>(
        alloc: Global,
        disk: &mut D,
        newer: u8,
        older: u8,
    ) -> Result<Journal, StoreFault>
        // Once both sides are synced, a stop can leave the payloads of what reads gave at entry, of the form that counts there,
        // or none.
        ensures opens { D.tells →
            OpensEmpty newer older result (D.moments disk.old) (D.moments disk.new) }
        ensures emptied { D.tells →
            OnOk result (payloads newer (reads_of (D.moments disk.new).now) ≡ []) }
        ensures live { D.tells →
            OnOk result (has_form newer (reads_of (D.moments disk.new).now) ≡ true) }
        ensures in_step { D.tells →
            IfOk result (λ journal. IsInStep journal (D.moments disk.new).now) }
        ensures generation { IfOk result (λ journal. journal.generation ≡ 1) }
        ensures form { IfOk result (λ journal. journal.form ≡ newer) }
        ensures usable { IfOk result (λ journal. journal.broken ≡ false) }
        ensures cause { StoreCounts result (D.failed_disk_calls disk.old)
            (D.failed_disk_calls disk.new) }
    {
        let headers = read_form_headers(alloc, disk, newer, older)?;
        match found_side(headers) {
            None => empty_dead(alloc, disk, newer),
            Some(live) => empty_live(disk, newer, live.side),
        }
    }
}

/// Empties B, and makes side A, where the form isn't live, nor the older one.
fn empty_dead<D: Disk>(alloc: Global, disk: &mut D, newer: u8) -> Result<Journal, StoreFault>
    requires settled { D.tells →
        (D.moments disk.old).now ≡ settled_disk (reads_of (D.moments disk.old).now) }
    requires none { D.tells → has_form newer (reads_of (D.moments disk.old).now) ≡ false }
    ensures emptied { D.tells → (older : ℕ) →
        has_form older (reads_of (D.moments disk.old).now) ≡ false →
        EmptiesSides newer older result (D.moments disk.old) (D.moments disk.new) }
    ensures generation { IfOk result (λ journal. journal.generation ≡ 1) }
    ensures form { IfOk result (λ journal. journal.form ≡ newer) }
    ensures usable { IfOk result (λ journal. journal.broken ≡ false) }
    ensures cause { StoreCounts result (D.failed_disk_calls disk.old)
        (D.failed_disk_calls disk.new) }
{
    cut_durably(disk, Side::B)?;
    let Opened {
        journal,
        payloads: _none,
    } = begin(disk, newer, Payloads::new(alloc))?;
    Ok(journal)
}

/// Empties both sides, of which this one counts for the form that is found, and makes it without payloads for the newer one.
fn empty_live<D: Disk>(disk: &mut D, newer: u8, live: Side) -> Result<Journal, StoreFault>
    requires settled { D.tells →
        (D.moments disk.old).now ≡ settled_disk (reads_of (D.moments disk.old).now) }
    ensures emptied { D.tells → (older : ℕ) →
        let reads = reads_of (D.moments disk.old).now in
        counting (found_form newer older reads) reads ≡ Some live →
        EmptiesSides newer older result (D.moments disk.old) (D.moments disk.new) }
    ensures generation { IfOk result (λ journal. journal.generation ≡ 1) }
    ensures form { IfOk result (λ journal. journal.form ≡ newer) }
    ensures usable { IfOk result (λ journal. journal.broken ≡ false) }
    ensures cause { StoreCounts result (D.failed_disk_calls disk.old)
        (D.failed_disk_calls disk.new) }
{
    clear_sides(disk, live, other(live), &empty_side(newer))?;
    Ok(Journal::of(newer, live, 1, 19))
}

/// Empties the other side, makes the live one dead, and then makes it.
fn clear_sides<D: Disk>(
    disk: &mut D,
    live: Side,
    other: Side,
    bytes: &[u8],
) -> Result<(), DiskFailed>
    ensures steps { D.tells →
        Went (emptying live other bytes.now (D.moments disk.old).now) (D.moments disk.old)
        (D.moments disk.new) }
    ensures made { D.tells →
        OnOk result
        ((D.moments disk.new).now
        ≡ last_moment (D.moments disk.old).now
        (emptying live other bytes.now (D.moments disk.old).now)) }
    ensures cause { DiskCounts result (D.failed_disk_calls disk.old)
        (D.failed_disk_calls disk.new) }
{
    cut_durably(disk, other)?;
    write_durably(disk, live, 0, &[0])?;
    make_side(disk, live, bytes)
}
