//! Compaction: the last passes of the same tests, and the lists and artefacts that these need, on the other side of the disk.

ghost use Rattle.std.specs.Prelude.{◌≡◌, ◌+◌, ◌^◌, ◌<◌, [], false, OnOk};
ghost use Rattle.outside.specs.Counts.{StoreCounts};
ghost use Rattle.outside.specs.Disks.{AtAnyMoment, reads_of};
ghost use Rattle.passes_spec.specs.Passes.{IsAllOrLast, last_passes};
ghost use Rattle.passes_codec.specs.Compaction.{compacted_passes};
ghost use Rattle.passes_codec.specs.PassTables.{passes_among};
ghost use Rattle.passes.specs.Stored.{AsksCompaction, HasCompacted, IsPassStoreInStep, IsResting, passes_in, store_of};

use crate::reading::FORM;
use outside::{Disk, StoreFault};
use passes_table::LoadedPasses;
use std::alloc::Global;
use std::mem;
use store_journal::{DEAD_LIMIT, Journal, Payloads};

/// Puts a side with these payloads in place of the one that counts.
fn replace_by<D: Disk>(
    journal: &mut Journal,
    held: &mut LoadedPasses,
    alloc: Global,
    disk: &mut D,
    kept: Payloads,
) -> Result<(), StoreFault>
    requires usable { journal.old.broken ≡ false }
    requires form { journal.old.form ≡ 5 }
    requires next { journal.old.generation + 1 < 2 ^ 64 }
    requires kept { kept ≡ compacted_passes (passes_among held.old.payloads) }
    requires passes { passes_among kept ≡ last_passes (passes_among held.old.payloads) }
    requires in_step { D.tells →
        IsPassStoreInStep (store_of journal.old held.old) (D.moments disk.old).now }
    ensures in_step { D.tells →
        OnOk result (IsPassStoreInStep (store_of journal.new held.new) (D.moments disk.new).now) }
    ensures compacts { D.tells →
        OnOk result
        (HasCompacted (passes_in (reads_of (D.moments disk.old).now))
        (reads_of (D.moments disk.new).now)) }
    ensures any_moment { D.tells →
        let before = passes_in (reads_of (D.moments disk.old).now) in
        AtAnyMoment (D.moments disk.old) (D.moments disk.new)
        (λ image. IsAllOrLast before (passes_in image)) }
    ensures built { OnOk result (held.new.built ≡ []) }
    ensures usable { OnOk result (journal.new.broken ≡ false) }
    ensures cause { StoreCounts result (D.failed_disk_calls disk.old)
        (D.failed_disk_calls disk.new) }
{
    let side = journal.prepare_side(alloc, FORM, &kept)?;
    let made = LoadedPasses::of(alloc, kept)?;
    match journal.replace(disk, side) {
        Ok(()) => {
            hold(held, made);
            Ok(())
        }
        Err(_fault) => {
            discard(made);
            Err(StoreFault::DiskFailed)
        }
    }
}

/// Compacts if what is held needs it.
pub fn compact_where_asked<D: Disk>(
    journal: &mut Journal,
    held: &mut LoadedPasses,
    alloc: Global,
    disk: &mut D,
) -> Result<(), StoreFault>
    requires usable { journal.old.broken ≡ false }
    requires form { journal.old.form ≡ 5 }
    requires built { held.old.built ≡ [] }
    requires in_step { D.tells →
        IsPassStoreInStep (store_of journal.old held.old) (D.moments disk.old).now }
    ensures in_step { D.tells →
        OnOk result (IsPassStoreInStep (store_of journal.new held.new) (D.moments disk.new).now) }
    ensures compacts { D.tells →
        AsksCompaction journal.old.generation held.old.payloads →
        OnOk result
        (HasCompacted (passes_in (reads_of (D.moments disk.old).now))
        (reads_of (D.moments disk.new).now)) }
    ensures keeps { D.tells →
        ¬ AsksCompaction journal.old.generation held.old.payloads →
        disk.new ≡ disk.old }
    ensures settled { D.tells → OnOk result (IsResting (reads_of (D.moments disk.new).now)) }
    ensures passes { D.tells →
        OnOk result
        (IsAllOrLast (passes_in (reads_of (D.moments disk.old).now))
        (passes_in (reads_of (D.moments disk.new).now))) }
    ensures any_moment { D.tells →
        let before = passes_in (reads_of (D.moments disk.old).now) in
        AtAnyMoment (D.moments disk.old) (D.moments disk.new)
        (λ image. IsAllOrLast before (passes_in image)) }
    ensures built { OnOk result (held.new.built ≡ []) }
    ensures usable { OnOk result (journal.new.broken ≡ false) }
    ensures cause { StoreCounts result (D.failed_disk_calls disk.old)
        (D.failed_disk_calls disk.new) }
{
    if journal.length() <= DEAD_LIMIT {
        return Ok(());
    }
    let counted = held.kept_length(alloc)?;
    if !journal.asks_compaction(counted) {
        return Ok(());
    }
    let kept = held.last_payloads(alloc)?;
    replace_by(journal, held, alloc, disk, kept)?;
    Ok(())
}

/// Holds what was made in place of what was held.
fn hold(held: &mut LoadedPasses, made: LoadedPasses)
    ensures { held.new ≡ made }
{
    discard(mem::replace(held, made));
}

/// Drops what was held.
fn discard(_held: LoadedPasses) {}
