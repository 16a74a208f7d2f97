//! Compaction: the latest records, and the products and texts that these reach, on the other side of the disk.

ghost use Rattle.std.specs.Prelude.{◌≡◌, ◌↔◌, ◌+◌, ◌^◌, ◌<◌, List, [], false, true, IfOk, IsTrue, OnOk};
ghost use Rattle.base.specs.declared.file.FileName.{FileName};
ghost use Rattle.base.specs.declared.graph.Entry.{Entry};
ghost use Rattle.outside.specs.Counts.{StoreCounts};
ghost use Rattle.outside.specs.Disks.{AtAnyMoment, NeverLoses, reads_of};
ghost use Rattle.store_journal.specs.DeadBytes.{AsksAt, capped_length};
ghost use Rattle.store_journal.specs.Forms.{has_form};
ghost use Rattle.store_journal.specs.Journals.{CountsAs, other_side};
ghost use Rattle.store_journal.specs.Payloads.{payloads};
ghost use Rattle.store.specs.Plans.{KeepsLatestRequests};
ghost use Rattle.store_codec.specs.Compaction.{compacted_requests};
ghost use Rattle.outside.specs.Records.{latest_alone as latest_requests};
ghost use Rattle.store_codec.specs.RecordTables.{requests_among};
ghost use Rattle.store.specs.Held.{AreBorrowedBy, latest_held};
ghost use Rattle.store.specs.Stored.{AreAllOrLatest, AsksCompaction, HasCompactedOver, IsRequestStoreInStep, IsResting, OnNoMemory, has_disk_failed, own_requests, store_of};

use crate::reading::FORM;
use crate::{CompactionPlan, LoadedStore};
use base::NoMemory;
use outside::{Disk, StoreFault};
use std::alloc::Global;
use std::mem;
use store_journal::{DEAD_LIMIT, Journal, ReadySide};

/// What compaction keeps: what is held, and the side that is to be written.
#[derive(Drop)]
struct CompactedStore<'g> {
    held: LoadedStore<'g>,
    side: ReadySide,
}

/// Puts the side that keeps the latest records in the place of the one that counts.
fn replace_by<'g, D: Disk>(
    journal: &mut Journal,
    held: &mut LoadedStore<'g>,
    alloc: Global,
    disk: &mut D,
    plan: &CompactionPlan,
) -> Result<(), StoreFault>
    requires usable { journal.old.broken ≡ false }
    requires form { journal.old.form ≡ 3 }
    requires next { journal.old.generation + 1 < 2 ^ 64 }
    requires plan { KeepsLatestRequests held.old.payloads plan.now }
    requires in_step { D.tells →
        IsRequestStoreInStep (store_of journal.old held.old) (D.moments disk.old).now }
    ensures latest { (name : FileName) →
        latest_held held.new.payloads name ≡ latest_held held.old.payloads name }
    ensures in_step { D.tells →
        OnOk result
        (IsRequestStoreInStep (store_of journal.new held.new) (D.moments disk.new).now) }
    ensures compacts { D.tells →
        OnOk result
        (HasCompactedOver (own_requests (reads_of (D.moments disk.old).now))
        (reads_of (D.moments disk.new).now)) }
    ensures counts { OnOk result
        (CountsAs (other_side journal.old.live) (journal.old.generation + 1) journal.new) }
    ensures any_moment { D.tells →
        let before = own_requests (reads_of (D.moments disk.old).now) in
        AtAnyMoment (D.moments disk.old) (D.moments disk.new)
        (λ image. AreAllOrLatest before (own_requests image)) }
    ensures live { D.tells →
        AtAnyMoment (D.moments disk.old) (D.moments disk.new) (λ image. has_form 3 image ≡ true) }
    ensures loses { D.tells →
        let before = own_requests (reads_of (D.moments disk.old).now) in
        NeverLoses (D.moments disk.old) (D.moments disk.new)
        (λ image. payloads 3 image ≡ compacted_requests before) }
    ensures memory { OnNoMemory result
        (store_of journal.new held.new ≡ store_of journal.old held.old)
        (disk.new ≡ disk.old) }
    // No text is borrowed from then on.
    ensures borrowed { OnOk result (held.new.borrowed ≡ []) }
    ensures form { journal.new.form ≡ 3 }
    ensures broken { journal.new.broken ≡ has_disk_failed result }
    ensures cause { StoreCounts result (D.failed_disk_calls disk.old)
        (D.failed_disk_calls disk.new) }
{
    let CompactedStore { held: kept, side } = compact_latest(journal, held, alloc, plan)?;
    match journal.replace(disk, side) {
        Ok(()) => {
            hold(held, kept);
            Ok(())
        }
        Err(_fault) => {
            discard(kept);
            Err(StoreFault::DiskFailed)
        }
    }
}

/// The side that keeps the latest records, and what it holds.
fn compact_latest<'g>(
    journal: &Journal,
    held: &LoadedStore<'_>,
    alloc: Global,
    plan: &CompactionPlan,
) -> Result<CompactedStore<'g>, NoMemory>
    requires next { journal.now.generation + 1 < 2 ^ 64 }
    requires form { journal.now.form ≡ 3 }
    requires plan { KeepsLatestRequests held.now.payloads plan.now }
    ensures held { IfOk result
        (λ made. made.held.payloads ≡ compacted_requests (requests_among held.now.payloads)) }
    ensures records { IfOk result
        (λ made.
        requests_among made.held.payloads ≡ latest_requests (requests_among held.now.payloads)) }
    ensures side { IfOk result
        (λ made.
        made.side
        ≡ record {
          form = 3;
          generation = journal.now.generation + 1;
          payloads = made.held.payloads;
        }) }
    ensures borrowed { IfOk result (λ made. made.held.borrowed ≡ []) }
{
    let payloads = held.latest_payloads(alloc, plan)?;
    let side = journal.prepare_side(alloc, FORM, &payloads)?;
    let held = LoadedStore::of(alloc, payloads)?;
    Ok(CompactedStore { held, side })
}

/// Whether a plan of the latest records asks for compaction.
fn is_asked(journal: &Journal, plan: &CompactionPlan) -> bool
    requires usable { journal.now.broken ≡ false }
    ensures { IsTrue result
        ↔ AsksAt journal.now.generation journal.now.len (capped_length plan.now.len) }
{
    journal.asks_compaction(plan.len.saturating_add(19))
}

/// Compacts where what is held asks for it.
pub fn compact_where_asked<'g, D: Disk>(
    journal: &mut Journal,
    held: &mut LoadedStore<'g>,
    alloc: Global,
    disk: &mut D,
) -> Result<(), StoreFault>
    requires usable { journal.old.broken ≡ false }
    requires form { journal.old.form ≡ 3 }
    requires in_step { D.tells →
        IsRequestStoreInStep (store_of journal.old held.old) (D.moments disk.old).now }
    ensures in_step { D.tells →
        OnOk result
        (IsRequestStoreInStep (store_of journal.new held.new) (D.moments disk.new).now) }
    ensures compacts { D.tells →
        AsksCompaction journal.old.generation held.old.payloads →
        OnOk result
        (HasCompactedOver (own_requests (reads_of (D.moments disk.old).now))
        (reads_of (D.moments disk.new).now)) }
    ensures keeps { D.tells →
        ¬ AsksCompaction journal.old.generation held.old.payloads →
        disk.new ≡ disk.old }
    ensures settled { D.tells → OnOk result (IsResting (reads_of (D.moments disk.new).now)) }
    ensures records { D.tells →
        OnOk result
        (AreAllOrLatest (own_requests (reads_of (D.moments disk.old).now))
        (own_requests (reads_of (D.moments disk.new).now))) }
    ensures any_moment { D.tells →
        let before = own_requests (reads_of (D.moments disk.old).now) in
        AtAnyMoment (D.moments disk.old) (D.moments disk.new)
        (λ image. AreAllOrLatest before (own_requests image)) }
    ensures live { D.tells →
        AtAnyMoment (D.moments disk.old) (D.moments disk.new) (λ image. has_form 3 image ≡ true) }
    ensures borrowed { (files : List Entry) → AreBorrowedBy files held.old.borrowed →
        OnOk result (AreBorrowedBy files held.new.borrowed) }
    ensures form { journal.new.form ≡ 3 }
    ensures usable { OnOk result (journal.new.broken ≡ false) }
    ensures cause { StoreCounts result (D.failed_disk_calls disk.old)
        (D.failed_disk_calls disk.new) }
{
    if journal.length() <= DEAD_LIMIT {
        return Ok(());
    }
    let plan = held.latest_plan(alloc)?;
    if !is_asked(journal, &plan) {
        return Ok(());
    }
    replace_by(journal, held, alloc, disk, &plan)?;
    Ok(())
}

/// Holds what was made in place of what was held.
fn hold<'g>(held: &mut LoadedStore<'g>, made: LoadedStore<'g>)
    ensures { held.new ≡ made.entry }
{
    discard(mem::replace(held, made));
}

/// Drops a loaded store.
fn discard(_held: LoadedStore<'_>) {}
