//! Opens the records of a disk of either form, without compaction.

ghost use Rattle.std.specs.Prelude.{◌≡◌, ◌↔◌, [], false, IfOk, OnOk};
ghost use Rattle.outside.specs.Counts.{StoreCounts};
ghost use Rattle.outside.specs.Disks.{AtAnyMoment, OpensWith, reads_of, Rests};
ghost use Rattle.store_journal.specs.Forms.{has_form};
ghost use Rattle.store_journal.specs.Journals.{IsHealthy, IsInStep};
ghost use Rattle.store_journal.specs.Payloads.{payloads};
ghost use Rattle.store_codec.specs.Compaction.{compacted_requests};
ghost use Rattle.store_codec.specs.RecordTables.{requests_among};
ghost use Rattle.store.specs.Held.{AreBorrowedBy};
ghost use Rattle.store.specs.Stored.{AreAllOrLatest, AsksCompaction, HasRequestsOf, ImageAsksCompaction, IsRequestStoreInStep, kept_payloads, requests_in, store_of};

use crate::{LoadedStore, RequestVisitor, taken_over};
use base::{Entry, NoMemory};
use outside::{Disk, StoreFault};
use std::alloc::Global;
use store_journal::{FoundForm, Journal, Opened, Payloads};

/// The form of the payloads of this store.
pub const FORM: u8 = 3;

/// The form of the stores whose records are taken over.
pub const EARLIER_FORM: u8 = 2;

/// A journal, and what its payloads stand for.
#[derive(Drop)]
pub struct Parts<'g> {
    pub journal: Journal,
    pub held: LoadedStore<'g>,
}

/// Opens the records of a disk without compaction. If a store of the earlier form counts, its records are first written to a side
/// of their own beside it. A file with the name, words and text of a record lends that text.
pub fn read<'g, D: Disk>(
    alloc: Global,
    disk: &mut D,
    files: &'g [Entry],
) -> Result<Parts<'g>, StoreFault>
    ensures any_moment { D.tells →
        AtAnyMoment (D.moments disk.old) (D.moments disk.new)
        (HasRequestsOf (D.moments disk.old).now) }
    ensures opens { D.tells →
        let before = requests_in (reads_of (D.moments disk.old).now) in
        OpensWith (D.moments disk.old) (D.moments disk.new)
        (λ image. AreAllOrLatest before (requests_in image)) }
    ensures rests { D.tells →
        IsHealthy 3 (reads_of (D.moments disk.old).now) →
        Rests result (D.moments disk.old) (D.moments disk.new) }
    ensures keeps { D.tells →
        OnOk result
        (kept_payloads (reads_of (D.moments disk.new).now)
        ≡ kept_payloads (reads_of (D.moments disk.old).now)) }
    ensures records { D.tells →
        OnOk result
        (requests_in (reads_of (D.moments disk.new).now)
        ≡ requests_in (reads_of (D.moments disk.old).now)) }
    // The loaded store needs compaction exactly if the disk did at entry.
    ensures asks { D.tells →
        IfOk result
        (λ parts.
        AsksCompaction parts.journal.generation parts.held.payloads
        ↔ ImageAsksCompaction (reads_of (D.moments disk.old).now)) }
    ensures in_step { D.tells →
        IfOk result
        (λ parts.
        IsRequestStoreInStep (store_of parts.journal parts.held) (D.moments disk.new).now) }
    // A text that is borrowed is that of the file of its number.
    ensures borrowed { IfOk result (λ parts. AreBorrowedBy files.now parts.held.borrowed) }
    ensures form { IfOk result (λ parts. parts.journal.form ≡ 3) }
    ensures usable { IfOk result (λ parts. parts.journal.broken ≡ false) }
    ensures cause { StoreCounts result (D.failed_disk_calls disk.old)
        (D.failed_disk_calls disk.new) }
{
    let own = RequestVisitor::over(alloc, files);
    let earlier = Payloads::new(alloc);
    let found = Journal::found_in(alloc, disk, FORM, EARLIER_FORM, own, earlier)?;
    match found {
        FoundForm::Newer(opened) => {
            let parts = parts_of(opened)?;
            Ok(parts)
        }
        FoundForm::Older(opened) => {
            let Opened { journal, payloads } = opened;
            let parts = take_over(alloc, disk, journal, payloads)?;
            Ok(parts)
        }
    }
}

/// The journal, and what the payloads that were taken stand for.
fn parts_of<'g>(opened: Opened<RequestVisitor<'g>>) -> Result<Parts<'g>, NoMemory>
    ensures journal { IfOk result (λ parts. parts.journal ≡ opened.entry.journal) }
    ensures payloads { IfOk result (λ parts. parts.held.payloads ≡ opened.entry.payloads.taken) }
    ensures borrowed { IfOk result (λ parts. parts.held.borrowed ≡ opened.entry.payloads.borrowed) }
{
    let Opened { journal, payloads } = opened;
    let held = payloads.into_loaded()?;
    Ok(Parts { journal, held })
}

/// Puts the records of a store of the earlier form in a side of their own, beside it. It takes all its memory before it
/// writes.
fn take_over<'g, D: Disk>(
    alloc: Global,
    disk: &mut D,
    mut journal: Journal,
    opened: Payloads,
) -> Result<Parts<'g>, StoreFault>
    requires usable { journal.broken ≡ false }
    requires form { journal.form ≡ 2 }
    requires in_step { D.tells → IsInStep journal (D.moments disk.old).now }
    requires none { D.tells → has_form 3 (reads_of (D.moments disk.old).now) ≡ false }
    requires payloads { D.tells → payloads 2 (reads_of (D.moments disk.old).now) ≡ opened }
    ensures any_moment { D.tells →
        let before = requests_in (reads_of (D.moments disk.old).now) in
        AtAnyMoment (D.moments disk.old) (D.moments disk.new)
        (λ image. AreAllOrLatest before (requests_in image)) }
    ensures keeps { D.tells →
        OnOk result
        (kept_payloads (reads_of (D.moments disk.new).now)
        ≡ kept_payloads (reads_of (D.moments disk.old).now)) }
    ensures records { D.tells →
        OnOk result
        (requests_in (reads_of (D.moments disk.new).now)
        ≡ requests_in (reads_of (D.moments disk.old).now)) }
    ensures live { IfOk result
        (λ parts.
        parts.held.payloads ≡ compacted_requests (requests_among parts.held.payloads)) }
    ensures in_step { D.tells →
        IfOk result
        (λ parts.
        IsRequestStoreInStep (store_of parts.journal parts.held) (D.moments disk.new).now) }
    ensures borrowed { IfOk result (λ parts. parts.held.borrowed ≡ []) }
    ensures form { IfOk result (λ parts. parts.journal.form ≡ 3) }
    ensures usable { IfOk result (λ parts. parts.journal.broken ≡ false) }
    ensures cause { StoreCounts result (D.failed_disk_calls disk.old)
        (D.failed_disk_calls disk.new) }
{
    let taken = taken_over(alloc, opened)?;
    let side = Journal::first_side(alloc, FORM, &taken)?;
    let held = LoadedStore::of(alloc, taken)?;
    match journal.change_form(disk, side) {
        Ok(()) => Ok(Parts { journal, held }),
        Err(_fault) => Err(StoreFault::DiskFailed),
    }
}
