//! Opens the passes of a disk, without compaction.

ghost use Rattle.std.specs.Prelude.{◌≡◌, ◌↔◌, [], false, IfOk, OnOk};
ghost use Rattle.outside.specs.Counts.{StoreCounts};
ghost use Rattle.outside.specs.Disks.{AtAnyMoment, OpensWith, reads_of, Rests};
ghost use Rattle.store_journal.specs.Journals.{IsHealthy};
ghost use Rattle.store_journal.specs.Payloads.{payloads};
ghost use Rattle.passes_spec.specs.Passes.{IsAllOrLast};
ghost use Rattle.passes.specs.Stored.{AsksCompaction, HasPassesOf, ImageAsksCompaction, IsPassStoreInStep, passes_in, store_of};

use outside::{Disk, StoreFault};
use passes_table::LoadedPasses;
use std::alloc::Global;
use store_journal::{Journal, Opened, Payloads};

/// The form of the payloads of this store.
pub const FORM: u8 = 5;

/// A journal, and what its payloads stand for.
#[derive(Drop)]
pub struct Parts {
    pub journal: Journal,
    pub held: LoadedPasses,
}

/// Opens the passes of a disk without compaction, with no file in the list of built files.
pub fn read<D: Disk>(alloc: Global, disk: &mut D) -> Result<Parts, StoreFault>
    ensures any_moment { D.tells →
        AtAnyMoment (D.moments disk.old) (D.moments disk.new)
        (HasPassesOf (D.moments disk.old).now) }
    ensures opens { D.tells →
        let before = passes_in (reads_of (D.moments disk.old).now) in
        OpensWith (D.moments disk.old) (D.moments disk.new)
        (λ image. IsAllOrLast before (passes_in image)) }
    ensures rests { D.tells →
        IsHealthy 5 (reads_of (D.moments disk.old).now) →
        Rests result (D.moments disk.old) (D.moments disk.new) }
    ensures keeps { D.tells →
        OnOk result
        (payloads 5 (reads_of (D.moments disk.new).now)
        ≡ payloads 5 (reads_of (D.moments disk.old).now)) }
    // What is held needs compaction exactly if the disk did at entry.
    ensures asks { D.tells →
        IfOk result
        (λ parts.
        AsksCompaction parts.journal.generation parts.held.payloads
        ↔ ImageAsksCompaction (reads_of (D.moments disk.old).now)) }
    ensures in_step { D.tells →
        IfOk result
        (λ parts. IsPassStoreInStep (store_of parts.journal parts.held) (D.moments disk.new).now) }
    ensures built { IfOk result (λ parts. parts.held.built ≡ []) }
    ensures form { IfOk result (λ parts. parts.journal.form ≡ 5) }
    ensures usable { IfOk result (λ parts. parts.journal.broken ≡ false) }
    ensures cause { StoreCounts result (D.failed_disk_calls disk.old)
        (D.failed_disk_calls disk.new) }
{
    let Opened { journal, payloads } = Journal::from_disk(alloc, disk, FORM, Payloads::new(alloc))?;
    let held = LoadedPasses::of(alloc, payloads)?;
    Ok(Parts { journal, held })
}
