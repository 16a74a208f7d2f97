//! Opening a journal over a disk that may hold either of two forms, of which a newer one takes the place of an older one.

ghost use Rattle.std.specs.Prelude.{◌≡◌, ◌≢◌, ◌≤◌, [], false, IfOk, IfSome, OnOk};
ghost use Rattle.outside.specs.Counts.{StoreCounts};
ghost use Rattle.outside.specs.Disks.{reads_of, settled_disk, AtAnyMoment, OpensWith, Rests};
ghost use Rattle.store_journal.specs.Finds.{found_journal, found_taken, IsOfFoundForm, BorrowsStill};
ghost use Rattle.store_journal.specs.Forms.{HoldsForms, HoldsFormsOf, found_form, has_form};
ghost use Rattle.store_journal.specs.Headers.{headers_in};
ghost use Rattle.store_journal.specs.Journals.{IsInStep, IsHealthy, OpensAs};
ghost use Rattle.store_journal.specs.Payloads.{payloads, side_bytes};

use crate::layout::{FormHeaders, is_older};
use crate::opening::{Opened, open_sides};
use crate::sides::read_form_headers;
use crate::{Journal, Visitor};
use outside::{Disk, StoreFault};
use std::alloc::Global;

/// An opened journal of the newer form, or of the older one.
#[derive(Drop)]
pub enum FoundForm<N, O> {
    Newer(Opened<N>),
    Older(Opened<O>),
}

impl Journal {
    /// Opens the journal of the newer of two forms on a disk, or that of the older one if it alone is live. If neither is
    /// live, it makes an empty journal of the newer form. It syncs both sides and reads the beginning of each, once for both
    /// forms. Then it reads only the side that counts, and hands its payloads to the visitor for that form.
    pub fn found_in<D: Disk, N: Visitor + Drop, O: Visitor + Drop>(
        alloc: Global,
        disk: &mut D,
        newer: u8,
        older: u8,
        for_newer: N,
        for_older: O,
    ) -> Result<FoundForm<N, O>, StoreFault>
        requires forms { older ≢ newer }
        requires none_of_newer { N.taken for_newer ≡ [] }
        requires none_of_older { O.taken for_older ≡ [] }
        // At any moment, after a fault too, a stop can leave of both forms what an image at entry held.
        ensures any_moment { D.tells →
            AtAnyMoment (D.moments disk.old) (D.moments disk.new)
            (HoldsFormsOf newer older (D.moments disk.old).now) }
        // Once both sides are synced, it leaves what reads gave at entry.
        ensures opens { D.tells →
            OpensWith (D.moments disk.old) (D.moments disk.new)
            (HoldsForms newer older (reads_of (D.moments disk.old).now)) }
        // Where a side counts for the form that does, and its last commit byte is closed, nothing is written.
        ensures rests { D.tells →
            let reads = reads_of (D.moments disk.old).now in
            IsHealthy (found_form newer older reads) reads →
            Rests result (D.moments disk.old) (D.moments disk.new) }
        // The journal is of the older form exactly if that alone is live,
        ensures found { D.tells →
            let reads = reads_of (D.moments disk.old).now in
            IfOk result (λ found. (found_journal found).form ≡ found_form newer older reads) }
        // and then the newer form is still not live, so that a side of it can be made.
        ensures alone { D.tells →
            IfOk result
            (λ found.
            (found_journal found).form ≡ older →
            has_form newer (reads_of (D.moments disk.new).now) ≡ false) }
        ensures stays { D.tells →
            IfOk result
            (λ _.
            HoldsForms newer older (reads_of (D.moments disk.old).now)
            (reads_of (D.moments disk.new).now)) }
        ensures in_step { D.tells →
            IfOk result (λ found. IsInStep (found_journal found) (D.moments disk.new).now) }
        ensures payloads { D.tells →
            let reads = reads_of (D.moments disk.old).now in
            IfOk result
            (λ found.
            found_taken N.taken O.taken found ≡ payloads (found_form newer older reads) reads) }
        ensures held { D.tells →
            let form = found_form newer older (reads_of (D.moments disk.old).now) in
            IfOk result
            (λ found.
            payloads form (reads_of (D.moments disk.new).now)
            ≡ found_taken N.taken O.taken found) }
        ensures borrows { IfOk result
            (BorrowsStill N.borrows O.borrows (N.borrows for_newer) (O.borrows for_older)) }
        // The side that counts goes on counting; where none does, it is A, of generation 1.
        ensures counts { D.tells →
            let reads = reads_of (D.moments disk.old).now in
            IfOk result
            (λ found. OpensAs (found_form newer older reads) reads (found_journal found)) }
        // Where neither form is live, A is made without payloads, and B stays.
        ensures fresh { D.tells →
            has_form newer (reads_of (D.moments disk.old).now) ≡ false →
            has_form older (reads_of (D.moments disk.old).now) ≡ false →
            OnOk result
            (reads_of (D.moments disk.new).now
            ≡ record { a = side_bytes newer 1 []; b = (reads_of (D.moments disk.old).now).b }) }
        // The journal is of the form that it says.
        ensures form { IfOk result (IsOfFoundForm newer older) }
        ensures usable { IfOk result (λ found. (found_journal found).broken ≡ false) }
        ensures cause { StoreCounts result (D.failed_disk_calls disk.old)
            (D.failed_disk_calls disk.new) }
    {
        let headers = read_form_headers(alloc, disk, newer, older)?;
        open_found(alloc, disk, newer, older, headers, for_newer, for_older)
    }
}

/// Opens the form that counts.
fn open_found<D: Disk, N: Visitor + Drop, O: Visitor + Drop>(
    alloc: Global,
    disk: &mut D,
    newer: u8,
    older: u8,
    headers: FormHeaders,
    for_newer: N,
    for_older: O,
) -> Result<FoundForm<N, O>, StoreFault>
    requires forms { older ≢ newer }
    requires none_of_newer { N.taken for_newer ≡ [] }
    requires none_of_older { O.taken for_older ≡ [] }
    requires settled { D.tells →
        (D.moments disk.old).now ≡ settled_disk (reads_of (D.moments disk.old).now) }
    requires newer { D.tells →
        headers.newer ≡ headers_in newer (reads_of (D.moments disk.old).now) }
    requires older { D.tells →
        headers.older ≡ headers_in older (reads_of (D.moments disk.old).now) }
    requires newer_a_long { IfSome headers.newer.a (λ live. 19 ≤ live.len) }
    requires newer_b_long { IfSome headers.newer.b (λ live. 19 ≤ live.len) }
    requires older_a_long { IfSome headers.older.a (λ live. 19 ≤ live.len) }
    requires older_b_long { IfSome headers.older.b (λ live. 19 ≤ live.len) }
    ensures holds { D.tells →
        AtAnyMoment (D.moments disk.old) (D.moments disk.new)
        (HoldsForms newer older (reads_of (D.moments disk.old).now)) }
    ensures rests { D.tells →
        let reads = reads_of (D.moments disk.old).now in
        IsHealthy (found_form newer older reads) reads →
        Rests result (D.moments disk.old) (D.moments disk.new) }
    ensures found { D.tells →
        let reads = reads_of (D.moments disk.old).now in
        IfOk result (λ found. (found_journal found).form ≡ found_form newer older reads) }
    ensures in_step { D.tells →
        IfOk result (λ found. IsInStep (found_journal found) (D.moments disk.new).now) }
    ensures payloads { D.tells →
        let reads = reads_of (D.moments disk.old).now in
        IfOk result
        (λ found.
        found_taken N.taken O.taken found ≡ payloads (found_form newer older reads) reads) }
    ensures borrows { IfOk result
        (BorrowsStill N.borrows O.borrows (N.borrows for_newer) (O.borrows for_older)) }
    ensures counts { D.tells →
        let reads = reads_of (D.moments disk.old).now in
        IfOk result
        (λ found. OpensAs (found_form newer older reads) reads (found_journal found)) }
    ensures fresh { D.tells →
        has_form newer (reads_of (D.moments disk.old).now) ≡ false →
        has_form older (reads_of (D.moments disk.old).now) ≡ false →
        OnOk result
        (reads_of (D.moments disk.new).now
        ≡ record { a = side_bytes newer 1 []; b = (reads_of (D.moments disk.old).now).b }) }
    ensures form { IfOk result (IsOfFoundForm newer older) }
    ensures usable { IfOk result (λ found. (found_journal found).broken ≡ false) }
    ensures cause { StoreCounts result (D.failed_disk_calls disk.old)
        (D.failed_disk_calls disk.new) }
{
    let older_alone = is_older(headers);
    if older_alone {
        let opened = open_sides(alloc, disk, older, headers.older, for_older)?;
        return Ok(FoundForm::Older(opened));
    }
    let opened = open_sides(alloc, disk, newer, headers.newer, for_newer)?;
    Ok(FoundForm::Newer(opened))
}
