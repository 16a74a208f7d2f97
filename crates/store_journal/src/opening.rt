//! Opening a journal over whatever a disk holds.

ghost use Rattle.std.specs.Prelude.{◌≡◌, ◌≢◌, ◌≤◌, ◌-◌, ◌↔◌, ℕ, [], true, false, None, slice_index, IsTrue, IfOk, IfSome, OnOk};
ghost use Rattle.outside.specs.Counts.{StoreCounts};
ghost use Rattle.outside.specs.Disks.{reads_of, settled_disk, image_side, AtAnyMoment, OpensWith, Rests};
ghost use Rattle.outside.specs.declared.disk.Side.TheVariants.{A};
ghost use Rattle.store_journal.specs.Forms.{HoldsSame, has_form};
ghost use Rattle.store_journal.specs.Payloads.{payloads, counting, generation_of, side_bytes};
ghost use Rattle.store_journal.specs.Journals.{EndsAt, IsInStep, HasPayloadsOf, IsHealthy, OpensAs, CountsAs};
ghost use Rattle.store_journal.specs.Headers.{headers_in, IsLiveOf};

use crate::layout::{Headers, Live, empty_side, live_side};
use crate::making::make_side;
use crate::reading::{Found, read_payloads};
use crate::sides::read_headers;
use crate::{Journal, Visitor};
use outside::{Disk, Side, StoreFault, write_durably};
use std::alloc::Global;

/// A journal, and what took the payloads that its disk held.
#[derive(Drop)]
pub struct Opened<T> {
    pub journal: Journal,
    pub payloads: T,
}

impl Journal {
    /// Opens the journal of a form on a disk, whatever the disk holds: that denotes some payloads, possibly none. It
    /// reads how each side begins, and then the side that counts alone, whose payloads it hands to a visitor.
    pub fn from_disk<D: Disk, T: Visitor + Drop>(
        alloc: Global,
        disk: &mut D,
        form: u8,
        visitor: T,
    ) -> Result<Opened<T>, StoreFault>
        requires { T.taken visitor ≡ [] }
        // At any moment, after a fault too, a stop can leave the payloads of an image at entry.
        ensures any_moment { D.tells →
            AtAnyMoment (D.moments disk.old) (D.moments disk.new)
            (HasPayloadsOf form (D.moments disk.old).now) }
        // Once both sides are synced, it leaves those of what reads gave at entry.
        ensures opens { D.tells →
            OpensWith (D.moments disk.old) (D.moments disk.new)
            (λ image. payloads form image ≡ payloads form (reads_of (D.moments disk.old).now)) }
        // Where a side counts and its last commit byte is closed, nothing is written.
        ensures rests { D.tells →
            IsHealthy form (reads_of (D.moments disk.old).now) →
            Rests result (D.moments disk.old) (D.moments disk.new) }
        ensures in_step { D.tells →
            IfOk result (λ opened. IsInStep opened.journal (D.moments disk.new).now) }
        ensures payloads { D.tells →
            IfOk result
            (λ opened.
            T.taken opened.payloads ≡ payloads form (reads_of (D.moments disk.old).now)) }
        ensures held { D.tells →
            IfOk result
            (λ opened.
            payloads form (reads_of (D.moments disk.new).now) ≡ T.taken opened.payloads) }
        ensures borrows { IfOk result (λ opened. T.borrows opened.payloads ≡ T.borrows visitor) }
        // The side that counts goes on counting; where none does, it is A, of generation 1.
        ensures counts { D.tells →
            IfOk result
            (λ opened. OpensAs form (reads_of (D.moments disk.old).now) opened.journal) }
        // Where none counts, A is made without payloads, and B stays.
        ensures fresh { D.tells →
            counting form (reads_of (D.moments disk.old).now) ≡ None →
            OnOk result
            (reads_of (D.moments disk.new).now
            ≡ record { a = side_bytes form 1 []; b = (reads_of (D.moments disk.old).now).b }) }
        ensures form { IfOk result (λ opened. opened.journal.form ≡ form) }
        ensures usable { IfOk result (λ opened. opened.journal.broken ≡ false) }
        ensures cause { StoreCounts result (D.failed_disk_calls disk.old)
            (D.failed_disk_calls disk.new) }
    {
        let headers = read_headers(alloc, disk, form)?;
        open_sides(alloc, disk, form, headers, visitor)
    }
}

/// Opens the side that counts, or makes one.
pub(crate) fn open_sides<D: Disk, T: Visitor + Drop>(
    alloc: Global,
    disk: &mut D,
    form: u8,
    headers: Headers,
    visitor: T,
) -> Result<Opened<T>, StoreFault>
    requires none { T.taken visitor ≡ [] }
    requires settled { D.tells →
        (D.moments disk.old).now ≡ settled_disk (reads_of (D.moments disk.old).now) }
    requires headers { D.tells → headers ≡ headers_in form (reads_of (D.moments disk.old).now) }
    requires a_long { IfSome headers.a (λ live. 19 ≤ live.len) }
    requires b_long { IfSome headers.b (λ live. 19 ≤ live.len) }
    ensures any_moment { D.tells →
        AtAnyMoment (D.moments disk.old) (D.moments disk.new)
        (λ image. payloads form image ≡ payloads form (reads_of (D.moments disk.old).now)) }
    // If the form is live at entry, each form keeps its payloads, and is live exactly if it was.
    ensures holds { D.tells →
        has_form form (reads_of (D.moments disk.old).now) ≡ true →
        AtAnyMoment (D.moments disk.old) (D.moments disk.new)
        (HoldsSame (reads_of (D.moments disk.old).now)) }
    // If the form is not live at entry, no other form becomes live.
    ensures apart { D.tells →
        has_form form (reads_of (D.moments disk.old).now) ≡ false →
        (other : ℕ) → other ≢ form →
        has_form other (reads_of (D.moments disk.old).now) ≡ false →
        AtAnyMoment (D.moments disk.old) (D.moments disk.new)
        (λ image. has_form other image ≡ false) }
    ensures rests { D.tells →
        IsHealthy form (reads_of (D.moments disk.old).now) →
        Rests result (D.moments disk.old) (D.moments disk.new) }
    ensures in_step { D.tells →
        IfOk result (λ opened. IsInStep opened.journal (D.moments disk.new).now) }
    ensures payloads { D.tells →
        IfOk result
        (λ opened.
        T.taken opened.payloads ≡ payloads form (reads_of (D.moments disk.old).now)) }
    ensures borrows { IfOk result (λ opened. T.borrows opened.payloads ≡ T.borrows visitor) }
    ensures counts { D.tells →
        IfOk result
        (λ opened. OpensAs form (reads_of (D.moments disk.old).now) opened.journal) }
    ensures fresh { D.tells →
        counting form (reads_of (D.moments disk.old).now) ≡ None →
        OnOk result
        (reads_of (D.moments disk.new).now
        ≡ record { a = side_bytes form 1 []; b = (reads_of (D.moments disk.old).now).b }) }
    ensures form { IfOk result (λ opened. opened.journal.form ≡ form) }
    ensures usable { IfOk result (λ opened. opened.journal.broken ≡ false) }
    ensures cause { StoreCounts result (D.failed_disk_calls disk.old)
        (D.failed_disk_calls disk.new) }
{
    match live_side(headers) {
        None => begin(disk, form, visitor),
        Some(live) => open(alloc, disk, form, live, visitor),
    }
}

/// Makes side A, where no side counts.
pub(crate) fn begin<D: Disk, T: Visitor + Drop>(
    disk: &mut D,
    form: u8,
    visitor: T,
) -> Result<Opened<T>, StoreFault>
    requires taken { T.taken visitor ≡ [] }
    requires settled { D.tells →
        (D.moments disk.old).now ≡ settled_disk (reads_of (D.moments disk.old).now) }
    requires none { D.tells → counting form (reads_of (D.moments disk.old).now) ≡ None }
    ensures any_moment { D.tells →
        AtAnyMoment (D.moments disk.old) (D.moments disk.new)
        (λ image. payloads form image ≡ payloads form (reads_of (D.moments disk.old).now)) }
    ensures apart { D.tells →
        (other : ℕ) → other ≢ form →
        has_form other (reads_of (D.moments disk.old).now) ≡ false →
        AtAnyMoment (D.moments disk.old) (D.moments disk.new)
        (λ image. has_form other image ≡ false) }
    ensures in_step { D.tells →
        IfOk result (λ opened. IsInStep opened.journal (D.moments disk.new).now) }
    ensures payloads { D.tells →
        IfOk result
        (λ opened.
        T.taken opened.payloads ≡ payloads form (reads_of (D.moments disk.old).now)) }
    ensures borrows { IfOk result (λ opened. T.borrows opened.payloads ≡ T.borrows visitor) }
    ensures fresh { D.tells →
        OnOk result
        (reads_of (D.moments disk.new).now
        ≡ record { a = side_bytes form 1 []; b = (reads_of (D.moments disk.old).now).b }) }
    ensures counts { IfOk result (λ opened. CountsAs A 1 opened.journal) }
    ensures form { IfOk result (λ opened. opened.journal.form ≡ form) }
    ensures usable { IfOk result (λ opened. opened.journal.broken ≡ false) }
    ensures cause { StoreCounts result (D.failed_disk_calls disk.old)
        (D.failed_disk_calls disk.new) }
{
    make_side(disk, Side::A, &empty_side(form))?;
    Ok(Opened {
        journal: Journal::of(form, Side::A, 1, 19),
        payloads: visitor,
    })
}

/// Reads the payloads of the side that counts, and opens it.
fn open<D: Disk, T: Visitor + Drop>(
    alloc: Global,
    disk: &mut D,
    form: u8,
    live: Live,
    visitor: T,
) -> Result<Opened<T>, StoreFault>
    requires size { 19 ≤ live.len }
    requires none { T.taken visitor ≡ [] }
    requires settled { D.tells →
        (D.moments disk.old).now ≡ settled_disk (reads_of (D.moments disk.old).now) }
    requires live { D.tells → IsLiveOf form (reads_of (D.moments disk.old).now) live }
    ensures any_moment { D.tells →
        AtAnyMoment (D.moments disk.old) (D.moments disk.new)
        (λ image. payloads form image ≡ payloads form (reads_of (D.moments disk.old).now)) }
    ensures holds { D.tells →
        AtAnyMoment (D.moments disk.old) (D.moments disk.new)
        (HoldsSame (reads_of (D.moments disk.old).now)) }
    ensures rests { D.tells →
        IsHealthy form (reads_of (D.moments disk.old).now) →
        Rests result (D.moments disk.old) (D.moments disk.new) }
    ensures in_step { D.tells →
        IfOk result (λ opened. IsInStep opened.journal (D.moments disk.new).now) }
    ensures payloads { D.tells →
        IfOk result
        (λ opened.
        T.taken opened.payloads ≡ payloads form (reads_of (D.moments disk.old).now)) }
    ensures borrows { IfOk result (λ opened. T.borrows opened.payloads ≡ T.borrows visitor) }
    ensures counts { IfOk result (λ opened. CountsAs live.side live.generation opened.journal) }
    ensures form { IfOk result (λ opened. opened.journal.form ≡ form) }
    ensures usable { IfOk result (λ opened. opened.journal.broken ≡ false) }
    ensures cause { StoreCounts result (D.failed_disk_calls disk.old)
        (D.failed_disk_calls disk.new) }
{
    let found = read_payloads(alloc, disk, live, visitor)?;
    finish_opening(disk, form, live, found)
}

/// Opens the side that counts, of which this was found: closes the commit byte after its payloads where it is open.
fn finish_opening<D: Disk, T: Visitor + Drop>(
    disk: &mut D,
    form: u8,
    live: Live,
    found: Found<T>,
) -> Result<Opened<T>, StoreFault>
    requires size { 19 ≤ found.len }
    requires settled { D.tells →
        (D.moments disk.old).now ≡ settled_disk (reads_of (D.moments disk.old).now) }
    requires live { D.tells → IsLiveOf form (reads_of (D.moments disk.old).now) live }
    requires end { D.tells →
        let bytes = image_side live.side (reads_of (D.moments disk.old).now) in
        EndsAt found.len (T.taken found.payloads) bytes }
    requires commit_byte { D.tells →
        let bytes = image_side live.side (reads_of (D.moments disk.old).now) in
        IsTrue found.is_open ↔ (slice_index bytes (found.len - 1) ≡ 1) }
    ensures any_moment { D.tells →
        AtAnyMoment (D.moments disk.old) (D.moments disk.new)
        (λ image. payloads form image ≡ payloads form (reads_of (D.moments disk.old).now)) }
    ensures holds { D.tells →
        AtAnyMoment (D.moments disk.old) (D.moments disk.new)
        (HoldsSame (reads_of (D.moments disk.old).now)) }
    ensures rests { D.tells →
        IsHealthy form (reads_of (D.moments disk.old).now) →
        Rests result (D.moments disk.old) (D.moments disk.new) }
    ensures in_step { D.tells →
        IfOk result (λ opened. IsInStep opened.journal (D.moments disk.new).now) }
    ensures payloads { D.tells →
        IfOk result
        (λ opened.
        T.taken opened.payloads ≡ payloads form (reads_of (D.moments disk.old).now)) }
    ensures borrows { IfOk result (λ opened. T.borrows opened.payloads ≡ T.borrows found.payloads) }
    ensures counts { IfOk result (λ opened. CountsAs live.side live.generation opened.journal) }
    ensures form { IfOk result (λ opened. opened.journal.form ≡ form) }
    ensures usable { IfOk result (λ opened. opened.journal.broken ≡ false) }
    ensures cause { StoreCounts result (D.failed_disk_calls disk.old)
        (D.failed_disk_calls disk.new) }
{
    if !found.is_open {
        return Ok(as_found(form, live, found));
    }
    write_durably(disk, live.side, found.len - 1, &[0])?;
    Ok(as_found(form, live, found))
}

/// The journal of the side that counts, with the payloads that it holds.
fn as_found<T>(form: u8, live: Live, found: Found<T>) -> Opened<T>
    requires { 19 ≤ found.len }
    ensures journal { result.journal
        ≡ record {
          form = form;
          live = live.side;
          generation = live.generation;
          len = found.len;
          broken = false;
        } }
    ensures payloads { result.payloads ≡ found.payloads }
{
    Opened {
        journal: Journal::of(form, live.side, live.generation, found.len),
        payloads: found.payloads,
    }
}
