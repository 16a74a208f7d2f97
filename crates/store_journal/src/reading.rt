//! Reading the payloads of the side that counts, each of which is borrowed to a visitor from the window that it was read into.

ghost use Rattle.std.specs.Prelude.{◌≡◌, ℕ, List, ◌<◌, ◌≤◌, ◌+◌, ◌-◌, ◌^◌, ◌↔◌, ◌++◌, [], ◌∷◌, length, take, drop, slice_index, IsTrue, IfOk, IfSome, OnOk};
ghost use Rattle.base.specs.Bytes.{number_bytes};
ghost use Rattle.outside.specs.Counts.{StoreCounts};
ghost use Rattle.outside.specs.Disks.{side_of, bytes_at, Goes};
ghost use Rattle.store_journal.specs.Journals.{EndsAt};
ghost use Rattle.store_journal.specs.Windows.{IsCountOf, IsWindowOf};

use crate::Visitor;
use crate::layout::{FIRST_COMMIT_BYTE, Live};
use crate::sides::read_some;
use crate::windows::{Span, WINDOW, Window, cover};
use outside::{Disk, StoreFault};
use std::alloc::Global;

/// The payloads of a side, the number of its bytes up to and with the commit byte after which none follows, and whether that
/// commit byte is open.
#[derive(Drop)]
pub struct Found<T> {
    pub payloads: T,
    pub len: u64,
    pub is_open: bool,
}

/// A commit byte, and the number of bytes of the payload after it.
#[derive(Clone, Copy)]
struct Head {
    commit_byte: u8,
    count: u32,
}

/// A commit byte and four bytes.
fn head_in(bytes: &[u8]) -> Head
    requires { length bytes.now ≡ 5 }
    ensures { bytes.now ≡ result.commit_byte ∷ number_bytes result.count }
{
    Head {
        commit_byte: bytes[0],
        count: u32::from_le_bytes([bytes[1], bytes[2], bytes[3], bytes[4]]),
    }
}

/// The length of the payload that a commit byte opens, if it opens one. `left` is the number of bytes from that commit byte to
/// the end of the side: the payload and one more commit byte after it must lie within them.
fn count_after(head: Head, left: u64) -> Option<u32>
    ensures is { (bytes : List ℕ) → length bytes ≡ left →
        take 5 bytes ≡ head.commit_byte ∷ number_bytes head.count → IsCountOf bytes result }
    ensures within { IfSome result (λ count. 5 + count < left) }
{
    if head.commit_byte != 1 {
        return None;
    }
    if left <= 5 + head.count as u64 {
        return None;
    }
    Some(head.count)
}

/// Hands the payload in a span to a visitor. A payload that is longer than a window is read at once, into a buffer of its own.
fn read_payload<D: Disk, T: Visitor>(
    alloc: Global,
    disk: &mut D,
    live: Live,
    window: &mut Window,
    span: Span,
    visitor: &mut T,
) -> Result<(), StoreFault>
    requires within { span.start + span.count ≤ live.len }
    requires small { span.count < 2 ^ 32 }
    requires len { D.tells →
        live.len ≡ length (side_of live.side (D.moments disk.old).now).reads }
    requires window { D.tells →
        IsWindowOf (side_of live.side (D.moments disk.old).now).reads window.old }
    ensures taken { D.tells →
        let reads = (side_of live.side (D.moments disk.old).now).reads in
        OnOk result
        (T.taken visitor.new ≡ T.taken visitor.old ++ bytes_at span.start span.count reads ∷ []) }
    ensures borrows { OnOk result (T.borrows visitor.new ≡ T.borrows visitor.old) }
    ensures window { D.tells →
        OnOk result (IsWindowOf (side_of live.side (D.moments disk.old).now).reads window.new) }
    ensures same { D.tells → OnOk result ((D.moments disk.new).now ≡ (D.moments disk.old).now) }
    ensures moments { D.tells →
        Goes (D.moments disk.old).now (D.moments disk.old) (D.moments disk.new) }
    ensures cause { StoreCounts result (D.failed_disk_calls disk.old)
        (D.failed_disk_calls disk.new) }
{
    if span.count > WINDOW {
        let bytes = read_some(alloc, disk, live.side, span.start, span.count)?;
        visitor.take(alloc, &bytes)?;
        return Ok(());
    }
    cover(disk, live, window, span)?;
    visitor.take(alloc, window.slice(span))?;
    Ok(())
}

/// The length of the payload that the commit byte at an offset opens, if it opens one.
fn next_count<D: Disk>(
    disk: &mut D,
    live: Live,
    window: &mut Window,
    commit_byte: u64,
) -> Result<Option<u32>, StoreFault>
    requires commit_byte { commit_byte < live.len }
    requires len { D.tells →
        live.len ≡ length (side_of live.side (D.moments disk.old).now).reads }
    requires window { D.tells →
        IsWindowOf (side_of live.side (D.moments disk.old).now).reads window.old }
    ensures is { D.tells →
        IfOk result
        (IsCountOf (drop commit_byte (side_of live.side (D.moments disk.old).now).reads)) }
    ensures within { IfOk result (λ next. IfSome next (λ count. commit_byte + 5 + count < live.len)) }
    ensures window { D.tells →
        OnOk result (IsWindowOf (side_of live.side (D.moments disk.old).now).reads window.new) }
    ensures same { D.tells → OnOk result ((D.moments disk.new).now ≡ (D.moments disk.old).now) }
    ensures moments { D.tells →
        Goes (D.moments disk.old).now (D.moments disk.old) (D.moments disk.new) }
    ensures cause { StoreCounts result (D.failed_disk_calls disk.old)
        (D.failed_disk_calls disk.new) }
{
    let left = live.len - commit_byte;
    if left < 6 {
        return Ok(None);
    }
    let span = Span {
        start: commit_byte,
        count: 5,
    };
    cover(disk, live, window, span)?;
    let head = head_in(window.slice(span));
    Ok(count_after(head, left))
}

/// Whether the commit byte at an offset is open.
fn is_open<D: Disk>(
    disk: &mut D,
    live: Live,
    window: &mut Window,
    commit_byte: u64,
) -> Result<bool, StoreFault>
    requires commit_byte { commit_byte < live.len }
    requires len { D.tells →
        live.len ≡ length (side_of live.side (D.moments disk.old).now).reads }
    requires window { D.tells →
        IsWindowOf (side_of live.side (D.moments disk.old).now).reads window.old }
    ensures is { D.tells →
        let reads = (side_of live.side (D.moments disk.old).now).reads in
        IfOk result (λ is. IsTrue is ↔ (slice_index reads commit_byte ≡ 1)) }
    ensures same { D.tells → OnOk result ((D.moments disk.new).now ≡ (D.moments disk.old).now) }
    ensures moments { D.tells →
        Goes (D.moments disk.old).now (D.moments disk.old) (D.moments disk.new) }
    ensures cause { StoreCounts result (D.failed_disk_calls disk.old)
        (D.failed_disk_calls disk.new) }
{
    let span = Span {
        start: commit_byte,
        count: 1,
    };
    cover(disk, live, window, span)?;
    Ok(window.slice(span)[0] == 1)
}

/// Hands the payloads of a side to a visitor, part by part, and says at which offset the commit byte is after which none follows.
fn read_parts<D: Disk, T: Visitor>(
    alloc: Global,
    disk: &mut D,
    live: Live,
    window: &mut Window,
    visitor: &mut T,
) -> Result<u64, StoreFault>
    requires size { 19 ≤ live.len }
    requires none { T.taken visitor.old ≡ [] }
    requires len { D.tells →
        live.len ≡ length (side_of live.side (D.moments disk.old).now).reads }
    requires window { D.tells →
        IsWindowOf (side_of live.side (D.moments disk.old).now).reads window.old }
    ensures end { D.tells →
        let reads = (side_of live.side (D.moments disk.old).now).reads in
        IfOk result (λ commit_byte. EndsAt (commit_byte + 1) (T.taken visitor.new) reads) }
    ensures borrows { OnOk result (T.borrows visitor.new ≡ T.borrows visitor.old) }
    ensures commit_byte { IfOk result (λ commit_byte. (18 ≤ commit_byte) × (commit_byte < live.len)) }
    ensures window { D.tells →
        OnOk result (IsWindowOf (side_of live.side (D.moments disk.old).now).reads window.new) }
    ensures same { D.tells → OnOk result ((D.moments disk.new).now ≡ (D.moments disk.old).now) }
    ensures moments { D.tells →
        Goes (D.moments disk.old).now (D.moments disk.old) (D.moments disk.new) }
    ensures cause { StoreCounts result (D.failed_disk_calls disk.old)
        (D.failed_disk_calls disk.new) }
{
    let mut commit_byte = FIRST_COMMIT_BYTE as u64;
    while let Some(count) = next_count(disk, live, window, commit_byte)? {
        let span = Span {
            start: commit_byte + 5,
            count: count as u64,
        };
        read_payload(alloc, disk, live, window, span, visitor)?;
        commit_byte = commit_byte + 5 + count as u64;
    }
    Ok(commit_byte)
}

/// Hands the payloads of a side that has a first commit byte to a visitor. It is read from that commit byte on, a window at a time.
pub fn read_payloads<D: Disk, T: Visitor + Drop>(
    alloc: Global,
    disk: &mut D,
    live: Live,
    visitor: T,
) -> Result<Found<T>, StoreFault>
    requires size { 19 ≤ live.len }
    requires none { T.taken visitor ≡ [] }
    requires len { D.tells →
        live.len ≡ length (side_of live.side (D.moments disk.old).now).reads }
    ensures end { D.tells →
        let reads = (side_of live.side (D.moments disk.old).now).reads in
        IfOk result (λ found. EndsAt found.len (T.taken found.payloads) reads) }
    ensures borrows { IfOk result (λ found. T.borrows found.payloads ≡ T.borrows visitor) }
    ensures commit_byte { D.tells →
        let reads = (side_of live.side (D.moments disk.old).now).reads in
        IfOk result
        (λ found. IsTrue found.is_open ↔ (slice_index reads (found.len - 1) ≡ 1)) }
    ensures long { IfOk result (λ found. 19 ≤ found.len) }
    ensures same { D.tells → OnOk result ((D.moments disk.new).now ≡ (D.moments disk.old).now) }
    ensures moments { D.tells →
        Goes (D.moments disk.old).now (D.moments disk.old) (D.moments disk.new) }
    ensures cause { StoreCounts result (D.failed_disk_calls disk.old)
        (D.failed_disk_calls disk.new) }
{
    let mut payloads = visitor;
    let mut window = Window::new(alloc);
    let commit_byte = read_parts(alloc, disk, live, &mut window, &mut payloads)?;
    let is_open = is_open(disk, live, &mut window, commit_byte)?;
    Ok(Found {
        payloads,
        len: commit_byte + 1,
        is_open,
    })
}
