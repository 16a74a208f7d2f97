//! Reading a disk, after both sides are synced: how they begin, and then one of them.

ghost use Rattle.std.specs.Prelude.{◌≡◌, ◌^◌, ◌<◌, ◌≤◌, ◌+◌, length, min, IfOk, IfSome, OnOk};
ghost use Rattle.outside.specs.Counts.{StoreCounts};
ghost use Rattle.outside.specs.Disks.{side_of, bytes_at, reads_of, settled_disk, Goes};
ghost use Rattle.store_journal.specs.Headers.{header_in, headers_in};

use crate::layout::{FormHeaders, Header, Headers, header_of};
use outside::{Disk, Side, StoreFault};
use std::alloc::Global;

/// The `count` bytes of a side from the offset `at` on.
pub fn read_some<D: Disk>(
    alloc: Global,
    disk: &mut D,
    side: Side,
    at: u64,
    count: u64,
) -> Result<Vec<u8>, StoreFault>
    requires { D.tells → (at + count ≤ length (side_of side (D.moments disk.old).now).reads) }
    ensures bytes { D.tells →
        IfOk result
        (λ bytes. bytes.items ≡ bytes_at at count (side_of side (D.moments disk.old).now).reads) }
    ensures length { IfOk result (λ bytes. length bytes.items ≡ count) }
    ensures same { D.tells → OnOk result ((D.moments disk.new).now ≡ (D.moments disk.old).now) }
    ensures moments { D.tells →
        Goes (D.moments disk.old).now (D.moments disk.old) (D.moments disk.new) }
    ensures cause { StoreCounts result (D.failed_disk_calls disk.old)
        (D.failed_disk_calls disk.new) }
{
    let mut bytes = vec![in alloc; 0; count as usize]?;
    disk.read(side, at, &mut bytes)?;
    Ok(bytes)
}

/// How many bytes of a side are read for its header: the first 19, or all where there are fewer.
fn header_count(len: u64) -> u64
    ensures { result ≡ min 19 len }
{
    if len < 19 { len } else { 19 }
}

/// What a side says of itself, by two forms.
#[derive(Clone, Copy)]
struct SideHeaders {
    newer: Option<Header>,
    older: Option<Header>,
}

/// What a side says of itself, where it is live for one of two forms. It is read once.
fn read_header<D: Disk>(
    alloc: Global,
    disk: &mut D,
    side: Side,
    newer: u8,
    older: u8,
) -> Result<SideHeaders, StoreFault>
    ensures newer { D.tells →
        IfOk result
        (λ both. both.newer ≡ header_in newer (side_of side (D.moments disk.old).now).reads) }
    ensures older { D.tells →
        IfOk result
        (λ both. both.older ≡ header_in older (side_of side (D.moments disk.old).now).reads) }
    ensures newer_long { IfOk result (λ both. IfSome both.newer (λ live. 19 ≤ live.len)) }
    ensures older_long { IfOk result (λ both. IfSome both.older (λ live. 19 ≤ live.len)) }
    ensures same { D.tells → OnOk result ((D.moments disk.new).now ≡ (D.moments disk.old).now) }
    ensures moments { D.tells →
        Goes (D.moments disk.old).now (D.moments disk.old) (D.moments disk.new) }
    ensures cause { StoreCounts result (D.failed_disk_calls disk.old)
        (D.failed_disk_calls disk.new) }
{
    let len = disk.len(side)?;
    let first = read_some(alloc, disk, side, 0, header_count(len))?;
    let newer = header_of(newer, len, &first);
    let older = header_of(older, len, &first);
    Ok(SideHeaders { newer, older })
}

/// Syncs both sides, and reads how each begins, by two forms. No image is added at any moment.
pub fn read_form_headers<D: Disk>(
    alloc: Global,
    disk: &mut D,
    newer: u8,
    older: u8,
) -> Result<FormHeaders, StoreFault>
    ensures newer { D.tells →
        IfOk result
        (λ both. both.newer ≡ headers_in newer (reads_of (D.moments disk.old).now)) }
    ensures older { D.tells →
        IfOk result
        (λ both. both.older ≡ headers_in older (reads_of (D.moments disk.old).now)) }
    ensures newer_a_long { IfOk result (λ both. IfSome both.newer.a (λ live. 19 ≤ live.len)) }
    ensures newer_b_long { IfOk result (λ both. IfSome both.newer.b (λ live. 19 ≤ live.len)) }
    ensures older_a_long { IfOk result (λ both. IfSome both.older.a (λ live. 19 ≤ live.len)) }
    ensures older_b_long { IfOk result (λ both. IfSome both.older.b (λ live. 19 ≤ live.len)) }
    ensures settled { D.tells →
        OnOk result ((D.moments disk.new).now ≡ settled_disk (reads_of (D.moments disk.old).now)) }
    ensures moments { D.tells →
        Goes (D.moments disk.old).now (D.moments disk.old) (D.moments disk.new) }
    ensures cause { StoreCounts result (D.failed_disk_calls disk.old)
        (D.failed_disk_calls disk.new) }
{
    disk.sync(Side::A)?;
    disk.sync(Side::B)?;
    let a = read_header(alloc, disk, Side::A, newer, older)?;
    let b = read_header(alloc, disk, Side::B, newer, older)?;
    let newer = Headers {
        a: a.newer,
        b: b.newer,
    };
    let older = Headers {
        a: a.older,
        b: b.older,
    };
    Ok(FormHeaders { newer, older })
}

/// Syncs both sides, and reads how each begins. No image is added at any moment.
pub fn read_headers<D: Disk>(alloc: Global, disk: &mut D, form: u8) -> Result<Headers, StoreFault>
    ensures headers { D.tells →
        IfOk result
        (λ headers. headers ≡ headers_in form (reads_of (D.moments disk.old).now)) }
    ensures a_long { IfOk result (λ headers. IfSome headers.a (λ live. 19 ≤ live.len)) }
    ensures b_long { IfOk result (λ headers. IfSome headers.b (λ live. 19 ≤ live.len)) }
    ensures settled { D.tells →
        OnOk result ((D.moments disk.new).now ≡ settled_disk (reads_of (D.moments disk.old).now)) }
    ensures moments { D.tells →
        Goes (D.moments disk.old).now (D.moments disk.old) (D.moments disk.new) }
    ensures cause { StoreCounts result (D.failed_disk_calls disk.old)
        (D.failed_disk_calls disk.new) }
{
    let both = read_form_headers(alloc, disk, form, form)?;
    Ok(both.newer)
}
