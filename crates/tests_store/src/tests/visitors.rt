//! Tests of a journal that hands its payloads to a visitor which keeps no copy of some of them.

ghost use Rattle.std.specs.Prelude.{◌≡◌, [], unwrap_or, IfOk};

use crate::tests::forms::{NEW_CD, NEWER, OLD_AB, OLDER};
use crate::tests::journals::are;
use crate::tests::windows::{is_payload, put_bytes, side_of};
use crate::trials::empty_disk;
use base::{NoMemory, Text};
use memory_outside::MemDisk;
use outside::{Side, StoreFault, write_durably};
use std::alloc::Global;
use std::test::Fail;
use store_journal::{FoundForm, Journal, Opened, Payloads, Visitor};

/// Payloads, each kept as its bytes, but one that equals the known bytes as `None`.
#[derive(Drop)]
struct Tagged<'a> {
    known: &'a [u8],
    segments: Vec<Option<Text>>,
}

/// The segment that is kept for a payload: `None` for the known bytes, else a copy.
fn segment_of(alloc: Global, known: &[u8], payload: &[u8]) -> Result<Option<Text>, NoMemory>
    ensures { IfOk result (λ segment. unwrap_or segment known.now ≡ payload.now) }
{
    if payload == known {
        return Ok(None);
    }
    Ok(Some(Text::from_slice(alloc, payload)?))
}

impl<'a> Tagged<'a> {
    fn new(alloc: Global, known: &'a [u8]) -> Tagged<'a>
        ensures { result.segments.items ≡ [] }
    {
        Tagged {
            known,
            segments: Vec::new(alloc),
        }
    }
}

impl<'a> Visitor for Tagged<'a> {
    ghost use Rattle.std.specs.Prelude.{map, ◌∷◌, []};

    ghost taken = { λ tagged. map (λ segment. unwrap_or segment tagged.known.now) tagged.segments.items };

    ghost borrows = { λ tagged. tagged.known.now ∷ [] };

    fn take(&mut self, alloc: Global, payload: &[u8]) -> Result<(), NoMemory> {
        let segment = segment_of(alloc, self.known, payload)?;
        self.segments.push(segment)?;
        Ok(())
    }
}

/// Whether a segment is `None` as wanted, or has the bytes of the payload of this number and length.
fn is_segment(segment: &Option<Text>, number: usize, length: Option<u32>) -> bool {
    match (segment, length) {
        (None, None) => true,
        (Some(bytes), Some(length)) => is_payload(bytes.bytes(), number, length),
        _ => false,
    }
}

/// The same of all payloads.
fn are_segments(segments: &[Option<Text>], lengths: &[Option<u32>]) -> bool {
    if segments.len() != lengths.len() {
        return false;
    }
    for number in 0..lengths.len() {
        if !is_segment(&segments[number], number, lengths[number]) {
            return false;
        }
    }
    true
}

/// Whether these segments are kept for the payloads of a disk, with these known bytes.
fn keeps(
    alloc: Global,
    disk: &mut MemDisk,
    known: &[u8],
    kept: &[Option<u32>],
) -> Result<bool, StoreFault> {
    let Opened { payloads, .. } = Journal::from_disk(alloc, disk, 1, Tagged::new(alloc, known))?;
    Ok(are_segments(&payloads.segments, kept))
}

/// The same of a disk with these bytes as side A.
fn keeps_on(
    alloc: Global,
    side: &[u8],
    known: &[u8],
    kept: &[Option<u32>],
) -> Result<bool, StoreFault> {
    let mut disk = empty_disk(alloc, &[])?;
    write_durably(&mut disk, Side::A, 0, side)?;
    keeps(alloc, &mut disk, known, kept)
}

/// The lengths of a side's payloads, the number of the known one, and for each payload `None` if it is known, else its length. The
/// window has 131,072 bytes.
#[derive(Clone, Copy)]
struct Row {
    lengths: [u32; 3],
    known: usize,
    kept: [Option<u32>; 3],
}

static ROWS: [Row; 6] = [
    Row {
        lengths: [2, 3, 4],
        known: 1,
        kept: [Some(2), None, Some(4)],
    },
    Row {
        lengths: [0, 131_061, 0],
        known: 2,
        kept: [None, Some(131_061), None],
    },
    Row {
        lengths: [131_072, 3, 9],
        known: 0,
        kept: [None, Some(3), Some(9)],
    },
    Row {
        lengths: [131_073, 131_073, 131_072],
        known: 1,
        kept: [Some(131_073), None, Some(131_072)],
    },
    Row {
        lengths: [100_000, 100_000, 100_000],
        known: 2,
        kept: [Some(100_000), Some(100_000), None],
    },
    Row {
        lengths: [7, 1_000_000, 7],
        known: 1,
        kept: [Some(7), None, Some(7)],
    },
];

/// Whether a row is so.
fn is_kept(alloc: Global, row: &Row) -> Result<bool, StoreFault> {
    let side = side_of(alloc, &row.lengths, 0)?;
    let mut known = Vec::new(alloc);
    if row.known < 3 {
        put_bytes(&mut known, row.known, row.lengths[row.known])?;
    }
    keeps_on(alloc, &side, &known, &row.kept)
}

#[test]
fn a_visitor_keeps_what_it_wants_of_each_payload(rt: HostRuntime) -> Result<(), Fail> {
    for row in ROWS {
        assert!(rt; is_kept(rt.alloc(), &row)?);
    }
    Ok(())
}

/// What opening a disk finds: `n` is the newer form, whose one payload is the known one `cd`, and `o` is `ab` of the older one.
fn find(alloc: Global, disk: &mut MemDisk) -> Result<u8, StoreFault> {
    let for_newer = Tagged::new(alloc, b"cd");
    match Journal::found_in(alloc, disk, NEWER, OLDER, for_newer, Payloads::new(alloc))? {
        FoundForm::Newer(opened) if are_segments(&opened.payloads.segments, &[None]) => Ok(b'n'),
        FoundForm::Older(opened) if are(&opened.payloads, b'a') => Ok(b'o'),
        _ => Ok(b'?'),
    }
}

/// Whether opening a disk of two sides finds this.
fn finds(alloc: Global, a: &[u8], b: &[u8], letter: u8) -> Result<bool, StoreFault> {
    let mut disk = empty_disk(alloc, &[])?;
    write_durably(&mut disk, Side::A, 0, a)?;
    write_durably(&mut disk, Side::B, 0, b)?;
    Ok(find(alloc, &mut disk)? == letter)
}

#[test]
fn the_visitor_for_the_form_that_counts_takes_its_payloads(rt: HostRuntime) -> Result<(), Fail> {
    assert!(rt; finds(rt.alloc(), &OLD_AB, &[], b'o')?);
    assert!(rt; finds(rt.alloc(), &NEW_CD, &[], b'n')?);
    assert!(rt; finds(rt.alloc(), &OLD_AB, &NEW_CD, b'n')?);
    Ok(())
}
