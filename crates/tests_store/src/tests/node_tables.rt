//! Tests of payloads of the earlier form, one after the other, byte for byte.

use base::NoMemory;
use std::alloc::Global;
use std::test::Fail;
use store_form_2::{ContentsLocations, Segments, contents_of};
use store_journal::Payloads;

/// The file `a.vhd` of library `lib`, compiled by `cc`, with the new text `x` and the artefact `y`.
const A: [u8; 42] = [
    1, 3, 0, 0, 0, b'l', b'i', b'b', 5, 0, 0, 0, b'a', b'.', b'v', b'h', b'd', //
    1, 0, 0, 0, 2, 0, 0, 0, b'c', b'c', //
    1, 1, 0, 0, 0, b'x', 0, 0, 0, 0, 1, 0, 0, 0, b'y',
];

/// Node 0 once more, with the artefact `z`.
const AGAIN: [u8; 14] = [0, 0, 0, 0, 0, 0, 0, 0, 0, 1, 0, 0, 0, b'z'];

/// The file `b.vhd` with text 0, which depends on node 0, with the artefact `z`.
const B: [u8; 53] = [
    1, 3, 0, 0, 0, b'l', b'i', b'b', 5, 0, 0, 0, b'b', b'.', b'v', b'h', b'd', //
    1, 0, 0, 0, 2, 0, 0, 0, b'c', b'c', //
    0, 0, 0, 0, 0, 0, 0, 0, 0, 1, 0, 0, 0, 0, 0, 0, 0, 0, 0, 0, 0, 1, 0, 0, 0, b'z',
];

fn push(alloc: Global, opened: &mut Payloads, bytes: &[u8]) -> Result<(), NoMemory> {
    if bytes.len() < 100 {
        opened.push(alloc, bytes)?;
    }
    Ok(())
}

/// Payloads of these bytes.
fn open_payloads(alloc: Global, first: &[u8], second: &[u8]) -> Result<Payloads, NoMemory> {
    let mut opened = Payloads::new(alloc);
    push(alloc, &mut opened, first)?;
    push(alloc, &mut opened, second)?;
    Ok(opened)
}

/// The numbers of texts, nodes and records, as one number of three digits.
fn digits(contents: &ContentsLocations) -> usize {
    let texts = contents.texts.locations.len();
    let nodes = contents.table.len();
    let records = contents.records.locations.len();
    if texts < 9 && nodes < 9 && records < 9 {
        texts * 100 + nodes * 10 + records
    } else {
        999
    }
}

/// The same of payloads.
fn count_records(alloc: Global, segments: &Segments) -> Result<usize, NoMemory> {
    let contents = contents_of(alloc, segments)?;
    Ok(digits(&contents))
}

fn shelved_of(alloc: Global, opened: Payloads) -> Result<usize, NoMemory> {
    let segments = Segments::of(opened);
    count_records(alloc, &segments)
}

/// The same of two payloads.
fn counts(alloc: Global, first: &[u8], second: &[u8]) -> Result<usize, NoMemory> {
    let opened = open_payloads(alloc, first, second)?;
    shelved_of(alloc, opened)
}

#[test]
fn two_nodes_have_one_text(rt: HostRuntime) -> Result<(), Fail> {
    assert!(rt; counts(rt.alloc(), &A, &B)? == 122);
    Ok(())
}

#[test]
fn a_node_has_two_records(rt: HostRuntime) -> Result<(), Fail> {
    assert!(rt; counts(rt.alloc(), &A, &AGAIN)? == 112);
    Ok(())
}

#[test]
fn a_node_alone_has_no_record(rt: HostRuntime) -> Result<(), Fail> {
    let mut bytes = A;
    bytes[0] = 2;
    assert!(rt; counts(rt.alloc(), &bytes[..37], &[])? == 110);
    assert!(rt; counts(rt.alloc(), &bytes[..37], &AGAIN)? == 111);
    Ok(())
}

#[test]
fn what_is_there_is_refused(rt: HostRuntime) -> Result<(), Fail> {
    assert!(rt; counts(rt.alloc(), &A, &A)? == 111);
    let mut bytes = A;
    bytes[12] = b'b';
    assert!(rt; counts(rt.alloc(), &A, &bytes)? == 111);
    Ok(())
}

#[test]
fn numbers_out_of_range_are_refused(rt: HostRuntime) -> Result<(), Fail> {
    assert!(rt; counts(rt.alloc(), &B, &AGAIN)? == 0);
    for at in [28, 40] {
        let mut bytes = B;
        bytes[at] = 1;
        assert!(rt; counts(rt.alloc(), &A, &bytes)? == 111);
    }
    Ok(())
}

#[test]
fn foreign_bytes_are_refused(rt: HostRuntime) -> Result<(), Fail> {
    for count in [0, 1, 26, 41] {
        assert!(rt; counts(rt.alloc(), &A, &A[..count])? == 111);
    }
    Ok(())
}
