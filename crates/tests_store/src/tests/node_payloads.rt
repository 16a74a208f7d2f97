//! Tests of payloads of the earlier form, byte for byte.

use base_bytes::{ByteRange, TextRange};
use std::test::Fail;
use store_form_2::{PayloadSpans, read_payload};

/// The file `a.vhd` of library `lib`, compiled by `cc`, with the new text `x` and the artefact `y`; and one byte more.
const NEW: [u8; 43] = [
    1, // a new node and its record
    3, 0, 0, 0, b'l', b'i', b'b', //
    5, 0, 0, 0, b'a', b'.', b'v', b'h', b'd', //
    1, 0, 0, 0, 2, 0, 0, 0, b'c', b'c', //
    1, 1, 0, 0, 0, b'x', // a new text
    0, 0, 0, 0, // no dependency
    1, 0, 0, 0, b'y', //
    0,
];

/// Node 7 once more, with the artefact `z`.
const AGAIN: [u8; 14] = [0, 7, 0, 0, 0, 0, 0, 0, 0, 1, 0, 0, 0, b'z'];

/// Whether a span of bytes has these bytes.
fn has(bytes: &[u8], span: ByteRange, expected: &[u8]) -> bool {
    match bytes.get(span.start..) {
        Some(rest) => rest.starts_with(expected) && span.count == expected.len(),
        None => false,
    }
}

#[test]
fn a_new_node_is_read(rt: HostRuntime) -> Result<(), Fail> {
    let bytes = &NEW[..42];
    let Some(PayloadSpans::OfDraft(draft, artefact)) = read_payload(bytes) else {
        return Err(Fail::from("the bytes are a new node and its record"));
    };
    assert!(rt; has(bytes, draft.library, b"lib") && has(bytes, draft.path, b"a.vhd"));
    assert!(rt; matches!(draft.source, TextRange::Full(text) if has(bytes, text, b"x")));
    assert!(rt; has(bytes, draft.deps, &[0, 0, 0, 0]) && has(bytes, artefact, b"y"));
    Ok(())
}

#[test]
fn a_node_alone_is_read(rt: HostRuntime) -> Result<(), Fail> {
    let mut bytes = NEW;
    bytes[0] = 2;
    assert!(rt;
        matches!(
            read_payload(&bytes[..37]),
            Some(PayloadSpans::DraftAlone(_draft))
        )
    );
    assert!(rt; read_payload(&bytes[..42]).is_none());
    Ok(())
}

#[test]
fn a_record_of_a_node_is_read(rt: HostRuntime) -> Result<(), Fail> {
    let Some(PayloadSpans::OfNode(number, artefact)) = read_payload(&AGAIN) else {
        return Err(Fail::from("the bytes are a record of a node"));
    };
    assert!(rt; number == 7 && has(&AGAIN, artefact, b"z"));
    Ok(())
}

#[test]
fn other_bytes_are_no_payload(rt: HostRuntime) -> Result<(), Fail> {
    for count in [0, 1, 41, 43] {
        assert!(rt; read_payload(&NEW[..count]).is_none());
    }
    Ok(())
}
