//! Tests of payloads byte for byte.

use base_bytes::{TextRange, bytes_in, numbers_of};
use std::test::Fail;
use store_codec::{PayloadRanges, read_request_payload};

/// The file `b.vhd` of library `lib`, compiled by `cc`, with the text of number 0, over product 0, and the artefact `z`;
/// and one byte more.
const RECORD: [u8; 60] = [
    1, // a record
    3, 0, 0, 0, b'l', b'i', b'b', //
    5, 0, 0, 0, b'b', b'.', b'v', b'h', b'd', //
    1, 0, 0, 0, 2, 0, 0, 0, b'c', b'c', //
    0, 0, 0, 0, 0, 0, 0, 0, 0, // text 0
    1, 0, 0, 0, 0, 0, 0, 0, 0, 0, 0, 0, // product 0
    1, 1, 0, 0, 0, b'z', // a new text
    0, 0, 0, 0, 0, 0,
];

/// The product of `a.vhd` of library `lib`, with the new artefact `y`.
const PRODUCT: [u8; 23] = [
    0, // a product
    3, 0, 0, 0, b'l', b'i', b'b', //
    5, 0, 0, 0, b'a', b'.', b'v', b'h', b'd', //
    1, 1, 0, 0, 0, b'y', // a new text
];

#[test]
fn a_record_is_read(rt: HostRuntime) -> Result<(), Fail> {
    let bytes = &RECORD[..54];
    let Some(PayloadRanges::OfRequest(record)) = read_request_payload(bytes) else {
        return Err(Fail::from("the bytes are a record"));
    };
    assert!(rt; bytes_in(bytes, record.path) == b"b.vhd".as_slice());
    assert!(rt; matches!(record.source, TextRange::Known(0)));
    let deps = numbers_of(bytes, record.deps);
    assert!(rt; deps.len() == 1 && deps.get(0) == 0);
    assert!(rt;
        matches!(record.artefact, TextRange::Full(text) if bytes_in(bytes, text) == b"z".as_slice())
    );
    Ok(())
}

#[test]
fn a_product_is_read(rt: HostRuntime) -> Result<(), Fail> {
    let Some(PayloadRanges::OfProduct(product)) = read_request_payload(&PRODUCT) else {
        return Err(Fail::from("the bytes are a product"));
    };
    assert!(rt; bytes_in(&PRODUCT, product.library) == b"lib".as_slice());
    Ok(())
}

#[test]
fn other_bytes_are_no_payload(rt: HostRuntime) -> Result<(), Fail> {
    for count in [0, 1, 47, 48, 53, 55] {
        assert!(rt; read_request_payload(&RECORD[..count]).is_none());
    }
    for count in [0, 1, 17, 22] {
        assert!(rt; read_request_payload(&PRODUCT[..count]).is_none());
    }
    Ok(())
}
