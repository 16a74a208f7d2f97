//! Tests of the bytes of a record, byte for byte.

use std::test::Fail;
use tests_graphs::read_record;

/// The file `a.vhd` of library `lib`, compiled by `cc`, with the text `x` and the artefact `y`; and one byte more.
const BYTES: [u8; 45] = [
    1, 0, 0, 0, // one file
    3, 0, 0, 0, b'l', b'i', b'b', //
    5, 0, 0, 0, b'a', b'.', b'v', b'h', b'd', //
    1, 0, 0, 0, 2, 0, 0, 0, b'c', b'c', //
    1, 0, 0, 0, b'x', //
    0, 0, 0, 0, // no dependency
    1, 0, 0, 0, b'y', //
    0,
];

#[test]
fn a_record_is_read(rt: HostRuntime) -> Result<(), Fail> {
    let record = read_record(rt.alloc(), &BYTES[..44])?.ok_or("the bytes are a record")?;
    let entries = record.view.as_slice();
    assert!(rt; entries.len() == 1);
    for entry in entries {
        assert!(rt; entry.name.library.bytes() == b"lib".as_slice());
        assert!(rt; entry.name.path.bytes() == b"a.vhd".as_slice());
        assert!(rt; entry.text.bytes() == b"x".as_slice());
        assert!(rt; entry.deps.is_empty());
    }
    assert!(rt; record.artefact.bytes() == b"y".as_slice());
    Ok(())
}

#[test]
fn other_bytes_are_no_record(rt: HostRuntime) -> Result<(), Fail> {
    for count in [0, 43, 45] {
        assert!(rt; read_record(rt.alloc(), &BYTES[..count])?.is_none());
    }
    Ok(())
}
