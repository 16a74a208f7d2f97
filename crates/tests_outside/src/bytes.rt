//! Tests of what no clause says: that writing and reading succeed.

use base_bytes::{ByteReader, ByteWriter};
use std::test::Fail;

/// A number, a long number, and the text `lib`, each with its low byte first.
const BYTES: [u8; 19] = [
    1, 2, 0, 0, 255, 0, 0, 0, 0, 0, 0, 128, 3, 0, 0, 0, b'l', b'i', b'b',
];

#[test]
fn fields_are_written(rt: HostRuntime) -> Result<(), Fail> {
    let mut writer = ByteWriter::new(rt.alloc());
    writer.u32(513)?;
    writer.u64(9_223_372_036_854_776_063)?;
    writer.text(b"lib")?;
    assert!(rt; writer.into_text().bytes() == BYTES.as_slice());
    Ok(())
}

#[test]
fn fields_are_read(rt: HostRuntime) {
    let mut reader = ByteReader::new(&BYTES);
    assert!(rt; matches!(reader.u32(), Some(513)));
    assert!(rt; matches!(reader.u64(), Some(9_223_372_036_854_776_063)));
    assert!(rt; reader.rest().len() == 7);
    assert!(rt; matches!(reader.text(), Some(b"lib")));
    assert!(rt; reader.is_at_end());
}

#[test]
fn a_text_that_is_cut_off_is_none(rt: HostRuntime) {
    let mut reader = ByteReader::new(&BYTES[12..18]);
    assert!(rt; reader.text().is_none());
}
