//! Tests of fingerprints.

use base_collections::{FingerprintIndex, fingerprint_of};
use std::test::Fail;

#[test]
fn a_middle_byte_changes_the_fingerprint(rt: HostRuntime) {
    let mut text = [b'x'; 4096];
    let before = fingerprint_of(&text);
    text[2184] = b'y';
    assert!(rt; fingerprint_of(&text) != before && fingerprint_of(b"ab") != fingerprint_of(b"ba"));
}

#[test]
fn numbers_are_found_by_fingerprint(rt: HostRuntime) -> Result<(), Fail> {
    let mut index = FingerprintIndex::new(rt.alloc());
    index.reserve()?;
    index.put(7);
    index.reserve()?;
    index.put(7);
    assert!(rt; index.last(7) == Some(1) && index.last(8).is_none());
    Ok(())
}
