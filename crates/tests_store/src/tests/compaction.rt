//! Tests of what compaction keeps, byte for byte.

use crate::tests::loaded_payloads::{A, B, OTHER, open_payloads};
use base::NoMemory;
use std::alloc::Global;
use std::test::Fail;
use store::LoadedStore;
use store_journal::Payloads;

/// The product of `a.vhd` with the new artefact `y`.
const EARLIER: [u8; 23] = [
    0, 3, 0, 0, 0, b'l', b'i', b'b', 5, 0, 0, 0, b'a', b'.', b'v', b'h', b'd', //
    1, 1, 0, 0, 0, b'y',
];

/// The file `b.vhd` over product 0, with the new text `x` and the new artefact `z`.
const OVER_EARLIER: [u8; 51] = [
    1, 3, 0, 0, 0, b'l', b'i', b'b', 5, 0, 0, 0, b'b', b'.', b'v', b'h', b'd', //
    1, 0, 0, 0, 2, 0, 0, 0, b'c', b'c', //
    1, 1, 0, 0, 0, b'x', //
    1, 0, 0, 0, 0, 0, 0, 0, 0, 0, 0, 0, //
    1, 1, 0, 0, 0, b'z',
];

/// The payloads that compaction keeps.
fn kept_of(alloc: Global, held: &LoadedStore<'_>) -> Result<Payloads, NoMemory> {
    let plan = held.latest_plan(alloc)?;
    held.latest_payloads(alloc, &plan)
}

/// What compaction keeps of three payloads. This function alone owns what is held.
fn compact_payloads(alloc: Global, third: &[u8]) -> Result<Payloads, NoMemory> {
    let held = LoadedStore::of(alloc, open_payloads(alloc, &A, &B, third)?)?;
    kept_of(alloc, &held)
}

/// How many bytes compaction counts.
fn count_of(alloc: Global, held: &LoadedStore<'_>) -> Result<u64, NoMemory> {
    let plan = held.latest_plan(alloc)?;
    Ok(plan.len)
}

/// How many bytes compaction counts of three payloads.
fn count_compacted(alloc: Global, third: &[u8]) -> Result<u64, NoMemory> {
    let held = LoadedStore::of(alloc, open_payloads(alloc, &A, &B, third)?)?;
    count_of(alloc, &held)
}

/// Whether a payload has these bytes.
fn is_at(kept: &Payloads, at: u64, bytes: &[u8]) -> bool {
    if at < kept.len() {
        return kept.get(at) == bytes;
    }
    false
}

/// Whether compaction keeps these payloads and no others.
fn keeps(
    alloc: Global,
    third: &[u8],
    first_kept: &[u8],
    second_kept: &[u8],
    count: u64,
) -> Result<bool, NoMemory> {
    let kept = compact_payloads(alloc, third)?;
    if kept.len() != count {
        return Ok(false);
    }
    Ok(is_at(&kept, 0, first_kept) && is_at(&kept, 1, second_kept))
}

#[test]
fn latest_records_are_kept_as_they_are(rt: HostRuntime) -> Result<(), Fail> {
    assert!(rt; keeps(rt.alloc(), &[], &A, &B, 2)?);
    assert!(rt; count_compacted(rt.alloc(), &[])? == 107);
    Ok(())
}

#[test]
fn a_product_of_an_earlier_record_is_kept_alone(rt: HostRuntime) -> Result<(), Fail> {
    assert!(rt; keeps(rt.alloc(), &OTHER, &EARLIER, &OVER_EARLIER, 3)?);
    assert!(rt; is_at(&compact_payloads(rt.alloc(), &OTHER)?, 2, &OTHER));
    assert!(rt; count_compacted(rt.alloc(), &OTHER)? == 132);
    Ok(())
}
