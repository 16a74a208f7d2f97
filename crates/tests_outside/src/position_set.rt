//! Sets of positions at both ends of words.

use base::{NoMemory, Positions};
use base_collections::PositionSet;
use std::alloc::Global;
use std::process::Abort;
use std::test::Fail;

/// The positions of a set that was filled, joined with another, and had one taken out.
fn positions_of(alloc: Global, end: u32) -> Result<Positions, NoMemory> {
    let mut set = PositionSet::new();
    let mut other = PositionSet::new();
    set.insert(0);
    set.insert(63);
    set.insert(64);
    other.insert(63);
    other.insert(4095);
    other.insert(127);
    set.add_all(&other);
    set.remove(64);
    set.positions_below(alloc, end)
}

#[test]
fn positions_rise(rt: HostRuntime) -> Result<(), Fail> {
    let all = positions_of(rt.alloc(), 5000)?;
    assert!(rt; all.as_slice() == [0u32, 63, 127, 4095].as_slice());
    let few = positions_of(rt.alloc(), 127)?;
    assert!(rt; few.as_slice() == [0u32, 63].as_slice());
    Ok(())
}
