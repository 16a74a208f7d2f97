//! Keys that are numbered and looked up, whether they are at their buckets or not.

ghost use Rattle.std.proofs.Common.{rules};

use base::NoMemory;
use base_collections::{Key, KeyMap, KeyNumbers};
use std::alloc::Global;
use std::test::Fail;

/// A key that is a number.
#[derive(Clone, Copy, PartialEq, Eq, PartialOrd, Ord, Hash)]
struct Number(u32);

impl Key for Number {
    ghost decides = { Prim.search (rules) };

    fn copy(&self, _alloc: Global) -> Result<Number, NoMemory> {
        Ok(*self)
    }
}

/// A table for one key has four buckets, which is too few for these.
#[test]
fn keys_that_share_buckets_are_told_apart(rt: HostRuntime) -> Result<(), Fail> {
    let mut keys = KeyNumbers::with_room(rt.alloc(), 1)?;
    for key in [900u32, 64631, 20, 31, 7, 8, 64631] {
        keys.add(Number(key))?;
    }
    assert!(rt; keys.len() == 6);
    assert!(rt; keys.number(&Number(900)) == Some(0) && keys.number(&Number(64631)) == Some(1));
    assert!(rt; keys.number(&Number(8)) == Some(5) && keys.number(&Number(87700)) == None);
    Ok(())
}

#[test]
fn a_value_is_replaced(rt: HostRuntime) -> Result<(), Fail> {
    let mut map = KeyMap::new(rt.alloc());
    assert!(rt; map.insert(Number(900), 3u8)? == None);
    assert!(rt; map.insert(Number(64631), 1u8)? == None);
    assert!(rt; map.insert(Number(64631), 2u8)? == Some(1));
    assert!(rt; map.get(&Number(64631)) == Some(2) && map.get(&Number(87700)) == None);
    Ok(())
}
