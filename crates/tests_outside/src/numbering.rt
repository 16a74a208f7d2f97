//! Tests of what no clause says: that adding and growing succeed.

use base_collections::NumberSet;
use std::test::Fail;

#[test]
fn numbers_are_added_once(rt: HostRuntime) -> Result<(), Fail> {
    let mut set = NumberSet::new(rt.alloc());
    set.grow()?;
    set.grow()?;
    assert!(rt; set.add(1)?);
    assert!(rt; !set.add(1)? && set.index_of(1) == Some(0));
    Ok(())
}
