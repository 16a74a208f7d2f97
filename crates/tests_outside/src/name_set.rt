//! Names that are added once and twice.

use base::{FileName, NoMemory, Text};
use base_collections::NameSet;
use std::alloc::Global;
use std::test::Fail;

fn name(alloc: Global, library: &[u8], path: &[u8]) -> Result<FileName, NoMemory> {
    Ok(FileName {
        library: Text::from_slice(alloc, library)?,
        path: Text::from_slice(alloc, path)?,
    })
}

#[test]
fn a_name_is_new_once(rt: HostRuntime) -> Result<(), Fail> {
    let alloc = rt.alloc();
    let mut set = NameSet::new(alloc);
    assert!(rt; set.add(&name(alloc, b"lib", b"a.vhd")?)?);
    assert!(rt; set.add(&name(alloc, b"lib", b"b.vhd")?)?);
    assert!(rt; set.add(&name(alloc, b"liba", b".vhd")?)?);
    assert!(rt; !set.add(&name(alloc, b"lib", b"a.vhd")?)?);
    Ok(())
}
