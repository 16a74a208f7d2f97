//! The keys of units and of libraries, by which they are found.

ghost use Rattle.std.specs.Prelude.{◌≡◌, [], IfOk, OnOk};
ghost use Rattle.vhdl_units.specs.UnitKeys.{unit_key};

use base::{NoMemory, Text};
use std::alloc::Global;
use std::mem::replace;
use vhdl_units::{UnitKey, unit_key};

/// The key of a library: that of an empty name in it.
pub(crate) fn library_key(alloc: Global, library: &Text) -> Result<UnitKey, NoMemory>
    ensures { IfOk result (λ key. key ≡ unit_key library.now []) }
{
    unit_key(alloc, library.bytes(), b"".as_slice())
}

/// Puts a library in the place of that of a key. Where it is the same the key is unchanged, and keeps its memory.
pub(crate) fn put_library(alloc: Global, key: &mut UnitKey, library: &Text) -> Result<(), NoMemory>
    ensures { OnOk result (key.new.library ≡ library.now) }
{
    if key.library.same(library) {
        return Ok(());
    }
    key.library = library.copy(alloc)?;
    Ok(())
}

/// Puts bytes in the place of a name, in its memory where that has room.
pub(crate) fn put_name(alloc: Global, key: &mut UnitKey, name: &[u8]) -> Result<(), NoMemory>
    ensures { OnOk result (key.new ≡ unit_key key.old.library name.now) }
{
    let mut room = replace(&mut key.name, Text::new(alloc)).into_vec();
    room.clear();
    room.extend_from_slice(name)?;
    key.name = Text::from_vec(room);
    Ok(())
}
