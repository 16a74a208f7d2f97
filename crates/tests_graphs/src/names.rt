//! Whether the files of a record have names of their own.

ghost use Rattle.std.specs.Prelude.{◌≢◌, ◌↔◌, AllPairs, IsTrue, IfOk};

use base::{Entry, NoMemory};
use base_collections::NameSet;
use std::alloc::Global;

/// Whether no two files have one name.
pub fn are_distinct(alloc: Global, entries: &[Entry]) -> Result<bool, NoMemory>
    ensures { IfOk result
        (λ are. IsTrue are ↔ AllPairs (λ entry other. entry.name ≢ other.name) entries.now) }
{
    let mut seen = NameSet::new(alloc);
    for entry in entries {
        if !seen.add(&entry.name)? {
            return Ok(false);
        }
    }
    Ok(true)
}
