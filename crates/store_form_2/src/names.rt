//! Whether the dependencies of a new node have names of their own.

ghost use Rattle.std.specs.Prelude.{◌≡◌, ◌≢◌, ◌↔◌, ◌<◌, ◌≤◌, length, map, All, AllPairs, Contains, IsTrue, IfOk};
ghost use Rattle.store_form_2.specs.Rows.{IsTable};
ghost use Rattle.store_form_2.specs.Fits.{name_at};

use crate::NodeTable;
use base::NoMemory;
use base_collections::NumberSet;

/// Whether no two of these nodes have one name, and none has the name of a number; the set is left with their names where
/// they do.
pub fn have_own_names(
    names: &mut NumberSet,
    table: &NodeTable,
    deps: &[usize],
    name: usize,
) -> Result<bool, NoMemory>
    requires names { length table.now.names ≤ names.old.size }
    requires name { name < length table.now.names }
    requires there { All (λ dep. dep < length table.now.nodes) deps.now }
    ensures { IfOk result
        (λ own.
        IsTrue own
        ↔ (AllPairs (λ a b. a ≢ b) (map (name_at table.now.rows) deps.now)
        × (¬ Contains (map (name_at table.now.rows) deps.now) name))) }
{
    names.clear();
    for dep in deps {
        let is_new = names.add(table.row(*dep).name)?;
        if !is_new {
            return Ok(false);
        }
    }
    Ok(names.index_of(name).is_none())
}
