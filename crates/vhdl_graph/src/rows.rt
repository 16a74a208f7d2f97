//! Rows of bits: the files that a file depends on.

ghost use Rattle.std.specs.Prelude.{◌≡◌, ◌<◌, ◌≤◌, ◌==◌, false, List, IfSome};
ghost use Rattle.std.specs.Option.{option_map_or};
ghost use Rattle.base_collections.specs.Maps.{get};
ghost use Rattle.base.specs.declared.project.ProjectFile.{ProjectFile};
ghost use Rattle.vhdl_spec.specs.Dependencies.{LinkUnit};
ghost use Rattle.vhdl_graph.specs.Indexes.{ArePositionsOfFiles, IsIndex};
ghost use Rattle.vhdl_graph.specs.Keys.{is_same_key};
ghost use Rattle.vhdl_graph.specs.Rows.{HasAdded, is_named_at};

use crate::index::{Index, UnitIndex, find_unit};
use crate::key::DesignUnitKey;
use base::FILE_LIMIT;
use base_collections::PositionSet;

/// Puts the file at an index in, if there is one.
fn put_index(row: &mut PositionSet, unit_index: Option<UnitIndex>)
    requires { IfSome unit_index (λ unit_index. unit_index.file < FILE_LIMIT) }
    ensures { HasAdded
        (λ at. option_map_or (λ unit_index. unit_index.file == at) unit_index false) row.old row.new }
{
    if let Some(unit_index) = unit_index {
        row.insert(unit_index.file);
    }
}

/// Puts the file of the unit of a name in, if there is one, by its index.
pub fn put_found(
    row: &mut PositionSet,
    _index: &Index,
    _key: &DesignUnitKey,
    unit_index: Option<UnitIndex>,
)
    requires indices { ArePositionsOfFiles FILE_LIMIT _index.now }
    requires unit_index { unit_index ≡ get is_same_key _index.now _key.now }
    ensures { (files : List ProjectFile) (units : List LinkUnit) → IsIndex files units _index.now →
        HasAdded (is_named_at units _key.now) row.old row.new }
{
    put_index(row, unit_index);
}

/// Puts the file of the unit of a name in, if there is one.
pub fn put_named(row: &mut PositionSet, index: &Index, key: &DesignUnitKey)
    requires { ArePositionsOfFiles FILE_LIMIT index.now }
    ensures { (files : List ProjectFile) (units : List LinkUnit) → IsIndex files units index.now →
        HasAdded (is_named_at units key.now) row.old row.new }
{
    put_found(row, index, key, find_unit(index, key));
}
