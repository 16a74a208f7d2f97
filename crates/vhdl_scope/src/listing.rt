//! Whether a row has a name.

ghost use Rattle.std.specs.Prelude.{◌≡◌};
ghost use Rattle.std.specs.List.{list_any};
ghost use Rattle.std.specs.Str.{bytes_eq};
ghost use Rattle.vhdl_scope.specs.Names.{keys_of};
ghost use Rattle.vhdl_scope.specs.Tables.{row_names};

use crate::names::{self, Names};
use crate::row::Row;

/// Whether a row has a name.
pub fn sees_name(names: &Names, row: &Row, name: &[u8]) -> bool
    ensures { result ≡ list_any (bytes_eq name.now) (row_names (keys_of names.now) row.now) }
{
    match names::find(names, name) {
        Some(number) => row.has(number),
        None => false,
    }
}
