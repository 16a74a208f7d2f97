//! A list of built files as rows of numbers.

ghost use Rattle.std.specs.Cmp.{partial_equiv_from_equiv};
ghost use Rattle.passes_table.specs.ListRows.{is_same_list_row, list_alike, list_rows_decide, list_rows_equal, list_sample};

use crate::fingerprints::rows_fingerprint;
use base::{Items, NoMemory};
use base_collections::NumberedKey;
use std::alloc::Global;
use std::hash::{Hash, Hasher};
use store_table::ProductRow;

/// A list of built files: for each the numbers of its name and of its artefact, which is a text. As names and texts have one number
/// each, two lists are equal exactly where their rows are.
#[derive(Drop)]
pub struct ListRow {
    pub files: Items<ProductRow>,
}

impl ListRow {
    ghost use Rattle.std.specs.Prelude.{◌≡◌, IfOk};

    /// The same rows, in memory of their own.
    pub fn copy(&self, alloc: Global) -> Result<ListRow, NoMemory>
        ensures { IfOk result (λ row. row ≡ self.now) }
    {
        let files = Vec::from_slice(alloc, self.files.as_slice())?;
        Ok(ListRow {
            files: Items::from_vec(files),
        })
    }
}

impl PartialEq for ListRow {
    ghost eq = { is_same_list_row };

    ghost laws = { partial_equiv_from_equiv list_rows_equal };

    fn eq(&self, other: &ListRow) -> bool {
        self.files.as_slice() == other.files.as_slice()
    }
}

impl Eq for ListRow {
    ghost laws = { list_rows_equal };
}

/// One number that is made of all rows is handed over.
impl Hash for ListRow {
    ghost hash_input = { list_sample };

    ghost respects_eq = { list_alike };

    fn hash<H: Hasher>(&self, state: &mut H) {
        rows_fingerprint(self.files.as_slice()).hash(state);
    }
}

impl NumberedKey for ListRow {
    ghost decides = { list_rows_decide };
}
