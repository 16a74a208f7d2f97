//! A product as a row of numbers.

ghost use Rattle.std.specs.Prelude.{◌≡◌, ◌++◌};
ghost use Rattle.std.specs.Hash as fed;
ghost use Rattle.std.specs.Cmp.Rules.{comparing};
ghost use Rattle.std.proofs.Common.{rules};
ghost use Rattle.store_table.specs.ProductRows.{is_same_product_row, product_sample, product_alike, product_rows_decide};

use base_collections::NumberedKey;
use std::hash::{Hash, Hasher};

/// A product: the numbers of its name and of its artefact, which is a text.
#[derive(Clone, Copy)]
pub struct ProductRow {
    pub name: usize,
    pub text: usize,
}

impl PartialEq for ProductRow {
    ghost eq = { is_same_product_row };

    ghost laws = { Prim.search (comparing, rules) };

    fn eq(&self, other: &ProductRow) -> bool {
        self.name == other.name && self.text == other.text
    }
}

impl Eq for ProductRow {
    ghost laws = { Prim.search (comparing, rules) };
}

impl Hash for ProductRow {
    ghost hash_input = { product_sample };

    ghost respects_eq = { product_alike };

    fn hash<H: Hasher>(&self, state: &mut H) {
        self.name.hash(state);
        self.text.hash(state);
    }
}

impl NumberedKey for ProductRow {
    ghost decides = { product_rows_decide };
}
