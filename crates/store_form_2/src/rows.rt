//! A node as a row of numbers.

ghost use Rattle.std.specs.Prelude.{◌≡◌, ◌-◌, ◌++◌, length, slice_index};
ghost use Rattle.std.specs.Hash as fed;
ghost use Rattle.std.specs.Cmp.Rules.{comparing};
ghost use Rattle.std.proofs.Common.{rules};
ghost use Rattle.store_form_2.specs.Rows.{is_same_row, row_sample, row_alike, rows_decide, last_of};

use base::Items;
use base_collections::NumberedKey;
use std::hash::{Hash, Hasher};

/// A node: the numbers of its name, its command and its text, and those of all nodes that it depends on, in view order.
#[derive(Drop)]
pub struct Row {
    pub name: usize,
    pub command: usize,
    pub text: usize,
    pub deps: Items<usize>,
}

/// The last of some numbers, or 0.
fn last_of(numbers: &[usize]) -> usize
    ensures { result ≡ last_of numbers.now }
{
    match numbers {
        [.., last] => *last,
        [] => 0,
    }
}

impl PartialEq for Row {
    ghost eq = { is_same_row };

    ghost laws = { Prim.search (comparing, rules) };

    fn eq(&self, other: &Row) -> bool {
        self.name == other.name
            && self.command == other.command
            && self.text == other.text
            && self.deps.as_slice() == other.deps.as_slice()
    }
}

impl Eq for Row {
    ghost laws = { Prim.search (comparing, rules) };
}

/// Of the dependencies the last alone: it is seldom the same where others differ.
impl Hash for Row {
    ghost hash_input = { row_sample };

    ghost respects_eq = { row_alike };

    fn hash<H: Hasher>(&self, state: &mut H) {
        self.name.hash(state);
        self.text.hash(state);
        last_of(self.deps.as_slice()).hash(state);
    }
}

impl NumberedKey for Row {
    ghost decides = { rows_decide };
}
