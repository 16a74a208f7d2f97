//! Steps of paths.

ghost use Rattle.std.specs.Prelude.{◌≡◌};
ghost use Rattle.std.specs.Cmp.Rules.{comparing};
ghost use Rattle.std.proofs.Common.{rules};
ghost use Rattle.testbench_scan.specs.Steps.{is_same_step, step_alike, step_sample, steps_decide};

use base_collections::NumberedKey;
use std::hash::{Hash, Hasher};

/// A step of a path: from an index by a byte. The index after a step is its number and one; 0 is where all paths begin.
#[derive(Clone, Copy)]
pub struct Step {
    pub from: usize,
    pub byte: u8,
}

impl PartialEq for Step {
    ghost eq = { is_same_step };

    ghost laws = { Prim.search (comparing, rules) };

    fn eq(&self, other: &Step) -> bool {
        self.from == other.from && self.byte == other.byte
    }
}

impl Eq for Step {
    ghost laws = { Prim.search (comparing, rules) };
}

impl Hash for Step {
    ghost hash_input = { step_sample };

    ghost respects_eq = { step_alike };

    fn hash<H: Hasher>(&self, state: &mut H) {
        self.from.hash(state);
        self.byte.hash(state);
    }
}

impl NumberedKey for Step {
    ghost decides = { steps_decide };
}
