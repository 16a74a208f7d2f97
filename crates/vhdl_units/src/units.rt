//! The keys of primary units.

ghost use Rattle.std.specs.Prelude.{◌≡◌, [], ◌∷◌, IfOk};
ghost use Rattle.std.specs.Cmp.Rules.{comparing, hashing};
ghost use Rattle.std.specs.Cmp.{partial_order_from_agreeing_total};
ghost use Rattle.std.specs.Ordering.{as_partial_cmp};
ghost use Rattle.std.proofs.Common.{refl, rules};
ghost use Rattle.vhdl_units.specs.UnitKeys.{is_same_unit, unit_cmp, unit_key, unit_ties, unit_total, units_decide};

use crate::names::order_of_names;
use base::{NoMemory, Text};
use base_collections::Key;
use std::alloc::Global;
use std::cmp::Ordering;
use std::hash::{Hash, Hasher};

/// The key of a primary unit: its library and its simple name, each of any length. A user may give an empty name or an empty
/// library a meaning of its own.
#[derive(Drop)]
pub struct UnitKey {
    pub library: Text,
    pub name: Text,
}

impl PartialEq for UnitKey {
    ghost eq = { is_same_unit };

    ghost laws = { Prim.search (comparing, rules) };

    fn eq(&self, other: &UnitKey) -> bool {
        self.name.same(&other.name) && self.library.same(&other.library)
    }
}

impl Eq for UnitKey {
    ghost laws = { Prim.search (comparing, rules) };
}

/// Each part is handed over whole.
impl Hash for UnitKey {
    ghost hash_input = { λ a. a.library ∷ (a.name ∷ []) };

    ghost respects_eq = { Prim.search (hashing, rules) };

    fn hash<H: Hasher>(&self, state: &mut H) {
        state.write(self.library.bytes());
        state.write(self.name.bytes());
    }
}

/// Names come first, since few units share one: libraries are compared only where the names are the same.
impl Ord for UnitKey {
    ghost cmp = { unit_cmp };

    ghost total = { unit_total };

    ghost matches_partial_cmp = { λ one other. refl };

    ghost matches_eq = { unit_ties };

    fn cmp(&self, other: &UnitKey) -> Ordering {
        match order_of_names(self.name.bytes(), other.name.bytes()) {
            Ordering::Less => Ordering::Less,
            Ordering::Equal => order_of_names(self.library.bytes(), other.library.bytes()),
            Ordering::Greater => Ordering::Greater,
        }
    }
}

impl PartialOrd for UnitKey {
    ghost partial_cmp = { as_partial_cmp unit_cmp };

    ghost laws = { partial_order_from_agreeing_total unit_cmp unit_total (λ one other. refl) unit_ties };

    fn partial_cmp(&self, other: &UnitKey) -> Option<Ordering> {
        Some(self.cmp(other))
    }
}

impl Key for UnitKey {
    ghost decides = { units_decide };

    fn copy(&self, alloc: Global) -> Result<UnitKey, NoMemory> {
        unit_key(alloc, self.library.bytes(), self.name.bytes())
    }
}

/// The key of a primary unit of a library, in memory of its own.
pub fn unit_key(alloc: Global, library: &[u8], name: &[u8]) -> Result<UnitKey, NoMemory>
    ensures { IfOk result (λ key. key ≡ unit_key library.now name.now) }
{
    Ok(UnitKey {
        library: Text::from_slice(alloc, library)?,
        name: Text::from_slice(alloc, name)?,
    })
}
