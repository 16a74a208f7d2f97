//! What the design units of a project want of each other: names of units in a library, and who wants them.

ghost use Rattle.std.specs.Prelude.{◌≡◌, [], ◌∷◌};
ghost use Rattle.std.specs.Cmp.{partial_equiv_from_equiv, partial_order_from_agreeing_total};
ghost use Rattle.std.specs.Cmp.Rules.{hashing};
ghost use Rattle.std.specs.Ordering.{as_partial_cmp};
ghost use Rattle.std.proofs.Common.{refl, rules};
ghost use Rattle.vhdl_units.specs.KeyParts.{flags_cmp, libraries_cmp};
ghost use Rattle.vhdl_scope.specs.Groups.{group_parts, is_same_group};
ghost use Rattle.vhdl_scope.specs.GroupOrder.{group_cmp, group_ties, group_total, groups_alike, groups_decide};

use base::{NoMemory, Text};
use base_collections::Key;
use std::alloc::Global;
use std::cmp::Ordering;
use std::hash::{Hash, Hasher};
use vhdl_units::order_of_names;

/// The units of one name in one library: its context declarations, the architectures of one entity, which is their owner,
/// or its primary units of any kind.
#[derive(Drop)]
pub struct Group {
    pub context: bool,
    pub architecture: bool,
    pub library: Text,
    pub owner: Text,
    pub name: Text,
}

impl PartialEq for Group {
    ghost eq = { is_same_group };

    ghost laws = { partial_equiv_from_equiv groups_alike };

    fn eq(&self, other: &Group) -> bool {
        self.name.same(&other.name)
            && self.owner.same(&other.owner)
            && self.library.same(&other.library)
            && self.context == other.context
            && self.architecture == other.architecture
    }
}

impl Eq for Group {
    ghost laws = { groups_alike };
}

/// Each name is handed over whole.
impl Hash for Group {
    ghost hash_input = { λ a. a.library ∷ (a.owner ∷ (a.name ∷ [])) };

    ghost respects_eq = { Prim.search (hashing, rules) };

    fn hash<H: Hasher>(&self, state: &mut H) {
        state.write(self.library.bytes());
        state.write(self.owner.bytes());
        state.write(self.name.bytes());
    }
}

/// The order of groups by what they are of alone.
fn kind_order(one: &Group, other: &Group) -> Ordering
    ensures { result ≡ flags_cmp (group_parts one.now) (group_parts other.now) }
{
    match one.context.cmp(&other.context) {
        Ordering::Equal => one.architecture.cmp(&other.architecture),
        before => before,
    }
}

/// The order of groups by libraries, and then by what they are of.
fn order_of_libraries(one: &Group, other: &Group) -> Ordering
    ensures { result ≡ libraries_cmp (group_parts one.now) (group_parts other.now) }
{
    match order_of_names(one.library.bytes(), other.library.bytes()) {
        Ordering::Equal => kind_order(one, other),
        before => before,
    }
}

/// By name first, which most often tells two groups of one flag apart, and by no more than it takes.
impl Ord for Group {
    ghost cmp = { group_cmp };

    ghost total = { group_total };

    ghost matches_partial_cmp = { λ one other. refl };

    ghost matches_eq = { group_ties };

    fn cmp(&self, other: &Group) -> Ordering {
        match order_of_names(self.name.bytes(), other.name.bytes()) {
            Ordering::Equal => match order_of_names(self.owner.bytes(), other.owner.bytes()) {
                Ordering::Equal => order_of_libraries(self, other),
                before => before,
            },
            before => before,
        }
    }
}

impl PartialOrd for Group {
    ghost partial_cmp = { as_partial_cmp group_cmp };

    ghost laws = { partial_order_from_agreeing_total group_cmp group_total (λ one other. refl) group_ties };

    fn partial_cmp(&self, other: &Group) -> Option<Ordering> {
        Some(self.cmp(other))
    }
}

impl Key for Group {
    ghost decides = { groups_decide };

    fn copy(&self, alloc: Global) -> Result<Group, NoMemory> {
        Ok(Group {
            context: self.context,
            architecture: self.architecture,
            library: self.library.copy(alloc)?,
            owner: self.owner.copy(alloc)?,
            name: self.name.copy(alloc)?,
        })
    }
}

/// A group whose libraries a unit sees too, where it sees the library of the group: always, where that is its own.
#[derive(Drop)]
pub struct Want {
    pub own: bool,
    pub group: Group,
}
