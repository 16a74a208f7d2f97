//! References of design units to names in libraries, and the numbers of units in a project.

use crate::{Items, MaybeText, Text};

/// A reference of a design unit to a name in a library (IEEE Std 1076-2008, clauses 12.3 and 13.2): `L.U`, or the owner
/// of a secondary unit. `architecture` is the one that is named with an entity. A strict reference can't mean anything
/// but a design unit. `at` is the token number of `L`, or of the unit's keyword.
#[derive(Debug, Drop)]
pub struct Ref {
    pub library: Text,
    pub name: Text,
    pub architecture: MaybeText,
    pub strict: bool,
    pub at: u32,
}

pub type RefList = Items<Ref>;

/// A design unit of a project: the position of its file, and its number among the units of that file.
#[derive(Clone, Copy, Debug, PartialEq, Eq)]
pub struct UnitId {
    pub file: u32,
    pub unit: u32,
}
