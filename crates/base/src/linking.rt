//! Which files depend on which, their order, and what is found in linking them.

ghost use Rattle.std.specs.Prelude.{◌≡◌};
ghost use Rattle.base.specs.declared.linking.OrderFault.TheVariants.{NoMemory as OrderOutOfMemory};
ghost use Rattle.base.specs.declared.linking.LinkFault.TheVariants.{NoMemory as LinkOutOfMemory};

use crate::{FileName, Items, NoMemory, Positions, Text};
use std::alloc::{AllocError, AllocFailed};

/// Of each file of a project the positions of the files that it depends on itself, strictly rising, its own not among
/// them.
pub type Edges = Items<Positions>;

/// The positions of the files of a project in compile order, each once.
pub type Order = Positions;

/// Why files have no order.
#[derive(Drop)]
pub enum OrderFault {
    NoMemory,
    /// Each of these files depends on the next, and the last on the first.
    Cycle { files: Positions },
}

impl From<NoMemory> for OrderFault {
    ghost from_gives = { λ _ e. e ≡ OrderOutOfMemory };

    fn from(_: NoMemory) -> OrderFault {
        OrderFault::NoMemory
    }
}

impl From<AllocError> for OrderFault {
    ghost from_gives = { λ _ e. e ≡ OrderOutOfMemory };

    fn from(_: AllocError) -> OrderFault {
        OrderFault::NoMemory
    }
}

impl<T: Drop> From<AllocFailed<T>> for OrderFault {
    ghost from_gives = { λ _ e. e ≡ OrderOutOfMemory };

    fn from(_: AllocFailed<T>) -> OrderFault {
        OrderFault::NoMemory
    }
}

/// A `use` of a whole library, which gives no dependency: the position of the file, and the library.
#[derive(Debug, Drop)]
pub struct Warning {
    pub file: u32,
    pub library: Text,
}

pub type WarningList = Items<Warning>;

/// What depends on what in a project, and the warnings about it, in project order.
#[derive(Drop)]
pub struct Linked {
    pub edges: Edges,
    pub warnings: WarningList,
}

/// Why the files of a project can't be linked.
#[derive(Debug, Drop)]
pub enum LinkFault {
    NoMemory,
    /// Two units of one name: `L.U`, `L.E(A)` or `body L.P`.
    DuplicateUnit {
        unit: Text,
        first: FileName,
        second: FileName,
    },
    /// A file refers to a primary unit that its library doesn't have.
    MissingUnit {
        file: FileName,
        library: Text,
        unit: Text,
    },
    /// A file refers to an architecture that the entity doesn't have.
    MissingArchitecture {
        file: FileName,
        library: Text,
        entity: Text,
        architecture: Text,
    },
}

impl From<NoMemory> for LinkFault {
    ghost from_gives = { λ _ e. e ≡ LinkOutOfMemory };

    fn from(_: NoMemory) -> LinkFault {
        LinkFault::NoMemory
    }
}

impl From<AllocError> for LinkFault {
    ghost from_gives = { λ _ e. e ≡ LinkOutOfMemory };

    fn from(_: AllocError) -> LinkFault {
        LinkFault::NoMemory
    }
}

impl<T: Drop> From<AllocFailed<T>> for LinkFault {
    ghost from_gives = { λ _ e. e ≡ LinkOutOfMemory };

    fn from(_: AllocFailed<T>) -> LinkFault {
        LinkFault::NoMemory
    }
}
