//! Test benches, their cases, and the faults of benches.

use base::{Items, Text};

/// A test case of a bench: its name, and the file in which it is, with the first byte and the number of bytes of the
/// token that names it.
#[derive(Debug, Drop)]
pub struct TestCase {
    pub name: Text,
    pub file: u32,
    pub at: u32,
    pub length: u32,
}

pub type CaseList = Items<TestCase>;

/// A test bench: an entity with its one architecture, in the file of the entity.
#[derive(Drop)]
pub struct Bench {
    pub library: Text,
    pub name: Text,
    pub architecture: Text,
    pub file: u32,
    pub cases: CaseList,
    /// Whether the bench names no case itself; it then has the one case `all`.
    pub whole: bool,
    /// Whether all cases run in one simulation.
    pub same_sim: bool,
}

pub type Tests = Items<Bench>;

/// A fault in the benches of a project.
#[derive(Debug, Drop)]
pub enum TestFault {
    /// The bench has more than one architecture.
    TwoArchitectures { bench: Text },
    /// The bench has no architecture.
    NoArchitecture { bench: Text },
    /// Two cases have this full name.
    DuplicateTest { name: Text },
    /// The bench has a case with an invalid name.
    BadName { bench: Text },
}
