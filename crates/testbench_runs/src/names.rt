//! A set of names of cases.

ghost use Rattle.std.specs.Prelude.{◌≡◌, ◌||◌, [], Bool, List, ℕ, IfOk, OnOk};
ghost use Rattle.std.specs.Str.{bytes_eq};
ghost use Rattle.testbench_runs.specs.Verdicts.{HasAll, has_case};

use base::{NoMemory, TextList};
use std::alloc::Global;
use std::collections::BTreeSet;
use std::marker::Model;

/// A set of borrowed names, as a tree of their bytes. Contracts see a list of the names, in an order that isn't
/// specified. They only state which names the list has.
#[derive(Drop)]
pub struct Names<'a> {
    set: BTreeSet<&'a [u8]>,
}

impl<'a> Model for Names<'a> {
    ghost use Rattle.std.specs.Prelude.{List, ℕ, map};

    ghost Value = { List (List ℕ) };

    ghost view = { λ a. map (λ key. key.now) a.set.keys };
}

impl<'a> Names<'a> {
    /// No name, which takes no memory.
    pub fn new(alloc: Global) -> Names<'a>
        ensures { result ≡ [] }
    {
        Names {
            set: BTreeSet::new(alloc),
        }
    }

    /// Whether a name is in the set.
    pub fn has(&self, name: &[u8]) -> bool
        ensures { result ≡ has_case self.now name.now }
    {
        self.set.contains(name)
    }

    /// Adds a name.
    pub fn add(&mut self, name: &'a [u8]) -> Result<(), NoMemory>
        ensures { OnOk result ((other : List ℕ) →
            has_case self.new other ≡ (has_case self.old other || bytes_eq name.now other)) }
    {
        self.set.insert(name)?;
        Ok(())
    }
}

/// The names of a list as a set.
pub fn set_of<'a>(alloc: Global, names: &'a TextList) -> Result<Names<'a>, NoMemory>
    ensures { IfOk result (λ set. HasAll set names.now) }
{
    let mut set = Names::new(alloc);
    for name in names.as_slice() {
        set.add(name.bytes())?;
    }
    Ok(set)
}
