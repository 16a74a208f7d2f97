//! Names of libraries, numbered.

ghost use Rattle.std.specs.Prelude.{◌≡◌, ◌<◌, ◌∷◌, ◌++◌, [], Contains, IfOk, IfSome, IfNone, OnOk, Some, length, map, position};
ghost use Rattle.std.specs.List.{flat_map};
ghost use Rattle.std.specs.Str.{bytes_eq};
ghost use Rattle.vhdl_outline.specs.Outlines.{file_scopes};
ghost use Rattle.vhdl_scope.specs.Names.{HasAll, implicit, keys_of, number_of};

use crate::wants::WORK;
use base::{NoMemory, Text};
use std::alloc::Global;
use std::collections::BTreeMap;
use std::marker::Model;
use vhdl_outline::{FileOutline, UnitScope};

/// The second library that each unit sees without a clause.
pub static STD: [u8; 3] = *b"std";

/// So few names are looked through one after the other: that two differ shows sooner than their order.
const FEW: usize = 8;

/// Names, each once, numbered from 0 in the order in which they were met. Contracts see them.
///
/// Above a few they are found by an ordered map: looking names up takes n log n comparisons in all, whatever they are.
#[derive(Drop)]
pub struct Names {
    keys: Vec<Vec<u8>>,
    numbers: BTreeMap<Vec<u8>, usize>,
}

impl Model for Names {
    ghost use Rattle.std.specs.Prelude.{map};
    ghost use Rattle.std.specs.BTreeMap.{get_by};
    ghost use Rattle.std.specs.Cmp.Lexicographic.{slice_cmp};
    ghost use Rattle.std.specs.Ordering.{nat_cmp};
    ghost use Rattle.vhdl_scope.specs.Names.{AreFound, NameSet};

    ghost Value = { NameSet };

    ghost view = { λ a. record { keys = map (λ key. key.items) a.keys.items } };

    ghost invariant = { λ a. AreFound (λ name. get_by (λ key. slice_cmp nat_cmp name key.items) a.numbers)
        (map (λ key. key.items) a.keys.items) };
}

impl Names {
    /// No name, which takes no memory.
    pub fn new(alloc: Global) -> Names
        ensures { keys_of result ≡ [] }
    {
        Names {
            keys: Vec::new(alloc),
            numbers: BTreeMap::new(alloc),
        }
    }

    /// The number of names.
    pub fn len(&self) -> usize
        ensures { result ≡ length (keys_of self.now) }
    {
        self.keys.len()
    }

    fn keys(&self) -> &[Vec<u8>]
        ensures { map (λ key. key.items) result.now ≡ keys_of self.now }
    {
        self.keys.as_slice()
    }

    /// The number of a name, if it has one, whatever the names are.
    fn number(&self, name: &[u8]) -> Option<usize>
        ensures { result ≡ position (bytes_eq name.now) (keys_of self.now) }
    {
        match self.numbers.get(name) {
            Some(number) => Some(*number),
            None => None,
        }
    }

    /// Gives a name that has no number the next one.
    fn put(&mut self, alloc: Global, name: &[u8]) -> Result<(), NoMemory>
        requires { ¬ Contains (keys_of self.old) name.now }
        ensures { OnOk result (keys_of self.new ≡ keys_of self.old ++ name.now ∷ []) }
    {
        let key = Vec::from_slice(alloc, name)?;
        let copy = Vec::from_slice(alloc, name)?;
        let number = self.keys.len();
        self.keys.reserve(1)?;
        self.numbers.insert(copy, number)?;
        self.keys.push_reserved(key);
        Ok(())
    }
}

/// The number of a name among few, if it has one.
fn find_among(names: &[Vec<u8>], name: &[u8]) -> Option<usize>
    ensures found { IfSome result (λ number.
        (number ≡ number_of (map (λ key. key.items) names.now) name.now)
        × (number < length (map (λ key. key.items) names.now))) }
    ensures none { IfNone result (Contains (map (λ key. key.items) names.now) name.now → ⊥) }
{
    for at in 0..names.len() {
        if name == names[at].as_slice() {
            return Some(at);
        }
    }
    None
}

/// The number of a name, if it has one.
pub fn find(names: &Names, name: &[u8]) -> Option<usize>
    ensures found { IfSome result (λ number. (number ≡ number_of (keys_of names.now) name.now)
        × (number < length (keys_of names.now))) }
    ensures none { IfNone result (Contains (keys_of names.now) name.now → ⊥) }
{
    if names.len() <= FEW {
        find_among(names.keys(), name)
    } else {
        names.number(name)
    }
}

/// Numbers a name, unless it has a number.
fn add(alloc: Global, names: &mut Names, name: &[u8]) -> Result<(), NoMemory>
    ensures { OnOk result (HasAll (name.now ∷ []) (keys_of names.old) (keys_of names.new)) }
{
    match find(names, name) {
        Some(_number) => Ok(()),
        None => {
            names.put(alloc, name)?;
            Ok(())
        }
    }
}

/// Numbers each name that has no number yet.
fn add_all(alloc: Global, names: &mut Names, more: &[Text]) -> Result<(), NoMemory>
    ensures { OnOk result (HasAll more.now (keys_of names.old) (keys_of names.new)) }
{
    for name in more {
        add(alloc, names, name.bytes())?;
    }
    Ok(())
}

/// Numbers each name of the library clauses of units that has no number yet.
fn add_units(alloc: Global, names: &mut Names, units: &[UnitScope]) -> Result<(), NoMemory>
    ensures { OnOk result (HasAll (flat_map (λ unit. unit.names) units.now)
        (keys_of names.old) (keys_of names.new)) }
{
    for unit in units {
        add_all(alloc, names, unit.names.as_slice())?;
    }
    Ok(())
}

/// Numbers the names of the library clauses of all files, and `work` and `std`.
pub fn names_of(alloc: Global, files: &[FileOutline]) -> Result<Names, NoMemory>
    ensures { IfOk result (λ names. HasAll
        (implicit ++ flat_map (λ unit. unit.names) (file_scopes files.now)) [] (keys_of names)) }
{
    let mut names = Names::new(alloc);
    add(alloc, &mut names, WORK.as_slice())?;
    add(alloc, &mut names, STD.as_slice())?;
    for file in files {
        add_units(alloc, &mut names, file.scopes.as_slice())?;
    }
    Ok(names)
}
