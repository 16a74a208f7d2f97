//! Keys, each of which has one number.

ghost use Rattle.std.specs.Prelude.{◌≡◌, ◌≢◌, ◌<◌, ◌++◌, ◌∷◌, [], ℕ, length, AllPairs, Contains, slice_get, Some, IfOk, OnOk, OnErr};
ghost use Rattle.base_collections.specs.Numbers.{IsIndexOf, IsNumbered};
ghost use Rattle.base_collections.specs.NameLaws.{names_decide};

use base::{FileName, NoMemory};
use indexmap::IndexSet;
use std::alloc::Global;
use std::hash::Hash;
use std::marker::Model;

/// Keys that are equal only where they are the same.
pub trait NumberedKey: Eq + Hash + Drop {
    ghost use Rattle.std.specs.Prelude.{◌≡◌};
    ghost use Rattle.std.specs.Bool.{Decides};

    ghost decides: { (a b : Self) → Decides (Self.eq a b) (a ≡ b) };
}

/// Keys, each once, numbered from 0 in the order in which they came. Contracts see them, and whether there is room for
/// one more.
#[derive(Drop)]
pub struct Numbered<K: NumberedKey> {
    keys: IndexSet<K>,
}

impl<K: NumberedKey> Model for Numbered<K> {
    ghost use Rattle.indexmap.specs.IndexSet.{spare};
    ghost use Rattle.base_collections.specs.Numbers.{KeyList};

    ghost Value = { KeyList K };

    ghost view = { λ a. record { keys = a.keys.keys; room = spare a.keys } };
}

impl<K: NumberedKey> Numbered<K> {
    /// No key, which takes no memory.
    pub fn new(alloc: Global) -> Numbered<K>
        ensures { result.keys ≡ [] }
    {
        Numbered {
            keys: IndexSet::new(alloc),
        }
    }

    /// The number of keys. No two are the same.
    pub fn len(&self) -> usize
        ensures len { result ≡ length self.now.keys }
        ensures once { AllPairs (λ a b. a ≢ b) self.now.keys }
    {
        self.keys.len()
    }

    /// The number of a key, if it has one.
    pub fn number(&self, key: &K) -> Option<usize>
        ensures { IsIndexOf self.now.keys key.now result }
    {
        self.keys.get_index_of(key)
    }

    /// The key of a number.
    pub fn key(&self, number: usize) -> &K
        requires { number < length self.now.keys }
        ensures { slice_get self.now.keys number ≡ Some result.now }
    {
        &self.keys.as_slice()[number]
    }

    /// The number of a key. A new key is added at the end. After `NoMemory` the keys are unchanged.
    pub fn add(&mut self, key: K) -> Result<usize, NoMemory>
        ensures ok { IfOk result (λ number. IsNumbered key number self.old.keys self.new.keys) }
        ensures err { OnErr result (self.new.keys ≡ self.old.keys) }
        ensures once { AllPairs (λ a b. a ≢ b) self.new.keys }
    {
        let (number, _is_new) = self.keys.insert_full(key)?;
        Ok(number)
    }

    /// Makes room for one more key. The keys are unchanged.
    pub fn reserve(&mut self) -> Result<(), NoMemory>
        ensures same { self.new.keys ≡ self.old.keys }
        ensures room { OnOk result (0 < self.new.room) }
    {
        self.keys.reserve(1)?;
        Ok(())
    }

    /// Adds a key that has no number at the end. It takes no memory.
    pub fn put(&mut self, key: K)
        requires room { 0 < self.old.room }
        requires new { ¬ Contains self.old.keys key }
        ensures { self.new.keys ≡ self.old.keys ++ key ∷ [] }
    {
        match self.keys.insert(key) {
            Ok(_) => {}
            Err(_) => unreachable!(),
        }
    }

    /// Removes all keys.
    pub fn clear(&mut self)
        ensures { self.new.keys ≡ [] }
    {
        self.keys.clear();
    }
}

impl NumberedKey for FileName {
    ghost decides = { names_decide };
}
