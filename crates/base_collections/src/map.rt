//! A value for each of some keys.

ghost use Rattle.std.specs.Prelude.{◌≡◌, [], length, None, Some, if◌then◌else◌, IfOk, OnOk, OnErr};
ghost use Rattle.base_collections.specs.Maps.{get};

use crate::ordered_keys::{Key, KeyNumbers};
use base::NoMemory;
use std::alloc::Global;
use std::marker::Model;

/// A value for each of some keys. Contracts see the keys and the values, in the order in which the keys came, and ask
/// for the value of a key.
#[derive(Drop)]
pub struct KeyMap<K: Key, V: Copy> {
    numbers: KeyNumbers<K>,
    values: Vec<V>,
}

impl<K: Key, V: Copy> Model for KeyMap<K, V> {
    ghost use Rattle.std.specs.Prelude.{◌≡◌, length};
    ghost use Rattle.base_collections.specs.Maps.{Entries};

    ghost Value = { Entries K V };

    ghost view = { λ a. record { keys = a.numbers; values = a.values.items } };

    ghost invariant = { λ a. length a.values.items ≡ length a.numbers };
}

impl<K: Key, V: Copy> KeyMap<K, V> {
    /// An empty map, which takes no memory.
    pub fn new(alloc: Global) -> KeyMap<K, V>
        ensures empty { result ≡ record { keys = []; values = [] } }
        ensures none { (key : K) → get K.eq result key ≡ None }
    {
        KeyMap {
            numbers: KeyNumbers::new(alloc),
            values: Vec::new(alloc),
        }
    }

    /// An empty map with a table for `count` keys; it can hold more. Most keys are then found at their buckets.
    pub fn with_room(alloc: Global, count: usize) -> Result<KeyMap<K, V>, NoMemory>
        ensures empty { IfOk result (λ map. map ≡ record { keys = []; values = [] }) }
        ensures none { IfOk result (λ map. (key : K) → get K.eq map key ≡ None) }
    {
        Ok(KeyMap {
            numbers: KeyNumbers::with_room(alloc, count)?,
            values: Vec::with_capacity(alloc, count)?,
        })
    }

    /// The value of a key, if it has one.
    pub fn get(&self, key: &K) -> Option<V>
        ensures { result ≡ get K.eq self.now key.now }
    {
        match self.numbers.number(key) {
            Some(number) => Some(self.values[number]),
            None => None,
        }
    }

    /// Gives a key a value, and says which it had. After `NoMemory` the map is unchanged.
    pub fn insert(&mut self, key: K, value: V) -> Result<Option<V>, NoMemory>
        ensures old { IfOk result (λ old. old ≡ get K.eq self.old key) }
        ensures updates { OnOk result ((other : K) → get K.eq self.new other
            ≡ (if K.eq key other then Some value else get K.eq self.old other)) }
        ensures err { OnErr result (self.new ≡ self.old) }
    {
        self.values.reserve(1)?;
        let number = self.numbers.add(key)?;
        if number < self.values.len() {
            let old = self.values[number];
            self.values[number] = value;
            return Ok(Some(old));
        }
        self.values.push_reserved(value);
        Ok(None)
    }
}
