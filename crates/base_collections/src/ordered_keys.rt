//! Keys, each of which has one number.

ghost use Rattle.std.specs.Prelude.{◌≡◌, ◌≢◌, ◌<◌, [], length, position, AllPairs, Some, if◌then◌else◌, IfOk, OnOk, OnErr};
ghost use Rattle.std.specs.BTreeMap.{IsUnchanged, get as other_of};
ghost use Rattle.std.specs.List.{position_or_len};
ghost use Rattle.std.specs.Option.{unwrap_or};
ghost use Rattle.std.specs.Ordering.{is_eq};
ghost use Rattle.indexmap.specs.IndexSet.{insert_key};
ghost use Rattle.base_collections.specs.OrderedKeys.{TakesNumber, IsKeyAt, hash_of};

use crate::table::{Found, hash_of, look, put};
use base::NoMemory;
use std::alloc::Global;
use std::collections::BTreeMap;
use std::hash::Hash;
use std::marker::Model;

/// Keys that are equal only where they are the same, have an order, and can be copied.
pub trait Key: Ord + Hash + Drop {
    ghost use Rattle.std.specs.Prelude.{◌≡◌, IfOk};
    ghost use Rattle.std.specs.Bool.{Decides};

    /// The same key, in memory of its own.
    fn copy(&self, alloc: Global) -> Result<Self, NoMemory>
        ensures { IfOk result (λ copy. copy ≡ self.now) };

    ghost decides: { (a b : Self) → Decides (Self.eq a b) (a ≡ b) };
}

/// The number of a key in the map `others`. A key that is not in the map is inserted with `number`. Both take one search.
fn take_other<K: Key>(
    others: &mut BTreeMap<K, usize>,
    key: K,
    number: usize,
) -> Result<usize, NoMemory>
    ensures found { IfOk result (λ found. found ≡ unwrap_or (other_of K.cmp others.old key) number) }
    ensures others { IfOk result (λ found. (k : K) → other_of K.cmp others.new k
        ≡ (if is_eq (K.cmp key k) then Some found else other_of K.cmp others.old k)) }
    ensures err { OnErr result (IsUnchanged others.old others.new) }
{
    Ok(*others.entry(key)?.or_insert(number))
}

/// As many keys as a bucket of the table can name.
const MOST: usize = u32::MAX as usize;

/// The number of a key among others, if it has one.
fn other_number<K: Key>(others: &BTreeMap<K, usize>, key: &K) -> Option<usize>
    ensures { result ≡ other_of K.cmp others.now key.now }
{
    match others.get(key) {
        Some(other) => Some(*other),
        None => None,
    }
}

/// Keys, each once, numbered from 0 in the order in which they came. Contracts see them.
///
/// A key is found at one of its two buckets in a table, if that has buckets. Keys that are at neither bucket are found by an ordered
/// map, whether they collide by chance or were chosen to. So looking keys up takes n log n comparisons in all, whatever they are.
#[derive(Drop)]
pub struct KeyNumbers<K: Key> {
    alloc: Global,
    keys: Vec<K>,
    slots: Vec<u32>,
    others: BTreeMap<K, usize>,
}

impl<K: Key> Model for KeyNumbers<K> {
    ghost use Rattle.std.specs.Prelude.{List, length};
    ghost use Rattle.std.specs.BTreeMap.{get as other_of};
    ghost use Rattle.base_collections.specs.OrderedKeys.{AreFlagged, first_of, hash_of, second_of, slot_at};

    ghost Value = { List K };

    ghost view = { λ a. a.keys.items };

    ghost invariant = { λ a. AreFlagged (λ key. first_of (length a.slots.items) (hash_of (K.hash_input key)))
        (λ key. second_of (length a.slots.items) (hash_of (K.hash_input key))) (length a.slots.items)
        (slot_at a.slots.items) (other_of K.cmp a.others) a.keys.items };
}

impl<K: Key> KeyNumbers<K> {
    /// No keys, which takes no memory. Keys are then found by the ordered map alone.
    pub fn new(alloc: Global) -> KeyNumbers<K>
        ensures { result ≡ [] }
    {
        KeyNumbers {
            alloc,
            keys: Vec::new(alloc),
            slots: Vec::new(alloc),
            others: BTreeMap::new(alloc),
        }
    }

    /// No keys, with a table for `count` keys; more can be added. Most keys are then found at their buckets.
    pub fn with_room(alloc: Global, count: usize) -> Result<KeyNumbers<K>, NoMemory>
        ensures { IfOk result (λ keys. keys ≡ []) }
    {
        let buckets = count.saturating_mul(4);
        Ok(KeyNumbers {
            alloc,
            keys: Vec::with_capacity(alloc, count)?,
            slots: vec![in alloc; 0; buckets]?,
            others: BTreeMap::new(alloc),
        })
    }

    /// The number of keys. No two are the same.
    pub fn len(&self) -> usize
        ensures len { result ≡ length self.now }
        ensures once { AllPairs (λ a b. a ≢ b) self.now }
    {
        self.keys.len()
    }

    /// The number of a key that has a hash, if it has one.
    fn find(&self, hash: u64, key: &K) -> Option<usize>
        requires { hash ≡ hash_of (K.hash_input key.now) }
        ensures bucket { IsKeyAt self.now key.now result }
        ensures once { AllPairs (λ a b. a ≢ b) self.now }
    {
        match look(self.slots.as_slice(), self.keys.as_slice(), hash, key) {
            Found::At(number) => Some(number),
            Found::Free(_bucket) => None,
            Found::Nowhere => other_number(&self.others, key),
        }
    }

    /// The number of a key, if it has one.
    pub fn number(&self, key: &K) -> Option<usize>
        ensures bucket { IsKeyAt self.now key.now result }
        ensures position { result ≡ position (K.eq key.now) self.now }
    {
        self.find(hash_of(key), key)
    }

    /// The number of a key with this hash. A new key is added at the end. After `NoMemory` the keys are unchanged.
    fn take(&mut self, hash: u64, key: K) -> Result<usize, NoMemory>
        requires { hash ≡ hash_of (K.hash_input key) }
        ensures ok { IfOk result (λ number. TakesNumber key number self.old self.new) }
        ensures err { OnErr result (self.new ≡ self.old) }
        ensures once { AllPairs (λ a b. a ≢ b) self.new }
    {
        let number = self.keys.len();
        match look(self.slots.as_slice(), self.keys.as_slice(), hash, &key) {
            Found::At(found) => Ok(found),
            Found::Free(bucket) => {
                if number >= MOST {
                    return Err(NoMemory);
                }
                self.keys.reserve(1)?;
                put(&mut self.slots, bucket, number as u32);
                self.keys.push_reserved(key);
                Ok(number)
            }
            Found::Nowhere => {
                let copy = key.copy(self.alloc)?;
                self.keys.reserve(1)?;
                let found = take_other(&mut self.others, copy, number)?;
                if found == number {
                    self.keys.push_reserved(key);
                    return Ok(number);
                }
                Ok(found)
            }
        }
    }

    /// The number of a key. A new key is added at the end. After `NoMemory` the keys are unchanged.
    pub fn add(&mut self, key: K) -> Result<usize, NoMemory>
        ensures ok { IfOk result (λ number. TakesNumber key number self.old self.new) }
        ensures number { IfOk result (λ number. number ≡ position_or_len (K.eq key) self.old) }
        ensures keys { OnOk result (self.new ≡ insert_key K.eq self.old key) }
        ensures err { OnErr result (self.new ≡ self.old) }
        ensures once { AllPairs (λ a b. a ≢ b) self.new }
    {
        let hash = hash_of(&key);
        self.take(hash, key)
    }
}
