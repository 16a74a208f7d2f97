//! A table of buckets, in which keys are found by their hash.

ghost use Rattle.std.specs.Prelude.{◌≡◌, ◌+◌, ◌<◌, ℕ, Some, length, set};
ghost use Rattle.base_collections.specs.OrderedKeys.{IsLooked, first_of, hash_of, second_of, slot_at};

use crate::ordered_keys::Key;
use std::hash::{FoldHasher, Hash, Hasher};

/// The result of looking at the two buckets of a key.
/// - `At`: the key is at a bucket, and has this number.
/// - `Free`: the key was not found, and this bucket is free.
/// - `Nowhere`: other keys are at both buckets, or there are no buckets.
#[derive(Clone, Copy)]
pub enum Found {
    At(usize),
    Free(usize),
    Nowhere,
}

/// The hash of a key.
#[tactic(auto, unfolding(crate::specs::OrderedKeys::hash_of))]
pub fn hash_of<K: Key>(key: &K) -> u64
    ensures { result ≡ hash_of (K.hash_input key.now) }
{
    let mut state = FoldHasher::default();
    key.hash(&mut state);
    state.finish()
}

/// The number of the key at a bucket, if there is one. A bucket holds the number plus one, or 0 if it is free.
fn slot_at(slots: &[u32], at: usize) -> Option<usize>
    ensures { result ≡ slot_at slots.now at }
{
    if at >= slots.len() {
        return None;
    }
    let number = slots[at];
    if number == 0 {
        return None;
    }
    Some(number as usize - 1)
}

/// Puts a number at a bucket.
pub fn put(slots: &mut Vec<u32>, bucket: usize, number: u32)
    requires bucket { bucket < length slots.old.items }
    requires few { number < u32.MAX }
    ensures { slots.new.items ≡ set slots.old.items bucket (number + 1) }
{
    slots[bucket] = number + 1;
}

/// The first bucket of a key with a hash.
fn first_of(buckets: u64, hash: u64) -> usize
    requires { 0 < buckets }
    ensures { result ≡ first_of buckets hash }
{
    (hash % buckets) as usize
}

/// The second bucket of a key with a hash.
fn second_of(buckets: u64, hash: u64) -> usize
    requires { 0 < buckets }
    ensures { result ≡ second_of buckets hash }
{
    ((hash >> 32) % buckets) as usize
}

/// Looks at the buckets of a key with a hash.
pub fn look<K: Key>(slots: &[u32], keys: &[K], hash: u64, key: &K) -> Found
    requires { (at number : ℕ) → slot_at slots.now at ≡ Some number → number < length keys.now }
    ensures { IsLooked (slot_at slots.now) keys.now key.now (first_of (length slots.now) hash)
        (second_of (length slots.now) hash) (length slots.now) result }
{
    let buckets = slots.len() as u64;
    if buckets == 0 {
        return Found::Nowhere;
    }
    let one = first_of(buckets, hash);
    let Some(first) = slot_at(slots, one) else {
        return Found::Free(one);
    };
    if keys[first].eq(key) {
        return Found::At(first);
    }
    let two = second_of(buckets, hash);
    let Some(second) = slot_at(slots, two) else {
        return Found::Free(two);
    };
    if keys[second].eq(key) {
        return Found::At(second);
    }
    Found::Nowhere
}
