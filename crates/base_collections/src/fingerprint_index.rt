//! An index from fingerprints to numbers: which numbers have a fingerprint, the last first.

ghost use Rattle.std.specs.Prelude.{◌≡◌, ◌<◌, ◌++◌, ◌∷◌, [], length, slice_index, OnOk};
ghost use Rattle.base_collections.specs.Indexes.{IsLastWith};

use base::NoMemory;
use indexmap::IndexMap;
use std::alloc::Global;
use std::marker::Model;

/// The fingerprint of a number, and the last number before it that has the same fingerprint.
#[derive(Clone, Copy)]
pub struct Fingerprinted {
    pub fingerprint: u64,
    pub earlier: Option<usize>,
}

/// Fingerprints, numbered from 0 in the order in which they came. Contracts see them, and whether there is room for one more.
#[derive(Drop)]
pub struct FingerprintIndex {
    last: IndexMap<u64, usize>,
    entries: Vec<Fingerprinted>,
}

impl Model for FingerprintIndex {
    ghost use Rattle.std.specs.Prelude.{map, min, ◌-◌, nat_eq};
    ghost use Rattle.std.specs.Vec.{vec_len, vec_capacity};
    ghost use Rattle.indexmap.specs.IndexMap.{spare, get};
    ghost use Rattle.base_collections.specs.Indexes.{FingerprintList, AreIndexed};

    ghost Value = { FingerprintList };

    ghost view = { λ a. record { fingerprints = map (λ entry. entry.fingerprint) a.entries.items; room = min (spare a.last) (vec_capacity a.entries - vec_len a.entries) } };

    ghost invariant = { λ a. AreIndexed (get nat_eq a.last) a.entries.items };
}

impl FingerprintIndex {
    /// No fingerprint, which takes no memory.
    pub fn new(alloc: Global) -> FingerprintIndex
        ensures { result.fingerprints ≡ [] }
    {
        FingerprintIndex {
            last: IndexMap::new(alloc),
            entries: Vec::new(alloc),
        }
    }

    /// The last number that has a fingerprint.
    pub fn last(&self, fingerprint: u64) -> Option<usize>
        ensures { IsLastWith self.now.fingerprints fingerprint (length self.now.fingerprints) result }
    {
        self.last.get(&fingerprint).copied()
    }

    /// The last number before a number that has its fingerprint.
    pub fn earlier(&self, number: usize) -> Option<usize>
        requires { number < length self.now.fingerprints }
        ensures { IsLastWith self.now.fingerprints (slice_index self.now.fingerprints number) number result }
    {
        self.entries[number].earlier
    }

    /// Makes room for one more fingerprint. The fingerprints are unchanged.
    pub fn reserve(&mut self) -> Result<(), NoMemory>
        ensures same { self.new.fingerprints ≡ self.old.fingerprints }
        ensures room { OnOk result (0 < self.new.room) }
    {
        self.last.reserve(1)?;
        self.entries.reserve(1)?;
        Ok(())
    }

    /// Adds a fingerprint at the end. It takes no memory.
    pub fn put(&mut self, fingerprint: u64)
        requires { 0 < self.old.room }
        ensures { self.new.fingerprints ≡ self.old.fingerprints ++ fingerprint ∷ [] }
    {
        let number = self.entries.len();
        let earlier = self.last(fingerprint);
        self.entries.push_reserved(Fingerprinted {
            fingerprint,
            earlier,
        });
        match self.last.insert(fingerprint, number) {
            Ok(_) => {}
            Err(_) => unreachable!(),
        }
    }
}
