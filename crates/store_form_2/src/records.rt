//! The records of a store, as locations in its payloads.

ghost use Rattle.std.specs.Prelude.{◌≡◌, ◌++◌, ◌∷◌, [], OnOk};
ghost use Rattle.store_form_2.specs.Locations.{HasRecordRoom};

use base::NoMemory;
use base_bytes::ByteRange;
use base_collections::FingerprintIndex;
use std::alloc::Global;

/// A record: the number of its node, and where its artefact is: the number of its payload, and its bytes there.
#[derive(Clone, Copy)]
pub struct RecordLocation {
    pub node: usize,
    pub payload: usize,
    pub artefact: ByteRange,
}

/// Records in order, and of each the number of the name of its file.
#[derive(Drop)]
pub struct RecordLocations {
    pub locations: Vec<RecordLocation>,
    pub names: FingerprintIndex,
}

impl RecordLocations {
    /// No record, which takes no memory.
    pub fn new(alloc: Global) -> RecordLocations
        ensures locations { result.locations.items ≡ [] }
        ensures names { result.names.fingerprints ≡ [] }
    {
        RecordLocations {
            locations: Vec::new(alloc),
            names: FingerprintIndex::new(alloc),
        }
    }

    /// Makes room for one more record. The records are unchanged.
    pub fn reserve(&mut self) -> Result<(), NoMemory>
        ensures locations { self.new.locations.items ≡ self.old.locations.items }
        ensures names { self.new.names.fingerprints ≡ self.old.names.fingerprints }
        ensures room { OnOk result (HasRecordRoom self.new) }
    {
        self.locations.reserve(1)?;
        self.names.reserve()
    }

    /// Adds a record of a name at the end. It takes no memory.
    pub fn put(&mut self, location: RecordLocation, name: usize)
        requires { HasRecordRoom self.old }
        ensures locations { self.new.locations.items ≡ self.old.locations.items ++ location ∷ [] }
        ensures names { self.new.names.fingerprints ≡ self.old.names.fingerprints ++ name ∷ [] }
    {
        self.locations.push_reserved(location);
        self.names.put(name as u64);
    }
}
