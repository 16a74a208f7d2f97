//! Texts, nodes and records together.

ghost use Rattle.std.specs.Prelude.{◌≡◌, ◌<◌, ℕ, List, OnOk};
ghost use Rattle.store_form_2.specs.NodeContents.{empty_contents};
ghost use Rattle.store_form_2.specs.Locations.{HasRecordRoom, HasTextRoom, IsContents, contents_in};

use crate::{NodeTable, RecordLocations, TextLocations};
use base::NoMemory;
use std::alloc::Global;

/// The texts, nodes and records that payloads stand for.
#[derive(Drop)]
pub struct ContentsLocations {
    pub table: NodeTable,
    pub texts: TextLocations,
    pub records: RecordLocations,
}

impl ContentsLocations {
    /// Nothing, which takes no memory.
    pub fn new(alloc: Global) -> ContentsLocations
        ensures are { (payloads : List (List ℕ)) → IsContents payloads result }
        ensures is { (payloads : List (List ℕ)) → contents_in payloads result ≡ empty_contents }
    {
        ContentsLocations {
            table: NodeTable::new(alloc),
            texts: TextLocations::new(alloc),
            records: RecordLocations::new(alloc),
        }
    }

    /// Makes room for one more text, node and record. What they stand for is unchanged.
    #[tactic(auto, using(crate::proofs::Grown::still_parts, crate::proofs::Grown::same_parts))]
    pub fn reserve(&mut self) -> Result<(), NoMemory>
        ensures are { (payloads : List (List ℕ)) →
            IsContents payloads self.old → IsContents payloads self.new }
        ensures is { (payloads : List (List ℕ)) →
            contents_in payloads self.new ≡ contents_in payloads self.old }
        ensures names { self.new.table.names ≡ self.old.table.names }
        ensures commands { self.new.table.commands ≡ self.old.table.commands }
        ensures texts { OnOk result (HasTextRoom self.new.texts) }
        ensures records { OnOk result (HasRecordRoom self.new.records) }
        ensures nodes { OnOk result (0 < self.new.table.room) }
    {
        self.table.reserve()?;
        self.texts.reserve()?;
        self.records.reserve()
    }
}
