//! Names, texts, products and records together.

ghost use Rattle.std.specs.Prelude.{◌≡◌, ◌<◌, ℕ, List, [], OnOk};
ghost use Rattle.store_codec.specs.RecordTables.{bare_table};
ghost use Rattle.store_table.specs.Located.{HasRowRoom, IsTableLocated, located_table};

use crate::{LocatedTexts, ProductRow};
use base::{FileName, NoMemory};
use base_bytes::ByteRange;
use base_collections::{FingerprintIndex, Numbered};
use std::alloc::Global;

/// A record: the number of its payload, and there its words and the products that it depends on; and the numbers of its
/// name, its text and its own product.
#[derive(Clone, Copy)]
pub struct RecordRow {
    pub payload: usize,
    pub words: ByteRange,
    pub deps: ByteRange,
    pub name: usize,
    pub text: usize,
    pub product: usize,
}

/// The names, texts, products and records that payloads stand for, and of each record the number of its name.
#[derive(Drop)]
pub struct LocatedTable {
    pub names: Numbered<FileName>,
    pub texts: LocatedTexts,
    pub products: Numbered<ProductRow>,
    pub rows: Vec<RecordRow>,
    pub latest: FingerprintIndex,
}

impl LocatedTable {
    /// Nothing, which takes no memory.
    pub fn new(alloc: Global) -> LocatedTable
        ensures are { (payloads : List (List ℕ)) → IsTableLocated payloads result }
        ensures is { (payloads : List (List ℕ)) → located_table payloads result ≡ bare_table }
    {
        LocatedTable {
            names: Numbered::new(alloc),
            texts: LocatedTexts::new(alloc),
            products: Numbered::new(alloc),
            rows: Vec::new(alloc),
            latest: FingerprintIndex::new(alloc),
        }
    }

    /// Makes room for what one more payload adds, and for a text of a file. What is placed is unchanged.
    pub fn reserve(&mut self) -> Result<(), NoMemory>
        ensures are { (payloads : List (List ℕ)) →
            IsTableLocated payloads self.old → IsTableLocated payloads self.new }
        ensures is { (payloads : List (List ℕ)) →
            located_table payloads self.new ≡ located_table payloads self.old }
        ensures names { self.new.names.keys ≡ self.old.names.keys }
        ensures room { OnOk result (HasRowRoom 3 self.new) }
    {
        self.texts.reserve(3)?;
        self.products.reserve()?;
        self.rows.reserve(1)?;
        self.latest.reserve()
    }
}
