//! Names, texts, lists of built files and passes together.

ghost use Rattle.std.specs.Prelude.{◌≡◌, ℕ, List, IfOk, OnOk};
ghost use Rattle.store_table.specs.Checked.{IsNameNumber};
ghost use Rattle.passes_codec.specs.PassTables.{bare_table};
ghost use Rattle.passes_table.specs.Located.{ArePassesLocated, Extends, HasPassRoom, located_passes};

use crate::ListRow;
use base::{FileName, NoMemory};
use base_bytes::ByteRange;
use base_collections::{FingerprintIndex, Numbered};
use passes_codec::RunRanges;
use std::alloc::Global;
use store_table::LocatedTexts;

/// A pass: the number of its payload, and there its run, the words of its simulator and its output; and the number of its list of
/// built files.
#[derive(Clone, Copy)]
pub struct PassRow {
    pub payload: usize,
    pub run: RunRanges,
    pub simulator: ByteRange,
    pub list: usize,
    pub output: ByteRange,
}

/// The names, texts, lists and passes that payloads stand for, and of each pass the fingerprint of its tests.
#[derive(Drop)]
pub struct LocatedPasses {
    pub names: Numbered<FileName>,
    pub texts: LocatedTexts,
    pub lists: Numbered<ListRow>,
    pub rows: Vec<PassRow>,
    pub latest: FingerprintIndex,
}

impl LocatedPasses {
    /// Nothing, which takes no memory.
    pub fn new(alloc: Global) -> LocatedPasses
        ensures are { (payloads : List (List ℕ)) → ArePassesLocated payloads result }
        ensures is { (payloads : List (List ℕ)) → located_passes payloads result ≡ bare_table }
    {
        LocatedPasses {
            names: Numbered::new(alloc),
            texts: LocatedTexts::new(alloc),
            lists: Numbered::new(alloc),
            rows: Vec::new(alloc),
            latest: FingerprintIndex::new(alloc),
        }
    }

    /// Makes room for what one more payload adds, with `count` new texts. What is located is unchanged.
    pub fn reserve(&mut self, count: usize) -> Result<(), NoMemory>
        ensures are { (payloads : List (List ℕ)) →
            ArePassesLocated payloads self.old → ArePassesLocated payloads self.new }
        ensures is { (payloads : List (List ℕ)) →
            located_passes payloads self.new ≡ located_passes payloads self.old }
        ensures names { self.new.names.keys ≡ self.old.names.keys }
        ensures room { OnOk result (HasPassRoom count self.new) }
    {
        self.texts.reserve(count)?;
        self.lists.reserve()?;
        self.rows.reserve(1)?;
        self.latest.reserve()
    }

    /// The number of a name, which is added if it is new. Texts, lists and passes are unchanged.
    pub fn number_name(&mut self, name: FileName) -> Result<usize, NoMemory>
        ensures named { IfOk result (IsNameNumber self.new.names.keys name) }
        ensures are { (payloads : List (List ℕ)) →
            ArePassesLocated payloads self.old → ArePassesLocated payloads self.new }
        ensures is { (payloads : List (List ℕ)) → ArePassesLocated payloads self.old →
            located_passes payloads self.new ≡ located_passes payloads self.old }
        ensures kept { Extends self.old.names.keys self.new.names.keys }
        ensures room { (count : ℕ) → HasPassRoom count self.old → HasPassRoom count self.new }
        ensures texts { self.new.texts ≡ self.old.texts }
        ensures lists { self.new.lists ≡ self.old.lists }
    {
        let number = self.names.add(name)?;
        Ok(number)
    }
}
