//! The list of the files that tests run over now. Its artefacts that payloads lack are copied.

ghost use Rattle.std.specs.Prelude.{◌≡◌, ◌≢◌, ◌<◌, ◌≤◌, ◌++◌, ◌∷◌, [], ℕ, List, length, AllPairs, Contains, IfOk, OnErr, OnOk};
ghost use Rattle.base.specs.Names.{FitsName};
ghost use Rattle.base.specs.declared.file.FileName.{FileName};
ghost use Rattle.base.specs.declared.limits.TheConstants.{ARTEFACT_LIMIT, FILE_LIMIT};
ghost use Rattle.base_collections.specs.Numbers.{IsIndexOf};
ghost use Rattle.store_table.specs.Checked.{IsNameNumber};
ghost use Rattle.store_table.specs.Located.{AreTextsLocated, located_texts, text_room};
ghost use Rattle.passes_table.specs.Pending.{IsPending, IsRenewed, IsWithFile, all_texts, fresh_in};

use crate::ListRow;
use base::{Items, NoMemory};
use base_bytes::ByteRange;
use std::alloc::Global;
use store_journal::{Payloads, Ready};
use store_table::{HeldPayloads, LocatedTexts, ProductRow, find_text, put_text};

/// Copies of artefacts that payloads lack, each once.
#[derive(Drop)]
pub struct FreshTexts {
    pub held: HeldPayloads<'static>,
    pub texts: LocatedTexts,
}

/// The rows of the files that tests run over. A number of a text below the number of the texts of payloads is that of such a text,
/// and the others are those of the copies, in order.
#[derive(Drop)]
pub struct PendingList {
    pub row: ListRow,
    pub fresh: FreshTexts,
}

impl FreshTexts {
    /// No text, which takes no memory.
    pub fn new(alloc: Global) -> FreshTexts
        ensures located { AreTextsLocated result.held.segments result.texts }
        ensures none { fresh_in result ≡ [] }
    {
        FreshTexts {
            held: HeldPayloads::of(alloc, Payloads::new(alloc)),
            texts: LocatedTexts::new(alloc),
        }
    }

    /// A copy of a text, with room for it. The texts are unchanged.
    fn ready(&mut self, alloc: Global, text: &[u8]) -> Result<Ready, NoMemory>
        requires small { length text.now ≤ ARTEFACT_LIMIT }
        ensures located { AreTextsLocated self.old.held.segments self.old.texts →
            AreTextsLocated self.new.held.segments self.new.texts }
        ensures texts { fresh_in self.new ≡ fresh_in self.old }
        ensures as_many { length self.new.texts.indices.items ≡ length self.old.texts.indices.items }
        ensures copy { IfOk result (λ copy. copy ≡ text.now) }
        ensures room { OnOk result (0 < self.new.held.room) }
        ensures text_room { OnOk result (0 < text_room self.new.texts) }
    {
        let mut frame = Ready::begin(alloc, text.len())?;
        frame.plain(text)?;
        let copy = Ready::of(frame)?;
        self.held.reserve()?;
        self.texts.reserve(1)?;
        Ok(copy)
    }

    /// Adds a copy of a text that isn't there at the end, which is moved in. It takes no memory.
    fn put(&mut self, copy: Ready)
        requires located { AreTextsLocated self.old.held.segments self.old.texts }
        requires room { 0 < self.old.held.room }
        requires text_room { 0 < text_room self.old.texts }
        requires new { ¬ Contains (fresh_in self.old) copy }
        ensures located { AreTextsLocated self.new.held.segments self.new.texts }
        ensures texts { fresh_in self.new ≡ fresh_in self.old ++ copy ∷ [] }
    {
        let at = self.held.len();
        let range = ByteRange {
            start: 0,
            count: copy.payload().len(),
        };
        self.held.put(copy);
        put_text(&mut self.texts, &self.held, at, range);
    }
}

impl PendingList {
    /// No file, which takes no memory.
    pub fn new(alloc: Global) -> PendingList
        ensures is { (names : List FileName) (texts : List (List ℕ)) →
            AllPairs (λ a b. a ≢ b) texts → IsPending names texts result }
        ensures none { result.row.files ≡ [] }
        ensures fresh { fresh_in result.fresh ≡ [] }
    {
        PendingList {
            row: ListRow {
                files: Items::new(alloc),
            },
            fresh: FreshTexts::new(alloc),
        }
    }

    /// Leaves the rows, and removes all copies if payloads have them now. It takes no memory.
    pub fn renew(&mut self, alloc: Global, is_taken: bool)
        ensures { IsRenewed is_taken self.old self.new }
    {
        if is_taken {
            self.fresh = FreshTexts::new(alloc);
        }
    }

    /// The number of an artefact among the texts of payloads and the copies, if it has one.
    fn number_of(
        &self,
        held: &HeldPayloads<'_>,
        texts: &LocatedTexts,
        artefact: &[u8],
    ) -> Option<usize>
        requires texts { AreTextsLocated held.now.segments texts.now }
        requires located { AreTextsLocated self.now.fresh.held.segments self.now.fresh.texts }
        ensures { IsIndexOf (all_texts (located_texts held.now.segments texts.now) self.now)
            artefact.now result }
    {
        if let Some(number) = find_text(held, texts, artefact) {
            return Some(number);
        }
        let Some(number) = find_text(&self.fresh.held, &self.fresh.texts, artefact) else {
            return None;
        };
        Some(texts.indices.len() + number)
    }

    /// Adds a file whose artefact, which has this number, is neither among the texts of payloads nor among the copies. After
    /// `NoMemory` the files are unchanged.
    fn add_new(
        &mut self,
        alloc: Global,
        name: usize,
        text: usize,
        artefact: &[u8],
    ) -> Result<(), NoMemory>
        requires located { AreTextsLocated self.old.fresh.held.segments self.old.fresh.texts }
        requires small { length artefact.now ≤ ARTEFACT_LIMIT }
        requires new { ¬ Contains (fresh_in self.old.fresh) artefact.now }
        ensures located { AreTextsLocated self.new.fresh.held.segments self.new.fresh.texts }
        ensures ok_row { OnOk result
            (self.new.row.files
            ≡ self.old.row.files ++ record { name = name; text = text } ∷ []) }
        ensures ok_fresh { OnOk result
            (fresh_in self.new.fresh ≡ fresh_in self.old.fresh ++ artefact.now ∷ []) }
        ensures err_row { OnErr result (self.new.row.files ≡ self.old.row.files) }
        ensures err_fresh { OnErr result (fresh_in self.new.fresh ≡ fresh_in self.old.fresh) }
    {
        let copy = self.fresh.ready(alloc, artefact)?;
        self.row.files.push(ProductRow { name, text })?;
        self.fresh.put(copy);
        Ok(())
    }

    /// Adds a file of a name that is numbered at the end, with its artefact. After `NoMemory` the files are unchanged.
    pub fn add(
        &mut self,
        alloc: Global,
        held: &HeldPayloads<'_>,
        texts: &LocatedTexts,
        name: usize,
        artefact: &[u8],
    ) -> Result<(), NoMemory>
        requires texts { AreTextsLocated held.now.segments texts.now }
        requires small { length artefact.now ≤ ARTEFACT_LIMIT }
        requires located { AreTextsLocated self.old.fresh.held.segments self.old.fresh.texts }
        ensures is { (names : List FileName) (own : FileName) →
            IsNameNumber names own name → FitsName own →
            length self.old.row.files < FILE_LIMIT →
            IsPending names (located_texts held.now.segments texts.now) self.old →
            IsWithFile result names (located_texts held.now.segments texts.now)
            (record { name = own; artefact = artefact.now }) self.old self.new }
    {
        match self.number_of(held, texts, artefact) {
            Some(text) => self.row.files.push(ProductRow { name, text }),
            None => {
                let text = texts.indices.len() + self.fresh.texts.indices.len();
                self.add_new(alloc, name, text, artefact)
            }
        }
    }
}
