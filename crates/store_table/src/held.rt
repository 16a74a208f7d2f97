//! The payloads of a store: the ones read at its opening, then each one that was written since. If the text of a record is
//! borrowed from the file of its name, only the other bytes of the payload are held.

ghost use Rattle.std.specs.Prelude.{◌≡◌, ◌↔◌, ◌<◌, ◌++◌, ◌∷◌, [], length, map, slice_get, Some, IfSome, IsTrue, OnOk};
ghost use Rattle.store_table.specs.Located.{held_segment, nth_payload, with_cut};

use base::{Entry, NoMemory, Text};
use std::alloc::Global;
use std::marker::Model;
use store_journal::{Payloads, Ready};

/// A payload without its text, which is that of the file of the number `file`. The text belongs after the first `at` bytes of
/// `rest`.
#[derive(Drop)]
pub struct CutPayload {
    pub rest: Text,
    pub at: usize,
    pub file: usize,
}

/// How a payload is held: all of its bytes, only the bytes that aren't borrowed, or the payload that was written.
#[derive(Drop)]
pub enum HeldPayload {
    Whole(Text),
    Cut(CutPayload),
    Written(Ready),
}

impl HeldPayload {
    /// The bytes that are held.
    fn segment(&self) -> &[u8]
        ensures { result.now ≡ held_segment self.now }
    {
        match self {
            HeldPayload::Whole(payload) => payload.bytes(),
            HeldPayload::Cut(cut) => cut.rest.bytes(),
            HeldPayload::Written(ready) => ready.payload(),
        }
    }
}

/// Payloads in order, over files whose texts are borrowed. Contracts see the payloads; the segments of bytes that are held or borrowed;
/// the texts of the files, which are the first segments; and for how many more payloads there is room.
#[derive(Drop)]
pub struct HeldPayloads<'g> {
    files: &'g [Entry],
    opened: Payloads,
    more: Vec<HeldPayload>,
}

impl<'g> Model for HeldPayloads<'g> {
    ghost use Rattle.std.specs.Prelude.{◌≡◌, ◌⊎◌, ◌-◌, length};
    ghost use Rattle.std.specs.Vec.{vec_len, vec_capacity};
    ghost use Rattle.store_table.specs.Located.{HeldList, file_texts, held_payloads, held_segments};

    ghost Value = { HeldList };

    ghost view = { λ a. record {
      segments = held_segments a.files.now a.opened a.more.items;
      payloads = held_payloads a.files.now a.opened a.more.items;
      borrowed = file_texts a.files.now;
      room = vec_capacity a.more - vec_len a.more;
    } };

    // A store is opened over files, or with payloads.
    ghost invariant = { λ a. (length a.files.now ≡ 0) ⊎ (length a.opened ≡ 0) };
}

impl<'g> HeldPayloads<'g> {
    /// The payloads that a store was opened with, over no file.
    pub fn of(alloc: Global, opened: Payloads) -> HeldPayloads<'g>
        ensures segments { result.segments ≡ opened }
        ensures payloads { result.payloads ≡ opened }
        ensures borrowed { result.borrowed ≡ [] }
    {
        HeldPayloads {
            files: &[],
            opened,
            more: Vec::new(alloc),
        }
    }

    /// No payload, over files whose texts are borrowed.
    pub fn over(alloc: Global, files: &'g [Entry]) -> HeldPayloads<'g>
        ensures segments { result.segments ≡ map (λ file. file.text) files.now }
        ensures payloads { result.payloads ≡ [] }
        ensures borrowed { result.borrowed ≡ map (λ file. file.text) files.now }
    {
        HeldPayloads {
            files,
            opened: Payloads::new(alloc),
            more: Vec::new(alloc),
        }
    }

    /// The number of segments.
    pub fn len(&self) -> usize
        ensures { result ≡ length self.now.segments }
    {
        self.files.len() + self.opened.len() as usize + self.more.len()
    }

    /// The segment of a number.
    pub fn get(&self, number: usize) -> &[u8]
        requires { number < length self.now.segments }
        ensures { slice_get self.now.segments number ≡ Some result.now }
    {
        let files = self.files.len();
        if number < files {
            return self.files[number].text.bytes();
        }
        let opened = self.opened.len() as usize;
        if number - files < opened {
            return self.opened.get((number - files) as u64);
        }
        self.more[number - files - opened].segment()
    }

    /// The file of a number, if it has one, whose text is borrowed.
    pub(crate) fn file(&self, number: usize) -> Option<&'g Entry>
        ensures there { IfSome result (λ _. number < length self.now.borrowed) }
        ensures text { IfSome result (λ file. nth_payload self.now.borrowed number ≡ file.now.text) }
    {
        if number >= self.files.len() {
            return None;
        }
        Some(&self.files[number])
    }

    /// Whether a file has this number, whose text is the segment of that number.
    pub(crate) fn borrows(&self, number: usize) -> bool
        ensures there { IsTrue result ↔ (number < length self.now.borrowed) }
        ensures text { IsTrue result →
            nth_payload self.now.segments number ≡ nth_payload self.now.borrowed number }
    {
        number < self.files.len()
    }

    /// Makes room for one more payload. The payloads are unchanged.
    pub fn reserve(&mut self) -> Result<(), NoMemory>
        ensures segments { self.new.segments ≡ self.old.segments }
        ensures payloads { self.new.payloads ≡ self.old.payloads }
        ensures borrowed { self.new.borrowed ≡ self.old.borrowed }
        ensures room { OnOk result (0 < self.new.room) }
    {
        self.more.reserve(1)?;
        Ok(())
    }

    /// Adds a payload that was written at the end, which is moved in. It takes no memory.
    pub fn put(&mut self, payload: Ready)
        requires { 0 < self.old.room }
        ensures segments { self.new.segments ≡ self.old.segments ++ payload ∷ [] }
        ensures payloads { self.new.payloads ≡ self.old.payloads ++ payload ∷ [] }
        ensures borrowed { self.new.borrowed ≡ self.old.borrowed }
    {
        self.more.push_reserved(HeldPayload::Written(payload));
    }

    /// Adds all bytes of a payload at the end, which are moved in. After `NoMemory` the payloads are unchanged.
    pub fn put_whole(&mut self, payload: Text) -> Result<(), NoMemory>
        ensures segments { OnOk result (self.new.segments ≡ self.old.segments ++ payload ∷ []) }
        ensures payloads { OnOk result (self.new.payloads ≡ self.old.payloads ++ payload ∷ []) }
        ensures borrowed { self.new.borrowed ≡ self.old.borrowed }
    {
        self.more.push(HeldPayload::Whole(payload))?;
        Ok(())
    }

    /// Adds a payload at the end whose text is that of a file. It takes no memory.
    pub(crate) fn put_cut(&mut self, cut: CutPayload)
        requires room { 0 < self.old.room }
        requires file { cut.file < length self.old.borrowed }
        ensures segments { self.new.segments ≡ self.old.segments ++ cut.rest ∷ [] }
        ensures payloads { self.new.payloads
            ≡ self.old.payloads ++ with_cut (nth_payload self.old.borrowed cut.file) cut ∷ [] }
        ensures borrowed { self.new.borrowed ≡ self.old.borrowed }
        ensures within { cut.file < length self.old.segments }
        ensures text { nth_payload self.old.segments cut.file
            ≡ nth_payload self.old.borrowed cut.file }
    {
        self.more.push_reserved(HeldPayload::Cut(cut));
    }
}
