//! The texts of a store, as indices in its payloads.

ghost use Rattle.std.specs.Prelude.{◌≡◌, ◌<◌, ◌≤◌, ◌+◌, ◌++◌, ◌∷◌, [], length, Contains, IsTrue, OnOk, slice_index_or};
ghost use Rattle.base_collections.specs.Numbers.{IsIndexOf};
ghost use Rattle.base_collections.specs.Splits.{AreSplit};
ghost use Rattle.base_bytes.specs.Ranges.{ranged};
ghost use Rattle.store_table.specs.Located.{AreTextsLocated, nth_payload, located_text, located_texts, text_room};

use crate::HeldPayloads;
use base::NoMemory;
use base_bytes::{ByteRange, bytes_in};
use base_collections::{Split, TextIndex, split_between};
use std::alloc::Global;

/// Where a text is: the number of its payload, and its bytes there.
#[derive(Clone, Copy)]
pub struct LocatedText {
    pub payload: usize,
    pub range: ByteRange,
}

/// Texts, each once, numbered from 0 in the order in which they came, and found by one walk and one comparison.
#[derive(Drop)]
pub struct LocatedTexts {
    pub indices: Vec<LocatedText>,
    pub index: TextIndex,
}

impl LocatedTexts {
    /// No text, which takes no memory.
    pub fn new(alloc: Global) -> LocatedTexts
        ensures indices { result.indices.items ≡ [] }
        ensures splits { result.index.splits ≡ [] }
    {
        LocatedTexts {
            indices: Vec::new(alloc),
            index: TextIndex::new(alloc),
        }
    }

    /// Makes room for `count` more texts. The texts are unchanged.
    pub fn reserve(&mut self, count: usize) -> Result<(), NoMemory>
        ensures indices { self.new.indices.items ≡ self.old.indices.items }
        ensures splits { self.new.index.splits ≡ self.old.index.splits }
        ensures room { OnOk result (count ≤ text_room self.new) }
    {
        self.indices.reserve(count)?;
        self.index.reserve(count)
    }

    /// Adds a text at the end, by its split. It takes no memory.
    fn put(&mut self, located: LocatedText, split: Split)
        requires room { 0 < text_room self.old }
        requires of { 0 < length self.old.index.splits → split.of < length self.old.index.splits }
        ensures indices { self.new.indices.items ≡ self.old.indices.items ++ located ∷ [] }
        ensures splits { self.new.index.splits ≡ self.old.index.splits ++ split ∷ [] }
        ensures room { text_room self.old ≤ text_room self.new + 1 }
    {
        self.indices.push_reserved(located);
        self.index.put(split);
    }
}

/// The bytes of a place.
fn index_bytes<'a>(held: &'a HeldPayloads<'_>, located: LocatedText) -> &'a [u8]
    requires { located.payload < length held.now.segments }
    ensures { result.now ≡ located_text held.now.segments located }
{
    bytes_in(held.get(located.payload), located.range)
}

/// The text of a number.
pub fn text_at<'a>(held: &'a HeldPayloads<'_>, texts: &LocatedTexts, number: usize) -> &'a [u8]
    requires texts { AreTextsLocated held.now.segments texts.now }
    requires number { number < length texts.now.indices.items }
    ensures { result.now ≡ slice_index_or (located_texts held.now.segments texts.now) number [] }
{
    index_bytes(held, texts.indices[number])
}

/// Whether a range has all of some bytes.
fn has_all(bytes: &[u8], range: ByteRange) -> bool
    ensures { IsTrue result → ranged bytes.now range ≡ bytes.now }
{
    range.start == 0 && range.count == bytes.len()
}

/// Whether the text of a number is in the place of the text that the file of a number lends. Two texts may be the same in other
/// indices.
pub fn is_borrowed_from(
    held: &HeldPayloads<'_>,
    texts: &LocatedTexts,
    number: usize,
    file: usize,
) -> bool
    requires texts { AreTextsLocated held.now.segments texts.now }
    requires number { number < length texts.now.indices.items }
    ensures there { IsTrue result → file < length held.now.borrowed }
    ensures text { IsTrue result →
        slice_index_or (located_texts held.now.segments texts.now) number []
        ≡ nth_payload held.now.borrowed file }
{
    let located = texts.indices[number];
    if located.payload != file {
        return false;
    }
    if !held.borrows(file) {
        return false;
    }
    has_all(held.get(file), located.range)
}

/// The number of a text, if it is there. It is compared with one text alone.
pub fn find_text(held: &HeldPayloads<'_>, texts: &LocatedTexts, text: &[u8]) -> Option<usize>
    requires { AreTextsLocated held.now.segments texts.now }
    ensures { IsIndexOf (located_texts held.now.segments texts.now) text.now result }
{
    if texts.index.len() == 0 {
        return None;
    }
    let number = texts.index.candidate(text);
    if text_at(held, texts, number) == text {
        Some(number)
    } else {
        None
    }
}

/// The split of a text that isn't there.
fn new_split(held: &HeldPayloads<'_>, texts: &LocatedTexts, text: &[u8]) -> Split
    requires texts { AreTextsLocated held.now.segments texts.now }
    requires new { ¬ Contains (located_texts held.now.segments texts.now) text.now }
    ensures of { 0 < length texts.now.index.splits →
        result.of < length texts.now.index.splits }
    ensures split { AreSplit (located_texts held.now.segments texts.now ++ text.now ∷ [])
        (texts.now.index.splits ++ result ∷ []) }
{
    if texts.index.len() == 0 {
        return Split {
            of: 0,
            point: 0,
            value: 16,
        };
    }
    let of = texts.index.candidate(text);
    split_between(of, text_at(held, texts, of), text)
}

/// Puts a text that isn't there, of a payload, at the end.
pub fn put_text(texts: &mut LocatedTexts, held: &HeldPayloads<'_>, at: usize, range: ByteRange)
    requires room { 0 < text_room texts.old }
    requires at { at < length held.now.segments }
    requires texts { AreTextsLocated held.now.segments texts.old }
    requires new { ¬ Contains (located_texts held.now.segments texts.old)
        (ranged (nth_payload held.now.segments at) range) }
    ensures are { AreTextsLocated held.now.segments texts.new }
    ensures is { located_texts held.now.segments texts.new
        ≡ located_texts held.now.segments texts.old
        ++ ranged (nth_payload held.now.segments at) range ∷ [] }
    ensures room { text_room texts.old ≤ text_room texts.new + 1 }
{
    let located = LocatedText { payload: at, range };
    let split = new_split(held, texts, index_bytes(held, located));
    texts.put(located, split);
}
