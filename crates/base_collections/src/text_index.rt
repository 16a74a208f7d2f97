//! The splits of texts by number, linked so that a walk passes over none that it doesn't need.

ghost use Rattle.std.specs.Prelude.{◌≡◌, ◌<◌, ◌≤◌, ◌+◌, ◌++◌, ◌∷◌, [], ℕ, List, None, Some, length, slice_set, OnOk};
ghost use Rattle.base_collections.specs.Splits.{reached};
ghost use Rattle.base_collections.specs.Links.{AreChained, AreLinked, left_numbers};

use crate::{Split, value_at};
use base::NoMemory;
use std::alloc::Global;
use std::marker::Model;

/// Splits, numbered from 0 in the order in which they came. Contracts see them, and for how many more there is room.
#[derive(Drop)]
pub struct TextIndex {
    splits: Vec<Split>,
    firsts: Vec<Option<usize>>,
    nexts: Vec<Option<usize>>,
    lasts: Vec<Option<usize>>,
}

impl Model for TextIndex {
    ghost use Rattle.std.specs.Prelude.{min, ◌-◌};
    ghost use Rattle.std.specs.Vec.{vec_len, vec_capacity};
    ghost use Rattle.base_collections.specs.Links.{SplitList, AreLinked, left_numbers};

    ghost Value = { SplitList };

    ghost view = { λ a. record { splits = a.splits.items; room = min (min (vec_capacity a.splits - vec_len a.splits) (vec_capacity a.firsts - vec_len a.firsts)) (min (vec_capacity a.nexts - vec_len a.nexts) (vec_capacity a.lasts - vec_len a.lasts)) } };

    ghost invariant = { λ a. AreLinked (left_numbers a.splits.items) a.firsts.items a.nexts.items a.lasts.items };
}

impl TextIndex {
    /// No split, which takes no memory.
    pub fn new(alloc: Global) -> TextIndex
        ensures { result.splits ≡ [] }
    {
        TextIndex {
            splits: Vec::new(alloc),
            firsts: Vec::new(alloc),
            nexts: Vec::new(alloc),
            lasts: Vec::new(alloc),
        }
    }

    /// The number of splits.
    pub fn len(&self) -> usize
        ensures { result ≡ length self.now.splits }
    {
        self.splits.len()
    }

    /// The only number that a text can have.
    pub fn candidate(&self, text: &[u8]) -> usize
        requires { 0 < length self.now.splits }
        ensures is { result ≡ reached self.now.splits text.now }
        ensures there { result < length self.now.splits }
    {
        walk(&self.splits, &self.firsts, &self.nexts, text)
    }

    /// Makes room for `count` more splits. The splits are unchanged.
    pub fn reserve(&mut self, count: usize) -> Result<(), NoMemory>
        ensures same { self.new.splits ≡ self.old.splits }
        ensures room { OnOk result (count ≤ self.new.room) }
    {
        self.splits.reserve(count)?;
        self.firsts.reserve(count)?;
        self.nexts.reserve(count)?;
        self.lasts.reserve(count)?;
        Ok(())
    }

    /// Adds the split at which a new text leaves the text of a lower number. It takes no memory.
    pub fn put(&mut self, split: Split)
        requires room { 0 < self.old.room }
        requires of { 0 < length self.old.splits → split.of < length self.old.splits }
        ensures splits { self.new.splits ≡ self.old.splits ++ split ∷ [] }
        ensures room { self.old.room ≤ self.new.room + 1 }
    {
        let number = self.splits.len();
        link(
            &mut self.firsts,
            &mut self.nexts,
            &mut self.lasts,
            split.of,
            number,
        );
        self.splits.push_reserved(split);
        self.firsts.push_reserved(None);
        self.nexts.push_reserved(None);
        self.lasts.push_reserved(None);
    }
}

/// Links a new split behind the last one that leaves the same number.
fn link(
    firsts: &mut [Option<usize>],
    nexts: &mut [Option<usize>],
    lasts: &mut [Option<usize>],
    of: usize,
    number: usize,
)
    requires linked { (ofs : List ℕ) × ((length ofs ≡ number)
        × AreLinked ofs firsts.old nexts.old lasts.old) }
    requires of { 0 < number → of < number }
    ensures linked { (ofs : List ℕ) → length ofs ≡ number →
        AreLinked ofs firsts.old nexts.old lasts.old →
        AreLinked (ofs ++ of ∷ []) (firsts.new ++ None ∷ []) (nexts.new ++ None ∷ [])
        (lasts.new ++ None ∷ []) }
{
    if number == 0 {
        return;
    }
    match lasts[of] {
        Some(last) => {
            set(nexts, last, number);
            set(lasts, of, number)
        }
        None => {
            set(firsts, of, number);
            set(lasts, of, number)
        }
    }
}

/// Sets the item of an index.
fn set(items: &mut [Option<usize>], index: usize, number: usize)
    requires { index < length items.old }
    ensures { items.new ≡ slice_set items.old index (Some number) }
{
    items[index] = Some(number);
}

/// The number that a text comes to.
fn walk(splits: &[Split], firsts: &[Option<usize>], nexts: &[Option<usize>], text: &[u8]) -> usize
    requires some { 0 < length splits.now }
    requires chained { AreChained (left_numbers splits.now) firsts.now nexts.now }
    ensures is { result ≡ reached splits.now text.now }
    ensures there { result < length splits.now }
{
    let mut now = 0;
    let mut candidate = firsts[0];
    while let Some(number) = candidate {
        let split = splits[number];
        if value_at(text, split.point) != split.value {
            now = number;
            candidate = firsts[number];
        } else {
            candidate = nexts[number];
        }
    }
    now
}
