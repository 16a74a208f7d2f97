//! A set of positions: a bit for each, so that the next one is found in a few steps, and two sets are joined word by
//! word.

ghost use Rattle.std.specs.Prelude.{◌≡◌, ◌≢◌, ℕ, ◌+◌, ◌*◌, ◌<◌, ◌≤◌, ◌||◌, true, false, filter, IfOk};
ghost use Rattle.std.specs.Int.{bit_at};
ghost use Rattle.base.specs.PresentGraph.{below};
ghost use Rattle.base_collections.specs.Positions.{has, IsNext};

use crate::words::{lowest_bit, moved_down, with_bit, without_bit};
use base::{FILE_LIMIT, NoMemory, Positions};
use std::alloc::Global;

/// A set of positions of files, of which a project has at most 4,096. It takes no memory.
#[derive(Drop)]
pub struct PositionSet {
    words: [u64; 64],
}

impl PositionSet {
    /// The set of none.
    pub fn new() -> PositionSet
        ensures { (at : ℕ) → has result at ≡ false }
    {
        PositionSet { words: [0; 64] }
    }

    /// Puts a position in.
    pub fn insert(&mut self, at: u32)
        requires { at < FILE_LIMIT }
        ensures is { has self.new at ≡ true }
        ensures others { (other : ℕ) → other ≢ at → has self.new other ≡ has self.old other }
    {
        let word = at as usize / 64;
        self.words[word] = with_bit(self.words[word], at % 64);
    }

    /// Takes a position out.
    pub fn remove(&mut self, at: u32)
        requires { at < FILE_LIMIT }
        ensures is { has self.new at ≡ false }
        ensures others { (other : ℕ) → other ≢ at → has self.new other ≡ has self.old other }
    {
        let word = at as usize / 64;
        self.words[word] = without_bit(self.words[word], at % 64);
    }

    /// Puts all positions of another set in.
    pub fn add_all(&mut self, other: &PositionSet)
        ensures { (at : ℕ) → has self.new at ≡ (has self.old at || has other.now at) }
    {
        for word in 0..64usize {
            self.words[word] = self.words[word] | other.words[word];
        }
    }

    /// The least position that is in one of the words from one on.
    fn next_word(&self, start: usize) -> Option<u32>
        requires { start ≤ 64 }
        ensures { IsNext (has self.now) (start * 64) result }
    {
        for word in start..64usize {
            let bits = self.words[word];
            if bits != 0 {
                return Some(word as u32 * 64 + lowest_bit(bits));
            }
        }
        None
    }

    /// The least position of the set from one on.
    pub fn next_from(&self, from: u32) -> Option<u32>
        ensures { IsNext (has self.now) from result }
    {
        let word = from as usize / 64;
        if word >= 64 {
            return None;
        }
        let bits = moved_down(self.words[word], from % 64);
        if bits != 0 {
            return Some(from + lowest_bit(bits));
        }
        self.next_word(word + 1)
    }

    /// The positions of the set below an end, rising.
    pub fn positions_below(&self, alloc: Global, end: u32) -> Result<Positions, NoMemory>
        ensures { IfOk result (λ positions. positions ≡ filter (has self.now) (below end)) }
    {
        let mut positions = Positions::new(alloc);
        let mut from = 0;
        for _count in 0..end {
            let Some(next) = self.next_from(from) else {
                return Ok(positions);
            };
            if next >= end {
                return Ok(positions);
            }
            positions.push(next)?;
            from = next + 1;
        }
        Ok(positions)
    }
}
