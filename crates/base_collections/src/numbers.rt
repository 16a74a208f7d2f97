//! A set of numbers below a size: each is found, added, and all are removed, in a time that no number of them changes.

ghost use Rattle.std.specs.Prelude.{◌≡◌, ◌≢◌, ◌<◌, ◌≤◌, ◌+◌, [], AllPairs, OnOk, IfOk, OnErr};
ghost use Rattle.base_collections.specs.Numbers.{IsIndexOf, IsAdded};

use base::NoMemory;
use std::alloc::Global;
use std::marker::Model;

/// Numbers below a size, each at most once, in the order in which they were added. Contracts see the size and the
/// numbers.
#[derive(Drop)]
pub struct NumberSet {
    indices: Vec<usize>,
    numbers: Vec<usize>,
}

impl Model for NumberSet {
    ghost use Rattle.std.specs.Prelude.{length};
    ghost use Rattle.base_collections.specs.Numbers.{NumbersBelow, AreFound};

    ghost Value = { NumbersBelow };

    ghost view = { λ a. record { size = length a.indices.items; numbers = a.numbers.items } };

    ghost invariant = { λ a. AreFound a.indices.items a.numbers.items };
}

impl NumberSet {
    /// No number, of the size 0; this takes no memory.
    pub fn new(alloc: Global) -> NumberSet
        ensures { result ≡ record { size = 0; numbers = [] } }
    {
        NumberSet {
            indices: Vec::new(alloc),
            numbers: Vec::new(alloc),
        }
    }

    /// Removes all numbers. It takes no time.
    pub fn clear(&mut self)
        ensures { self.new ≡ record { size = self.old.size; numbers = [] } }
    {
        self.numbers.clear();
    }

    /// Makes the size one greater. After `NoMemory` the set is unchanged.
    pub fn grow(&mut self) -> Result<(), NoMemory>
        ensures ok { OnOk result
            (self.new ≡ record { size = self.old.size + 1; numbers = self.old.numbers }) }
        ensures err { OnErr result (self.new ≡ self.old) }
    {
        self.indices.push(0)?;
        Ok(())
    }

    /// Makes the size no less than another. The numbers are unchanged.
    pub fn grow_to(&mut self, size: usize) -> Result<(), NoMemory>
        ensures ok { OnOk result (size ≤ self.new.size) }
        ensures same { self.new.numbers ≡ self.old.numbers }
    {
        for _ in self.indices.len()..size {
            self.grow()?;
        }
        Ok(())
    }

    /// The numbers, in order. No two are the same.
    pub fn as_slice(&self) -> &[usize]
        ensures numbers { result.now ≡ self.now.numbers }
        ensures once { AllPairs (λ a b. a ≢ b) self.now.numbers }
    {
        &self.numbers
    }

    /// The index of a number in the order, if it is in the set.
    pub fn index_of(&self, number: usize) -> Option<usize>
        requires { number < self.now.size }
        ensures { IsIndexOf self.now.numbers number result }
    {
        let item_index = self.indices[number];
        if item_index < self.numbers.len() && self.numbers[item_index] == number {
            Some(item_index)
        } else {
            None
        }
    }

    /// Adds a number at the end, and says whether it is new. After `NoMemory` the set is unchanged.
    pub fn add(&mut self, number: usize) -> Result<bool, NoMemory>
        requires { number < self.old.size }
        ensures ok { IfOk result (λ is_new. IsAdded is_new number self.old self.new) }
        ensures err { OnErr result (self.new ≡ self.old) }
    {
        if self.index_of(number).is_some() {
            return Ok(false);
        }
        let item_index = self.numbers.len();
        self.numbers.push(number)?;
        self.indices[number] = item_index;
        Ok(true)
    }
}
