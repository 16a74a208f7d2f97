//! A list with room that was made before.

ghost use Rattle.std.specs.Prelude.{◌≡◌, ◌+◌, ◌≤◌, ◌<◌, ◌++◌, [], ◌∷◌, length, slice_get, Some, OnOk, OnErr};

use base::NoMemory;
use std::alloc::Global;
use std::marker::Model;

/// A list with room. Contracts see its items, in order, and how many it holds before it takes memory again.
#[derive(Drop)]
pub struct RoomItems<T> {
    list: Vec<T>,
}

impl<T> Model for RoomItems<T> {
    ghost use Rattle.std.specs.Prelude.{vec_capacity};
    ghost use Rattle.memory_outside.specs.Rooms.{Roomy};

    ghost Value = { Roomy T };

    ghost view = { λ a. record { items = a.list.items; room = vec_capacity a.list } };
}

impl<T> RoomItems<T> {
    /// The empty list, which takes no memory.
    pub fn new(alloc: Global) -> RoomItems<T>
        ensures { result.items ≡ [] }
    {
        RoomItems {
            list: Vec::new(alloc),
        }
    }

    /// The items, in order.
    pub fn as_slice(&self) -> &[T]
        ensures { result.now ≡ self.now.items }
    {
        self.list.as_slice()
    }

    /// The number of items.
    pub fn len(&self) -> u64
        ensures { result ≡ length self.now.items }
    {
        self.list.len() as u64
    }

    /// The item at an index, counted from 0.
    pub fn get(&self, i: u64) -> &T
        requires { i < length self.now.items }
        ensures { slice_get self.now.items i ≡ Some result.now }
    {
        &self.list[i as usize]
    }

    /// Makes room for `more` more items. After `NoMemory` the list is unchanged.
    pub fn reserve(&mut self, more: usize) -> Result<(), NoMemory>
        ensures items { self.new.items ≡ self.old.items }
        ensures room { OnOk result (length self.old.items + more ≤ self.new.room) }
        ensures stands { OnErr result (self.new.room ≡ self.old.room) }
    {
        self.list.reserve(more)?;
        Ok(())
    }
}

impl<T: Drop> RoomItems<T> {
    /// Adds an item at the end, where there is room for it.
    pub fn push_within(&mut self, item: T)
        requires { length self.old.items < self.old.room }
        ensures items { self.new.items ≡ self.old.items ++ item ∷ [] }
        ensures room { self.old.room ≤ self.new.room }
    {
        let Ok(()) = self.list.push(item) else {
            unreachable!()
        };
    }

    /// Adds an item at the end. After `NoMemory` the list is unchanged.
    pub fn push(&mut self, item: T) -> Result<(), NoMemory>
        ensures ok { OnOk result (self.new.items ≡ self.old.items ++ item ∷ []) }
        ensures err { OnErr result (self.new.items ≡ self.old.items) }
    {
        self.list.push(item)?;
        Ok(())
    }
}
