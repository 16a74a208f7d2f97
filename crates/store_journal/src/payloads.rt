//! The list of payloads, each in a buffer of its own.

ghost use Rattle.std.specs.Prelude.{◌≡◌, ◌<◌, ◌^◌, ◌++◌, ◌==◌, [], ◌∷◌, length, slice_get, Some, OnOk, OnErr};

use base::{NoMemory, Text};
use std::alloc::Global;
use std::marker::Model;

/// Payloads of a journal, in order, each of fewer than 2^32 bytes. Each has a buffer of just its bytes, so that memory
/// which was given back in segments serves for them. Contracts see their list.
#[derive(Drop)]
pub struct Payloads {
    list: Vec<Text>,
}

impl Model for Payloads {
    ghost use Rattle.std.specs.Prelude.{List, ℕ, ◌<◌, ◌^◌, length, All};

    ghost Value = { List (List ℕ) };

    ghost view = { λ a. a.list.items };

    ghost invariant = { λ a. All (λ payload. length payload < 2 ^ 32) a.list.items };
}

impl Payloads {
    /// No payload, which takes no memory.
    pub fn new(alloc: Global) -> Payloads
        ensures { result ≡ [] }
    {
        Payloads {
            list: Vec::new(alloc),
        }
    }

    /// The number of payloads.
    pub fn len(&self) -> u64
        ensures len { result ≡ length self.now }
        ensures small { result < 2 ^ 63 }
    {
        self.list.len() as u64
    }

    /// Whether there is no payload.
    pub fn is_empty(&self) -> bool
        ensures { result ≡ (length self.now == 0) }
    {
        self.list.is_empty()
    }

    /// The bytes of the payload at a position, counted from 0, borrowed.
    pub fn get(&self, i: u64) -> &[u8]
        requires { i < length self.now }
        ensures payload { slice_get self.now i ≡ Some result.now }
        ensures small { length result.now < 2 ^ 32 }
    {
        self.list[i as usize].bytes()
    }

    /// Adds a copy of a payload at the end. After `NoMemory` the list is unchanged.
    pub fn push(&mut self, alloc: Global, payload: &[u8]) -> Result<(), NoMemory>
        requires { length payload.now < 2 ^ 32 }
        ensures ok { OnOk result (self.new ≡ self.old ++ payload.now ∷ []) }
        ensures err { OnErr result (self.new ≡ self.old) }
    {
        let copy = Text::from_slice(alloc, payload)?;
        self.list.push(copy)?;
        Ok(())
    }
}
