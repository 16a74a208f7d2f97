//! The visitor that takes the payloads of a journal while the journal is read.

ghost use Rattle.std.specs.Prelude.{◌≡◌, ℕ, List, ◌<◌, ◌^◌, ◌++◌, [], ◌∷◌, length, OnOk};

use crate::Payloads;
use base::NoMemory;
use std::alloc::Global;

/// Takes the payloads of a journal, one after the other, while the journal is read.
pub trait Visitor: Sized {
    /// The payloads that it has taken.
    ghost taken: { Self → List (List ℕ) };

    /// The texts that it may lend of what it takes, which no payload changes.
    ghost borrows: { Self → List (List ℕ) };

    /// Takes the next payload, which is borrowed for this call.
    fn take(&mut self, alloc: Global, payload: &[u8]) -> Result<(), NoMemory>
        requires { length payload.now < 2 ^ 32 }
        ensures taken { OnOk result (taken self.new ≡ taken self.old ++ payload.now ∷ []) }
        ensures borrows { OnOk result (borrows self.new ≡ borrows self.old) };
}

/// A copy of each.
impl Visitor for Payloads {
    ghost taken = { λ payloads. payloads };

    ghost borrows = { λ payloads. [] };

    fn take(&mut self, alloc: Global, payload: &[u8]) -> Result<(), NoMemory> {
        self.push(alloc, payload)
    }
}
