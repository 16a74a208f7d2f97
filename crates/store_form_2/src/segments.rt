//! The payloads that a store was opened with.

ghost use Rattle.std.specs.Prelude.{◌≡◌, ◌<◌, length, slice_get, Some};

use std::marker::Model;
use store_journal::Payloads;

/// Payloads in order, of which each is borrowed. Contracts see them.
#[derive(Drop)]
pub struct Segments {
    opened: Payloads,
}

impl Model for Segments {
    ghost use Rattle.store_form_2.specs.Locations.{SegmentList};

    ghost Value = { SegmentList };

    ghost view = { λ a. record { payloads = a.opened } };
}

impl Segments {
    /// The payloads that a store was opened with.
    pub fn of(opened: Payloads) -> Segments
        ensures { result.payloads ≡ opened }
    {
        Segments { opened }
    }

    /// The number of payloads.
    pub fn len(&self) -> usize
        ensures { result ≡ length self.now.payloads }
    {
        self.opened.len() as usize
    }

    /// The payload of a number.
    pub fn get(&self, number: usize) -> &[u8]
        requires { number < length self.now.payloads }
        ensures { slice_get self.now.payloads number ≡ Some result.now }
    {
        self.opened.get(number as u64)
    }
}
