//! The texts of a store, as locations in its payloads.

ghost use Rattle.std.specs.Prelude.{◌≡◌, ◌<◌, ◌++◌, ◌∷◌, [], length, OnOk};
ghost use Rattle.base_collections.specs.Numbers.{IsIndexOf};
ghost use Rattle.store_form_2.specs.Locations.{AreTexts, HasTextRoom, text_in, texts_in};

use crate::Segments;
use base::NoMemory;
use base_bytes::{ByteRange, bytes_in};
use base_collections::{FingerprintIndex, fingerprint_of};
use std::alloc::Global;

/// Where a text is: the number of its payload, and its bytes there.
#[derive(Clone, Copy)]
pub struct TextLocation {
    pub payload: usize,
    pub span: ByteRange,
}

/// Texts, each once, numbered from 0 in the order in which they came, and found by their fingerprints.
#[derive(Drop)]
pub struct TextLocations {
    pub locations: Vec<TextLocation>,
    pub fingerprints: FingerprintIndex,
}

impl TextLocations {
    /// No text, which takes no memory.
    pub fn new(alloc: Global) -> TextLocations
        ensures locations { result.locations.items ≡ [] }
        ensures fingerprints { result.fingerprints.fingerprints ≡ [] }
    {
        TextLocations {
            locations: Vec::new(alloc),
            fingerprints: FingerprintIndex::new(alloc),
        }
    }

    /// Makes room for one more text. The texts are unchanged.
    pub fn reserve(&mut self) -> Result<(), NoMemory>
        ensures locations { self.new.locations.items ≡ self.old.locations.items }
        ensures fingerprints { self.new.fingerprints.fingerprints ≡ self.old.fingerprints.fingerprints }
        ensures room { OnOk result (HasTextRoom self.new) }
    {
        self.locations.reserve(1)?;
        self.fingerprints.reserve()
    }

    /// Adds a text of a fingerprint at the end. It takes no memory.
    pub fn put(&mut self, location: TextLocation, fingerprint: u64)
        requires { HasTextRoom self.old }
        ensures locations { self.new.locations.items ≡ self.old.locations.items ++ location ∷ [] }
        ensures fingerprints { self.new.fingerprints.fingerprints ≡ self.old.fingerprints.fingerprints ++ fingerprint ∷ [] }
    {
        self.locations.push_reserved(location);
        self.fingerprints.put(fingerprint);
    }
}

/// The bytes of a text.
pub fn text_at(segments: &Segments, location: TextLocation) -> &[u8]
    requires { location.payload < length segments.now.payloads }
    ensures { result.now ≡ text_in segments.now.payloads location }
{
    bytes_in(segments.get(location.payload), location.span)
}

/// The number of a text, if it is there. Only texts of the same fingerprint are compared with it.
pub fn find_text(segments: &Segments, texts: &TextLocations, text: &[u8]) -> Option<usize>
    requires { AreTexts segments.now.payloads texts.now }
    ensures { IsIndexOf (texts_in segments.now.payloads texts.now) text.now result }
{
    let mut candidate = texts.fingerprints.last(fingerprint_of(text));
    while let Some(number) = candidate {
        if text_at(segments, texts.locations[number]) == text {
            return Some(number);
        }
        candidate = texts.fingerprints.earlier(number);
    }
    None
}
