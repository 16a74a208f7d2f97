//! The set of names of files seen so far.
//! Sets of positions of files, as bits.
//! Things by number: keys in the order in which they came, and sets of numbers.
//! Fingerprints of texts, and an index from fingerprints to the numbers of those texts that have them.
//! An index of texts that are stored elsewhere. A lookup is one walk over halves of a text's bytes, which ends at the only number
//! that the text can have. The text is then compared once, whatever the other texts are.
//! Keys by number and values by key, found in n log n of time whatever the keys are.
#![tactic(auto)]

mod fingerprint_index;
mod fingerprints;
mod laws;
mod map;
mod names;
mod numbered_keys;
mod numbers;
mod ordered_keys;
mod set;
mod splits;
mod table;
mod text_index;
mod words;

pub use fingerprint_index::FingerprintIndex;
pub use fingerprints::fingerprint_of;
pub use laws::laws_of_splits;
pub use map::KeyMap;
pub use names::NameSet;
pub use numbered_keys::{Numbered, NumberedKey};
pub use numbers::NumberSet;
pub use ordered_keys::{Key, KeyNumbers};
pub use set::PositionSet;
pub use splits::{Split, split_between, value_at};
pub use text_index::TextIndex;
