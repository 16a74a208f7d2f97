//! The fingerprint of a text: a number that texts of other bytes seldom share.

ghost use Rattle.std.specs.Prelude.{◌≡◌, ℕ, ◌+◌, ◌-◌, ◌*◌, ◌/◌, ◌<◌, ◌≤◌, length};
ghost use Rattle.base_collections.specs.Fingerprints.{fingerprint_of, word_at, mixed, with_segment, segment_start, fingerprinted, fingerprint_by_bytes};

/// An odd number, so that mixing loses nothing.
const MULTIPLIER: u64 = 0x9E37_79B9_7F4A_7C15;

/// A fingerprint with one more number mixed in.
#[tactic(auto, unfolding(crate::specs::Fingerprints::mixed))]
fn mix(fingerprint: u64, word: u64) -> u64
    ensures { result ≡ mixed fingerprint word }
{
    (fingerprint ^ word).wrapping_mul(MULTIPLIER)
}

/// The number of eight bytes from an offset on.
#[tactic(auto, unfolding(crate::specs::Fingerprints::word_at))]
fn word_at(text: &[u8], at: usize) -> u64
    requires { at + 8 ≤ length text.now }
    ensures { result ≡ word_at text.now at }
{
    u64::from_le_bytes([
        text[at],
        text[at + 1],
        text[at + 2],
        text[at + 3],
        text[at + 4],
        text[at + 5],
        text[at + 6],
        text[at + 7],
    ])
}

/// A fingerprint with the 16 bytes from an offset on.
#[tactic(auto, unfolding(crate::specs::Fingerprints::with_segment))]
fn with_segment(text: &[u8], fingerprint: u64, at: usize) -> u64
    requires { at + 16 ≤ length text.now }
    ensures { result ≡ with_segment text.now fingerprint at }
{
    mix(mix(fingerprint, word_at(text, at)), word_at(text, at + 8))
}

/// Where a segment begins, of 16 that are spread evenly.
#[tactic(auto, unfolding(crate::specs::Fingerprints::segment_start))]
fn segment_start(len: usize, segment: usize) -> usize
    requires long { 16 ≤ len }
    requires few { segment < 16 }
    ensures is { result ≡ segment_start len segment }
    ensures within { result + 16 ≤ len }
{
    segment * ((len - 16) / 15)
}

/// The fingerprint of a text of at least 16 bytes.
#[tactic(auto, unfolding(crate::specs::Fingerprints::fingerprinted))]
fn fingerprint_of_segments(text: &[u8]) -> u64
    requires { 16 ≤ length text.now }
    ensures { result ≡ fingerprinted text.now 16 }
{
    let mut fingerprint = text.len() as u64;
    for segment in 0..16 {
        fingerprint = with_segment(text, fingerprint, segment_start(text.len(), segment));
    }
    fingerprint
}

/// The fingerprint of a text of any length, byte by byte.
#[tactic(auto, unfolding(crate::specs::Fingerprints::fingerprint_by_bytes))]
fn fingerprint_of_bytes(text: &[u8]) -> u64
    ensures { result ≡ fingerprint_by_bytes text.now }
{
    let mut fingerprint = text.len() as u64;
    for byte in text {
        fingerprint = mix(fingerprint, *byte as u64);
    }
    fingerprint
}

/// The fingerprint of a text, made of its length and of 16 segments of 16 bytes that are spread evenly over it; of all bytes
/// where it has fewer than 16. It takes a time that the length of the text doesn't change.
#[tactic(auto, unfolding(crate::specs::Fingerprints::fingerprint_of))]
pub fn fingerprint_of(text: &[u8]) -> u64
    ensures { result ≡ fingerprint_of text.now }
{
    if text.len() < 16 {
        fingerprint_of_bytes(text)
    } else {
        fingerprint_of_segments(text)
    }
}
