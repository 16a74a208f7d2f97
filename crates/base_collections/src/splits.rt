//! Where two texts differ.

ghost use Rattle.std.specs.Prelude.{◌≡◌, ◌≢◌, ℕ, ◌<◌, ◌≤◌, min, length, slice_index};
ghost use Rattle.base_collections.specs.Splits.{Parts, value_at};

/// Where a text leaves the text of a lower number: a point at which that one has a value, and this one doesn't.
#[derive(Clone, Copy)]
pub struct Split {
    pub of: usize,
    pub point: usize,
    pub value: u8,
}

/// What a text has at a point: half of a byte, the low half first, or 16 past its end.
#[tactic(auto, unfolding(crate::specs::Splits::value_at))]
pub fn value_at(text: &[u8], point: usize) -> u8
    ensures { result ≡ value_at text.now point }
{
    if point / 2 >= text.len() {
        return 16;
    }
    let byte = text[point / 2];
    if point % 2 == 0 { byte % 16 } else { byte / 16 }
}

/// The length of the shorter one of two texts.
fn shorter(a: &[u8], b: &[u8]) -> usize
    ensures { result ≡ min (length a.now) (length b.now) }
{
    if a.len() < b.len() { a.len() } else { b.len() }
}

/// The first byte at which two texts differ, or the length of the shorter one.
fn first_difference(a: &[u8], b: &[u8]) -> usize
    ensures same { (k : ℕ) → k < result → slice_index a.now k ≡ slice_index b.now k }
    ensures within_a { result ≤ length a.now }
    ensures within_b { result ≤ length b.now }
    ensures other { result < length a.now → result < length b.now →
        slice_index a.now result ≢ slice_index b.now result }
{
    let len = shorter(a, b);
    for at in 0..len {
        if a[at] != b[at] {
            return at;
        }
    }
    len
}

/// A point at which two texts differ.
fn differing_point(old: &[u8], new: &[u8]) -> usize
    requires { old.now ≢ new.now }
    ensures { value_at old.now result ≢ value_at new.now result }
{
    let at = first_difference(old, new);
    if value_at(old, 2 * at) != value_at(new, 2 * at) {
        2 * at
    } else {
        2 * at + 1
    }
}

/// The split at which a new text leaves the text of a number.
pub fn split_between(of: usize, old: &[u8], new: &[u8]) -> Split
    requires { old.now ≢ new.now }
    ensures of { result.of ≡ of }
    ensures parts { Parts old.now new.now result }
{
    let point = differing_point(old, new);
    Split {
        of,
        point,
        value: value_at(old, point),
    }
}
