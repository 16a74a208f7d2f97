//! The bits of one word.

ghost use Rattle.std.specs.Prelude.{◌≡◌, ◌≢◌, ℕ, ◌+◌, ◌<◌, ◌≤◌};
ghost use Rattle.std.specs.Int.{bit_at};

/// The number of the lowest bit of a word that isn't 0.
pub(crate) fn lowest_bit(word: u64) -> u32
    requires { 0 < word }
    ensures within { result < 64 }
    ensures is { bit_at word result ≡ 1 }
    ensures low { (i : ℕ) → i < result → bit_at word i ≡ 0 }
{
    word.trailing_zeros()
}

/// The word with a bit more.
pub(crate) fn with_bit(word: u64, k: u32) -> u64
    requires { k < 64 }
    ensures is { bit_at result k ≡ 1 }
    ensures others { (i : ℕ) → i ≢ k → bit_at result i ≡ bit_at word i }
{
    word | 1 << k
}

/// The word without a bit.
pub(crate) fn without_bit(word: u64, k: u32) -> u64
    requires { k < 64 }
    ensures is { bit_at result k ≡ 0 }
    ensures others { (i : ℕ) → i < 64 → i ≢ k → bit_at result i ≡ bit_at word i }
{
    word & !(1 << k)
}

/// The word without its first `by` bits: each other bit is moved down by `by` indices.
pub(crate) fn moved_down(word: u64, by: u32) -> u64
    requires { by < 64 }
    ensures down { (i : ℕ) → bit_at result i ≡ bit_at word (by + i) }
    ensures above { (i : ℕ) → 64 ≤ by + i → bit_at result i ≡ 0 }
{
    word >> by
}
