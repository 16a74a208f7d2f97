//! The bytes of a text, 64 at once: a bit for each at which a run of bytes stops.

ghost use Rattle.std.specs.Prelude.{◌≡◌, ◌+◌, ◌≤◌, IfSome, length};
ghost use Rattle.vhdl_spec.specs.Tokens.{is_blank, is_word_byte};
ghost use Rattle.vhdl_lex.specs.Ends.{AreStops, IsStopFrom};

use base::TEXT_LIMIT;
use std::simd::prelude::*;

const LANES: usize = 64;

/// The first offset from `from` on whose bit is set, where the first of 64 bits is that of the offset `base`.
#[inline(always)]
pub fn stop_from(from: usize, base: usize, stops: u64) -> Option<usize>
    requires ordered { base ≤ from }
    requires small { from ≤ TEXT_LIMIT }
    ensures { IfSome result (IsStopFrom from base stops) }
{
    let passed = from - base;
    if passed >= LANES {
        return None;
    }
    let rest = stops >> passed;
    if rest == 0 {
        return None;
    }
    Some(from + rest.trailing_zeros() as usize)
}

/// The bytes among the 64 from `base` on that aren't of a word: a bit each, the first one lowest.
#[inline(always)]
fn word_mask(text: &[u8], base: usize) -> u64
    requires { base + LANES ≤ length text.now }
    ensures { AreStops is_word_byte text.now base result }
{
    let bytes = u8x64::from_slice(&text[base..]);
    let from_a = (bytes | u8x64::splat(0x20)) - u8x64::splat(b'a');
    let from_0 = bytes - u8x64::splat(b'0');
    let is_other = from_a.simd_ge(u8x64::splat(26))
        & from_0.simd_ge(u8x64::splat(10))
        & bytes.simd_ne(u8x64::splat(b'_'));
    is_other.to_bitmask()
}

/// The bytes among the 64 from `base` on that aren't blank: a bit each, the first one lowest.
#[inline(always)]
fn gap_mask(text: &[u8], base: usize) -> u64
    requires { base + LANES ≤ length text.now }
    ensures { AreStops is_blank text.now base result }
{
    let bytes = u8x64::from_slice(&text[base..]);
    let from_tab = bytes - u8x64::splat(9);
    let is_other = from_tab.simd_ge(u8x64::splat(5)) & bytes.simd_ne(u8x64::splat(b' '));
    is_other.to_bitmask()
}

/// A bit for each byte that isn't of a word among the 64 from `base` on, or 0 if fewer than 64 bytes are left.
#[inline(never)]
pub fn word_stops(text: &[u8], base: usize) -> u64
    requires { base ≤ length text.now }
    ensures { AreStops is_word_byte text.now base result }
{
    if text.len() - base >= LANES {
        word_mask(text, base)
    } else {
        0
    }
}

/// A bit for each byte that isn't blank among the 64 from `base` on, or 0 if fewer than 64 bytes are left.
#[inline(always)]
pub fn gap_stops(text: &[u8], base: usize) -> u64
    requires { base ≤ length text.now }
    ensures { AreStops is_blank text.now base result }
{
    if text.len() - base >= LANES {
        gap_mask(text, base)
    } else {
        0
    }
}
