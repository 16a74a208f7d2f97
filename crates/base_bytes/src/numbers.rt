//! Numbers of eight bytes each, where they are.

ghost use Rattle.std.specs.Prelude.{◌≡◌, ◌<◌, ◌≤◌, ◌+◌, ◌*◌, length, take, drop, slice_index};
ghost use Rattle.std.specs.Int.{w64, from_le_bytes};
ghost use Rattle.base_bytes.specs.Ranges.{counted_numbers};

use crate::ranges::rest_from;
use crate::{ByteRange, ByteReader};
use std::marker::Model;

/// Numbers of eight bytes each, the low byte first, borrowed from a payload. Contracts see their list.
#[derive(Drop)]
pub struct Numbers<'a> {
    bytes: &'a [u8],
}

impl<'a> Model for Numbers<'a> {
    ghost use Rattle.std.specs.Prelude.{List, ℕ};
    ghost use Rattle.base_bytes.specs.Ranges.{all_numbers};

    ghost Value = { List ℕ };

    ghost view = { λ a. all_numbers a.bytes.now };
}

impl<'a> Numbers<'a> {
    /// How many numbers there are.
    pub fn len(&self) -> usize
        ensures { result ≡ length self.now }
    {
        self.bytes.len() / 8
    }

    /// The number of an index.
    pub fn get(&self, index: usize) -> u64
        requires { index < length self.now }
        ensures { result ≡ slice_index self.now index }
    {
        number_from(self.bytes, index)
    }
}

/// The number of an index among numbers of eight bytes each.
fn number_from(bytes: &[u8], index: usize) -> u64
    requires { 8 * index + 8 ≤ length bytes.now }
    ensures { result ≡ from_le_bytes w64 (take 8 (drop (8 * index) bytes.now)) }
{
    let mut reader = ByteReader::new(rest_from(bytes, 8 * index));
    match reader.u64() {
        Some(number) => number,
        None => 0,
    }
}

/// The numbers that are counted from the start of a range, where they are there.
pub fn numbers_of(bytes: &[u8], range: ByteRange) -> Numbers<'_>
    ensures { result ≡ counted_numbers bytes.now range }
{
    let mut reader = ByteReader::new(rest_from(bytes, range.start));
    let Some(count) = reader.u32() else {
        return Numbers { bytes: &[] };
    };
    match reader.take(8 * count as usize) {
        Some(bytes) => Numbers { bytes },
        None => Numbers { bytes: &[] },
    }
}
