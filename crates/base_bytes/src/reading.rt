//! Reading the parts of a payload as ranges of its bytes: nothing is copied.

ghost use Rattle.std.specs.Prelude.{◌≤◌, ◌+◌, ◌*◌, length, drop};
ghost use Rattle.std.specs.Int.{w32, w64};
ghost use Rattle.base_bytes.specs.Reading.{number_at, text_at, counted_at};
ghost use Rattle.base_bytes.specs.Ranges.{ranged, counted_words, counted_numbers, byte_at, IsRangeAt, IsReadAt};

use crate::{ByteRange, ByteReader};

/// The byte at an offset.
pub fn byte_range(bytes: &[u8], at: usize) -> Option<(u8, usize)>
    requires { at ≤ length bytes.now }
    ensures { IsReadAt at (λ byte. byte) bytes.now result (byte_at (drop at bytes.now)) }
{
    if at >= bytes.len() {
        return None;
    }
    Some((bytes[at], at + 1))
}

/// A text from an offset on.
pub fn text_range(bytes: &[u8], at: usize) -> Option<ByteRange>
    requires { at ≤ length bytes.now }
    ensures { IsRangeAt at (ranged bytes.now) bytes.now result (text_at (drop at bytes.now)) }
{
    let mut reader = ByteReader::new(&bytes[at..]);
    let Some(text) = reader.text() else {
        return None;
    };
    Some(ByteRange {
        start: at + 4,
        count: text.len(),
    })
}

/// A number of eight bytes from an offset on.
pub fn number_range(bytes: &[u8], at: usize) -> Option<(u64, usize)>
    requires { at ≤ length bytes.now }
    ensures { IsReadAt at (λ number. number) bytes.now result (number_at w64 (drop at bytes.now)) }
{
    let mut reader = ByteReader::new(&bytes[at..]);
    let Some(number) = reader.u64() else {
        return None;
    };
    Some((number, at + 8))
}

/// A number of four bytes from an offset on.
pub fn count_range(bytes: &[u8], at: usize) -> Option<(u32, usize)>
    requires { at ≤ length bytes.now }
    ensures { IsReadAt at (λ number. number) bytes.now result (number_at w32 (drop at bytes.now)) }
{
    let mut reader = ByteReader::new(&bytes[at..]);
    let Some(number) = reader.u32() else {
        return None;
    };
    Some((number, at + 4))
}

/// Words after their number, from an offset on.
pub fn words_range(bytes: &[u8], at: usize) -> Option<ByteRange>
    requires { at ≤ length bytes.now }
    ensures { IsRangeAt at (counted_words bytes.now) bytes.now result
        (counted_at text_at (drop at bytes.now)) }
{
    let Some((count, first)) = count_range(bytes, at) else {
        return None;
    };
    let mut next = first;
    for _ in 0..count {
        let Some(text) = text_range(bytes, next) else {
            return None;
        };
        next = text.start + text.count;
    }
    Some(ByteRange {
        start: at,
        count: next - at,
    })
}

/// Numbers of eight bytes after their number, from an offset on. It takes a time that their number doesn't change.
pub fn numbers_range(bytes: &[u8], at: usize) -> Option<ByteRange>
    requires { at ≤ length bytes.now }
    ensures { IsRangeAt at (counted_numbers bytes.now) bytes.now result
        (counted_at (number_at w64) (drop at bytes.now)) }
{
    let Some((count, first)) = count_range(bytes, at) else {
        return None;
    };
    let size = 8 * count as usize;
    if bytes.len() - first < size {
        return None;
    }
    Some(ByteRange {
        start: at,
        count: 4 + size,
    })
}
