//! Parts of some bytes.

ghost use Rattle.std.specs.Prelude.{◌≡◌, drop};
ghost use Rattle.base_bytes.specs.Ranges.{ranged};

/// A part of some bytes: its first byte, and the number of its bytes.
#[derive(Clone, Copy)]
pub struct ByteRange {
    pub start: usize,
    pub count: usize,
}

/// The bytes from an offset on, none past the end.
pub(crate) fn rest_from(bytes: &[u8], at: usize) -> &[u8]
    ensures { result.now ≡ drop at bytes.now }
{
    if at >= bytes.len() {
        return &[];
    }
    &bytes[at..]
}

/// The bytes of a range. If the bytes end before the range does, only the bytes up to their end.
pub fn bytes_in(bytes: &[u8], range: ByteRange) -> &[u8]
    ensures { result.now ≡ ranged bytes.now range }
{
    let rest = rest_from(bytes, range.start);
    if range.count >= rest.len() {
        return rest;
    }
    &rest[..range.count]
}
