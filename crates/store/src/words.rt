//! The bytes that spell the words of a compiler.

ghost use Rattle.std.specs.Prelude.{◌≡◌, ◌≤◌, length};
ghost use Rattle.base.specs.Names.{FitsCommand};
ghost use Rattle.store_codec.specs.Forms.{command_bytes};
ghost use Rattle.base_bytes.specs.Ranges.{counted_words};
ghost use Rattle.store.specs.Words.{first_words};

use base_bytes::{ByteRange, ByteReader, bytes_in};

/// The bytes of the words that are counted from the start of some bytes, behind their number.
fn words_first(bytes: &[u8]) -> &[u8]
    requires { FitsCommand (first_words bytes.now) }
    ensures { result.now ≡ command_bytes (first_words bytes.now) }
{
    let mut reader = ByteReader::new(bytes);
    let Some(count) = reader.u32() else {
        unreachable!();
    };
    for _ in 0..count {
        let Some(_word) = reader.text() else {
            unreachable!();
        };
    }
    let left = reader.rest().len();
    &bytes[..bytes.len() - left]
}

/// The bytes of the words that are counted from the start of a range, behind their number.
pub fn spelled_in(bytes: &[u8], range: ByteRange) -> &[u8]
    requires { FitsCommand (counted_words bytes.now range) }
    ensures is { result.now ≡ command_bytes (counted_words bytes.now range) }
    ensures small { length result.now ≤ 65796 }
{
    let rest = bytes_in(
        bytes,
        ByteRange {
            start: range.start,
            count: bytes.len(),
        },
    );
    words_first(rest)
}
