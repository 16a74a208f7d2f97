//! Words of a compiler, where they are, and whether they are a command.

ghost use Rattle.std.specs.Prelude.{◌≡◌, ◌↔◌, ◌<◌, ◌≤◌, length, All, IsTrue};
ghost use Rattle.base.specs.Names.{FitsCommand};
ghost use Rattle.base_bytes.specs.Ranges.{counted_words};

use crate::ranges::rest_from;
use crate::{ByteRange, ByteReader};
use base::{COMMAND_LIMIT, Text, TextList, WORD_LIMIT};

fn are_short(words: &[Text]) -> bool
    ensures { IsTrue result ↔ All (λ word. length word ≤ WORD_LIMIT) words.now }
{
    for word in words {
        if word.bytes().len() > WORD_LIMIT {
            return false;
        }
    }
    true
}

/// Whether words are a command: 1 to 64 of at most 1,024 bytes each.
pub fn is_command_within_limits(command: &TextList) -> bool
    ensures { IsTrue result ↔ FitsCommand command.now }
{
    let words = command.as_slice();
    1 <= words.len() && words.len() <= COMMAND_LIMIT && are_short(words)
}

/// Whether the words that are counted from the start of a range are a command: 1 to 64 of at most 1,024 bytes each.
pub fn has_word_sizes(bytes: &[u8], range: ByteRange) -> bool
    ensures { IsTrue result ↔ FitsCommand (counted_words bytes.now range) }
{
    let mut reader = ByteReader::new(rest_from(bytes, range.start));
    let Some(count) = reader.u32() else {
        return false;
    };
    if count < 1 {
        return false;
    }
    if count as usize > COMMAND_LIMIT {
        return false;
    }
    for _ in 0..count {
        let Some(word) = reader.text() else {
            return false;
        };
        if word.len() > WORD_LIMIT {
            return false;
        }
    }
    true
}

/// Whether the words that are counted from the start of a range are these.
pub fn has_words(bytes: &[u8], range: ByteRange, words: &TextList) -> bool
    requires { 0 < length words.now }
    ensures { IsTrue result ↔ (counted_words bytes.now range ≡ words.now) }
{
    let words = words.as_slice();
    let mut reader = ByteReader::new(rest_from(bytes, range.start));
    let Some(count) = reader.u32() else {
        return false;
    };
    if count as usize != words.len() {
        return false;
    }
    for word in words {
        let Some(text) = reader.text() else {
            return false;
        };
        if text != word.bytes() {
            return false;
        }
    }
    true
}
