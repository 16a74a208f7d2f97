//! The lines of bytes.

ghost use Rattle.std.specs.Prelude.{◌≡◌, ◌==◌, ◌+◌, [], ◌∷◌, length, IfSome, MatchOption, None, Some, position};
ghost use Rattle.std.specs.Option.{option_map};
ghost use Rattle.child_lines.specs.Lines.{after_word, lines};

/// The index of the first line feed.
fn line_feed(bytes: &[u8]) -> Option<usize>
    ensures { result ≡ position (λ byte. byte == 10) bytes.now }
{
    bytes.iter().position(|byte| *byte == b'\n')
}

/// The line before the first line feed, and the bytes after it; `None` if there is no line feed.
pub fn next_line(bytes: &[u8]) -> Option<(&[u8], &[u8])>
    ensures parts { MatchOption result
        (lines bytes.now ≡ bytes.now ∷ [])
        (λ next. lines bytes.now ≡ next.0.now ∷ lines next.1.now) }
    ensures less { IfSome result
        (λ next. length next.0.now + length next.1.now + 1 ≡ length bytes.now) }
{
    match line_feed(bytes) {
        None => None,
        Some(at) => Some((&bytes[..at], &bytes[at + 1..])),
    }
}

/// What comes after a word, where bytes begin with it.
#[tactic(auto, unfolding(crate::specs::Lines::after_word))]
pub fn after_word<'a>(word: &[u8], bytes: &'a [u8]) -> Option<&'a [u8]>
    ensures is { MatchOption result
        (after_word word.now bytes.now ≡ None)
        (λ rest. after_word word.now bytes.now ≡ Some rest.now) }
    ensures value { option_map (λ rest. rest.now) result ≡ after_word word.now bytes.now }
{
    if !bytes.starts_with(word) {
        return None;
    }
    Some(&bytes[word.len()..])
}
