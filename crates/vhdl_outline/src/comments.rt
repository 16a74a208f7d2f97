//! The comment that asks for one simulation of all cases.

ghost use Rattle.std.specs.Prelude.{◌≡◌, ◌<◌, ◌≤◌, ℕ, Bool, false, List, MatchOption, length, slice_range};
ghost use Rattle.vhdl_spec.specs.Units.{AreTokensOf};
ghost use Rattle.vhdl_outline.specs.Calls.{after_pads, asks_same_sim, has_word_first, is_pad, is_same_sim};

use base::{Span, Tokens};

/// Whether a byte is a space or a tab.
fn is_pad(byte: u8) -> bool
    ensures { result ≡ is_pad byte }
{
    byte == b' ' || byte == b'\t'
}

/// The bytes after leading spaces and tabs.
fn after_pads(bytes: &[u8]) -> &[u8]
    ensures { result.now ≡ after_pads bytes.now }
{
    let mut rest = bytes;
    while let [first, others @ ..] = rest {
        if !is_pad(*first) {
            return rest;
        }
        rest = others;
    }
    rest
}

/// The bytes after a leading word and the spaces and tabs that follow it, or `None` if the bytes don't begin with the word.
fn after_word<'a>(word: &[u8], bytes: &'a [u8]) -> Option<&'a [u8]>
    ensures { MatchOption result
        ((test : List ℕ → Bool) → has_word_first word.now test bytes.now ≡ false)
        (λ rest. (test : List ℕ → Bool) →
        has_word_first word.now test bytes.now ≡ test rest.now) }
{
    if !bytes.starts_with(word) {
        return None;
    }
    Some(after_pads(&bytes[word.len()..]))
}

/// Whether a comment asks for one simulation, as VUnit spells it.
fn is_same_sim(comment: &[u8]) -> bool
    ensures { result ≡ is_same_sim comment.now }
{
    let Some(rest) = after_word(b"--", comment) else {
        return false;
    };
    let Some(rest) = after_word(b"vunit:", rest) else {
        return false;
    };
    let Some(rest) = after_word(b"run_all_in_same_sim", rest) else {
        return false;
    };
    rest.is_empty()
}

/// Whether the comment at some bytes of a text asks for one simulation.
fn asks_at(text: &[u8], span: Span) -> bool
    requires ordered { span.start ≤ span.end }
    requires within { span.end ≤ length text.now }
    ensures { result ≡ is_same_sim (slice_range text.now span.start span.end) }
{
    is_same_sim(&text[span.start as usize..span.end as usize])
}

/// Whether a line comment of a file asks for one simulation of all cases.
pub fn asks_same_sim(text: &[u8], tokens: &Tokens) -> bool
    requires { AreTokensOf text.now tokens.now }
    ensures { result ≡ asks_same_sim text.now tokens.now.comments }
{
    for span in tokens.comments.as_slice() {
        if asks_at(text, *span) {
            return true;
        }
    }
    false
}
