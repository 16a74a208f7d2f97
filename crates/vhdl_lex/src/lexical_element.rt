//! The lexical element at an offset of a text: a gap, a line comment or a token, or what has no end.

ghost use Rattle.std.specs.Prelude.{◌≡◌, ◌≢◌, ◌<◌, ◌≤◌, ◌^◌, length, slice_index, Option};
ghost use Rattle.base.specs.declared.lexical.Token.{Token};
ghost use Rattle.vhdl_spec.specs.Tokens.{is_tick_at, is_word_byte};
ghost use Rattle.vhdl_lex.specs.Ends.{AreStops};
ghost use Rattle.vhdl_lex.specs.LexicalElements.{IsFound, LastIsIn, last_of};

use crate::class::is_plain;
use crate::ends::{comment_end, end_after_delimiter, line_end, number_end, word_end, word_end_by};
use crate::reserved::is_reserved;
use base::{LexFault, TEXT_LIMIT, Token, TokenKind};

/// What is at an offset. Each but the last ends before a byte.
pub enum Found {
    Gap(usize),
    /// A line comment.
    Comment(usize),
    Lexeme(TokenKind, usize),
    Unclosed(LexFault),
}

/// Whether an apostrophe after this token is a tick.
#[inline(never)]
fn is_tick_at(text: &[u8], last: Option<Token>) -> bool
    requires { LastIsIn text.now last }
    ensures { result ≡ is_tick_at text.now last }
{
    let Some(token) = last else { return false };
    match token.kind {
        TokenKind::Word => {
            let word = &text[token.start as usize..token.end as usize];
            !is_reserved(word)
                || word.eq_ignore_ascii_case(b"all")
                || word.eq_ignore_ascii_case(b"subtype")
        }
        TokenKind::Symbol => {
            let byte = text[token.start as usize];
            byte == b')' || byte == b']'
        }
        TokenKind::Extended | TokenKind::Str | TokenKind::Char => true,
        TokenKind::Number | TokenKind::Tick | TokenKind::High => false,
    }
}

/// At a dash: a line comment or a delimiter.
#[inline(always)]
fn dash_at(text: &[u8], at: usize) -> Found
    requires dash { slice_index text.now at ≡ 45 }
    requires within { at < length text.now }
    ensures { (last : Option Token) → IsFound text.now last at result }
{
    if at + 1 < text.len() && text[at + 1] == b'-' {
        Found::Comment(line_end(text, at + 1))
    } else {
        Found::Lexeme(TokenKind::Symbol, at + 1)
    }
}

/// At a slash: a block comment or a delimiter.
#[inline(always)]
fn slash_at(text: &[u8], at: usize) -> Found
    requires slash { slice_index text.now at ≡ 47 }
    requires within { at < length text.now }
    requires small { length text.now < 2 ^ 32 }
    ensures { (last : Option Token) → IsFound text.now last at result }
{
    if at + 1 < text.len() && text[at + 1] == b'*' {
        match comment_end(text, at) {
            Some(end) => Found::Gap(end),
            None => Found::Unclosed(LexFault::UnclosedComment { at: at as u32 }),
        }
    } else {
        Found::Lexeme(TokenKind::Symbol, at + 1)
    }
}

/// At a quotation delimiter: a string.
#[inline(always)]
fn quote_at(text: &[u8], at: usize) -> Found
    requires quote { slice_index text.now at ≡ 34 }
    requires within { at < length text.now }
    requires small { length text.now < 2 ^ 32 }
    ensures { (last : Option Token) → IsFound text.now last at result }
{
    match end_after_delimiter(text, at, b'"') {
        Some(end) => Found::Lexeme(TokenKind::Str, end),
        None => Found::Unclosed(LexFault::UnclosedString { at: at as u32 }),
    }
}

/// At a backslash: an extended identifier.
#[inline(always)]
fn backslash_at(text: &[u8], at: usize) -> Found
    requires backslash { slice_index text.now at ≡ 92 }
    requires within { at < length text.now }
    requires small { length text.now < 2 ^ 32 }
    ensures { (last : Option Token) → IsFound text.now last at result }
{
    match end_after_delimiter(text, at, b'\\') {
        Some(end) => Found::Lexeme(TokenKind::Extended, end),
        None => Found::Unclosed(LexFault::UnclosedExtended { at: at as u32 }),
    }
}

/// At an apostrophe: a character literal or a tick.
#[inline(always)]
fn apostrophe_at(text: &[u8], last: Option<Token>, at: usize) -> Found
    requires apostrophe { slice_index text.now at ≡ 39 }
    requires within { at < length text.now }
    requires last { LastIsIn text.now last }
    ensures { IsFound text.now last at result }
{
    if at + 2 < text.len() && text[at + 2] == b'\'' && !is_tick_at(text, last) {
        Found::Lexeme(TokenKind::Char, at + 3)
    } else {
        Found::Lexeme(TokenKind::Tick, at + 1)
    }
}

/// At a byte over 127: the byte order mark at the start of the text, or a token of kind `High`.
fn high_at(text: &[u8], at: usize) -> Found
    requires high { 128 ≤ slice_index text.now at }
    requires within { at < length text.now }
    ensures { (last : Option Token) → IsFound text.now last at result }
{
    if at == 0 && text.len() >= 3 && text[0] == 0xEF && text[1] == 0xBB && text[2] == 0xBF {
        Found::Gap(3)
    } else {
        Found::Lexeme(TokenKind::High, at + 1)
    }
}

/// The lexical element at `at`, after the token `last`.
#[inline(always)]
fn lexical_element_at(text: &[u8], last: Option<Token>, at: usize) -> Found
    requires within { at < length text.now }
    requires small { length text.now < 2 ^ 32 }
    requires last { LastIsIn text.now last }
    ensures { IsFound text.now last at result }
{
    match text[at] {
        b'a'..=b'z' | b'A'..=b'Z' => Found::Lexeme(TokenKind::Word, word_end(text, at + 1)),
        9..=13 | b' ' => Found::Gap(at + 1),
        b'0'..=b'9' => Found::Lexeme(TokenKind::Number, number_end(text, at + 1)),
        b'\'' => apostrophe_at(text, last, at),
        b'-' => dash_at(text, at),
        b'/' => slash_at(text, at),
        b'"' => quote_at(text, at),
        b'\\' => backslash_at(text, at),
        b'`' => Found::Gap(line_end(text, at + 1)),
        128..=255 => high_at(text, at),
        _ => Found::Lexeme(TokenKind::Symbol, at + 1),
    }
}

/// The last of some tokens.
#[inline(always)]
fn last_of(tokens: &[Token]) -> Option<Token>
    ensures { result ≡ last_of tokens.now }
{
    tokens.last().copied()
}

/// The lexical element at `at`, after the tokens of all lexical elements before it. Words and plain delimiters are most of a text, so they
/// are tried first. `stops` tells of 64 bytes from `base` on which aren't of a word.
#[inline(always)]
pub fn next_lexical_element(
    text: &[u8],
    tokens: &[Token],
    at: usize,
    base: usize,
    stops: u64,
) -> Found
    requires within { at < length text.now }
    requires small { length text.now ≤ TEXT_LIMIT }
    requires last { LastIsIn text.now (last_of tokens.now) }
    requires ordered { base ≤ at }
    requires stops { AreStops is_word_byte text.now base stops }
    ensures { IsFound text.now (last_of tokens.now) at result }
{
    let byte = text[at];
    if byte.is_ascii_alphabetic() {
        Found::Lexeme(TokenKind::Word, word_end_by(text, at + 1, base, stops))
    } else if is_plain(byte) {
        Found::Lexeme(TokenKind::Symbol, at + 1)
    } else {
        lexical_element_at(text, last_of(tokens), at)
    }
}
