//! Tokens, their spans, and the faults of a scan.

use crate::Items;
use thiserror::Error;

/// The kinds of tokens (IEEE Std 1076-2008, clause 15.3).
#[derive(Clone, Copy, Debug, PartialEq, Eq)]
pub enum TokenKind {
    /// A basic identifier or a reserved word.
    Word,
    /// An extended identifier.
    Extended,
    /// An abstract literal, or what begins as one.
    Number,
    /// A string literal, also that of a bit string literal.
    Str,
    /// A character literal.
    Char,
    /// The apostrophe of an attribute name or of a qualified expression.
    Tick,
    /// A delimiter, one byte at a time.
    Symbol,
    /// A byte of 128 to 255.
    High,
}

/// A token: its kind, and its bytes in the text from `start` up to `end`.
#[derive(Clone, Copy, Debug, PartialEq, Eq)]
pub struct Token {
    pub kind: TokenKind,
    pub start: u32,
    pub end: u32,
}

/// Bytes of a text, from `start` up to `end`.
#[derive(Clone, Copy, Debug, PartialEq, Eq)]
pub struct Span {
    pub start: u32,
    pub end: u32,
}

pub type TokenList = Items<Token>;

pub type SpanList = Items<Span>;

/// The tokens of a text and its line comments, each in the order of the text.
#[derive(Drop)]
pub struct Tokens {
    pub list: TokenList,
    pub comments: SpanList,
}

/// Why a text has no tokens: what opens at the byte `at` has no end.
#[derive(Clone, Copy, Debug, PartialEq, Eq, Error)]
pub enum LexFault {
    #[error("unclosed string at byte {at}")]
    UnclosedString { at: u32 },
    #[error("unclosed extended identifier at byte {at}")]
    UnclosedExtended { at: u32 },
    #[error("unclosed comment at byte {at}")]
    UnclosedComment { at: u32 },
}
