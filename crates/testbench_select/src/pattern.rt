//! A pattern: its pattern parts, in order.

ghost use Rattle.std.specs.Prelude.{◌≡◌};

use base::Items;
use std::marker::Model;

/// The bytes from the first to the last; none where the first is above the last.
#[derive(Clone, Copy, Debug, PartialEq, Eq)]
pub struct ByteRange {
    pub first: u8,
    pub last: u8,
}

/// A part of a pattern. It matches any bytes, any one byte, one byte of a set, or one given byte. The set has the bytes
/// in the ranges or, if `negated`, all other bytes.
#[derive(Drop)]
pub enum PatternPart {
    AnyBytes,
    AnyByte,
    OneOf {
        negated: bool,
        ranges: Items<ByteRange>,
    },
    Byte(u8),
}

/// A pattern of names. Contracts see its pattern parts.
#[derive(Drop)]
pub struct Pattern {
    pattern_parts: Items<PatternPart>,
}

/// Patterns of names, in order. Contracts see the pattern parts of each.
pub type PatternList = Items<Pattern>;

impl Model for Pattern {
    ghost use Rattle.std.specs.Prelude.{List};
    ghost use Rattle.testbench_select.specs.declared.pattern.PatternPart.{PatternPart};

    ghost Value = { List PatternPart };

    ghost view = { λ a. a.pattern_parts };
}

impl Pattern {
    /// The pattern of these pattern parts.
    pub(crate) fn of_pattern_parts(pattern_parts: Items<PatternPart>) -> Pattern
        ensures { result ≡ pattern_parts }
    {
        Pattern { pattern_parts }
    }

    /// The pattern parts, in order.
    pub fn pattern_parts(&self) -> &[PatternPart]
        ensures { result.now ≡ self.now }
    {
        self.pattern_parts.as_slice()
    }
}
