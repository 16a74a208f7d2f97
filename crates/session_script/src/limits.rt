//! The limits of the input of a session.

/// The most bytes in a line, without its line feed.
pub const LINE_LIMIT: u64 = 1_048_576;

/// The most lines in an input.
pub const LINE_COUNT_LIMIT: u64 = 1_000_000;
