//! The number of a package, as its path has it.

use std::str;

/// The bytes of a path between `src/f` and its last four bytes. They are empty if the path begins otherwise or has fewer than
/// nine bytes.
fn digits_in(path: &[u8]) -> &[u8] {
    if path.len() < 9 || !path.starts_with(b"src/f") {
        return &[];
    }
    &path[5..path.len() - 4]
}

/// The number in the bytes of a path in which a package has its own, or 0 if they are not a number.
pub fn number_in(path: &[u8]) -> u64 {
    match str::from_utf8(digits_in(path)) {
        Ok(digits) => digits.parse().unwrap_or(0),
        Err(_) => 0,
    }
}
