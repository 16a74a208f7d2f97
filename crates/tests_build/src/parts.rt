//! The small projects that tests build.

use crate::shapes::Shape;

/// A package and two users of it, a file alone, a user of the second; and a file that depends on all of them.
pub(super) const USERS: Shape = Shape {
    count: 6,
    deps: [0, 0b1, 0, 0b1, 0b11, 0b11111, 0, 0],
};

/// The project of a letter. In each the last file depends on all others.
pub(super) fn shape_of(letter: u8) -> Shape {
    let users = USERS.deps;
    let (count, deps) = match letter {
        b'U' => (USERS.count, users),
        // A package, its user, a file alone, a user of the user.
        b'C' => (5, [0, 0b1, 0, 0b11, 0b1111, 0, 0, 0]),
        // Three files alone.
        b'A' => (4, [0, 0, 0, 0b111, 0, 0, 0, 0]),
        // Two files alone, a user of both.
        b'T' => (4, [0, 0, 0b11, 0b111, 0, 0, 0, 0]),
        // A file alone, a file with a user.
        b'O' => (4, [0, 0, 0b10, 0b111, 0, 0, 0, 0]),
        // A package, its user, a user of the user.
        _ => (4, [0, 0b1, 0b11, 0b111, 0, 0, 0, 0]),
    };
    Shape { count, deps }
}
