//! Records in plain form: for each name the latest request to its compiler, and the artefact that the compiler gave.

use crate::sets::has;
use crate::shapes::{Project, artefact_of, deps_of, file_at, letter, library, text, word};

/// A request to a compiler: its word, the text, and the file's dependencies in order. A dependency takes three bytes: its
/// library, its path and the byte of its artefact after the path.
#[derive(Clone, Copy)]
pub(super) struct Asked {
    word: [u8; 2],
    text: u8,
    below: [u8; 24],
}

/// The latest request for a name, and the byte of its artefact after the path, or 0 without a record.
#[derive(Clone, Copy)]
pub(super) struct Kept {
    asked: Asked,
    given: u8,
}

/// The records of all names: those of the library at first, and then those of the other.
pub(super) type AllKept = [Kept; 16];

/// No record of any name.
pub(super) fn none_kept() -> AllKept {
    let asked = Asked {
        word: [0; 2],
        text: 0,
        below: [0; 24],
    };
    [Kept { asked, given: 0 }; 16]
}

/// The index of the name of a file.
fn index(project: &Project, at: u8) -> u8 {
    let other = if has(project.moved, at) { 8 } else { 0 };
    at % 8 + other
}

/// The request for a file, over files with these artefacts.
pub(super) fn asked_of(project: &Project, made: &[u8; 8], at: u8) -> Asked {
    let mut below = [0u8; 24];
    let mut count = 0u8;
    for position in 0..8u8 {
        let dep = file_at(project, position);
        if has(deps_of(project, at), dep) {
            let start = (count % 8 * 3) as usize;
            below[start] = library(project, dep)[0];
            below[start + 1] = letter(dep);
            below[start + 2] = made[(dep % 8) as usize];
            count = count.wrapping_add(1);
        }
    }
    Asked {
        word: *word(project, at),
        text: text(project, at),
        below,
    }
}

fn same_asked(asked: &Asked, other: &Asked) -> bool {
    asked.word == other.word && asked.text == other.text && asked.below == other.below
}

/// The artefact of the latest record of a file if its request equals the one over files with these artefacts, else 0.
pub(super) fn current(kept: &AllKept, project: &Project, made: &[u8; 8], at: u8) -> u8 {
    let last = &kept[(index(project, at) % 16) as usize];
    if same_asked(&last.asked, &asked_of(project, made, at)) {
        last.given
    } else {
        0
    }
}

/// Records the request for a file over files with these artefacts, and the artefact that its compiler gives.
pub(super) fn keep(kept: &mut AllKept, project: &Project, made: &[u8; 8], at: u8) {
    kept[(index(project, at) % 16) as usize] = Kept {
        asked: asked_of(project, made, at),
        given: artefact_of(project, at),
    };
}
