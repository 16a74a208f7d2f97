//! What the children that are part of the program share: the lines of artefacts, and the answer to an input that isn't
//! a request.
#![tactic(auto)]

mod ends;
mod lines;

pub use ends::{bad_request, ends_with, put};
pub use lines::{after_word, next_line};
