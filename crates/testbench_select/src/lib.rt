//! Patterns of names, as they select tests and the files of a library.
#![tactic(auto)]

mod choosing;
mod laws;
mod matching;
mod names;
mod pattern;
mod reading;
mod selecting;

pub use laws::laws_of_selections;
pub use matching::matches;
pub use names::full_name;
pub use pattern::{ByteRange, Pattern, PatternList, PatternPart};
pub use reading::read_pattern;
pub use selecting::select;
