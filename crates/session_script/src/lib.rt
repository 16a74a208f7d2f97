//! The script of a session: reads commands and the texts of puts from the lines of an input. It does not run commands, and
//! does not decide which words a run may have.
#![tactic(auto)]

mod commands;
mod laws;
mod limits;
mod lines;
mod puts;

pub use commands::{LineCommand, command_of, words_of};
pub use laws::{examples_of_scripts, laws_of_scripts};
pub use limits::{LINE_COUNT_LIMIT, LINE_LIMIT};
pub use lines::{Ending, InputLines, NextLine};
pub use puts::{PutEnd, take_put};
