//! The words of the command line.
#![tactic(auto)]

mod command;
mod reading;
mod setting;

pub use reading::read_arguments;
pub use setting::{ArgumentsFault, Setting};
