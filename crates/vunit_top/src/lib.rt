//! The top call: reads the command line and the sources, does the task that they give, and puts the result.
#![tactic(auto)]

mod children;
mod ends;
mod generating;
mod program_end;
mod testing_run;
mod top;
mod words;

pub use program_end::{Ended, end_of, run_ended};
pub use top::run_vunit;
pub use words::{RunOptions, Task};
