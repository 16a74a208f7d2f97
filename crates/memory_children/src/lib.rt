//! Children in memory that answer as the compiler and the simulator that are part of the program do, for tests.
#![tactic(auto)]

mod exits;
mod loop_children;

pub use loop_children::LoopProcs;
