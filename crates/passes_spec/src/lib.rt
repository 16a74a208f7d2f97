//! Definitions of passes of tests, and their laws. Nothing runs here. The definitions say:
//!
//! - when a pass is true, and which pass is the last of the same tests;
//! - which runs are known to pass and need no start;
//! - which passes an image has.
#![tactic(auto)]

mod laws;

pub use laws::{laws_of_known_runs, laws_of_new_passes, laws_of_pass_compaction};
