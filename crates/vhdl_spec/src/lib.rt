//! What the tokens of a VHDL text are, as definitions with their laws. Nothing here runs.
#![tactic(auto)]

pub mod laws;
mod scanners;

pub use scanners::{one_scanner, some_scanner};
