//! The tests of VHDL sources as types: benches, their cases, and the faults of benches.
//! The answers of a run as types, apart from what they are about, so that only crates that answer stand on them.
#![tactic(auto)]

mod bench;
mod outcome;

pub use bench::{Bench, CaseList, TestCase, TestFault, Tests};
pub use outcome::{Limit, Outcome, OutsideObject, Refusal};
