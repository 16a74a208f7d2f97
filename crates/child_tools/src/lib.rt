//! The compiler that is part of the program, as a call over bytes.
//! The simulator that is part of the program, as a call over bytes.
#![tactic(auto)]

mod analysing;
mod answers;
mod artefacts;
mod benches;
mod ends;
mod exports;
mod failures;
mod scripts;
mod unit_names;
mod wanted;

pub use analysing::analyse;
pub use benches::{bench, bench_job, run_job};
