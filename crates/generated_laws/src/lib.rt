//! Laws of the generated project: what is read of it, what a clean build makes of it, and the counts in its answer. Nothing
//! here runs.
#![tactic(auto)]

mod build_laws;
mod count_laws;
mod reading_laws;

pub use build_laws::{
    examples_of_numbers, laws_of_numbered_builds, laws_of_numbered_graphs, laws_of_touched_numbers,
};
pub use count_laws::laws_of_counts;
pub use reading_laws::laws_of_readings;
