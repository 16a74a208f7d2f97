//! What one run of the program promises is enough for the next one: callers of the top call that are proved from its contract
//! alone.
//!
//! Laws, which do not run: requests that stand for true records of views are true records; histories of runs; the answer and
//! the text for the generated project of each size.
#![tactic(auto)]

mod all_runs;
mod chains;
mod generating;
mod program_laws;
mod size_laws;
mod store_laws;

pub use all_runs::{Between, run_all};
pub use chains::{Outcomes, run_after_stop, run_twice};
pub use generating::generate_project;
pub use program_laws::laws_of_program;
pub use size_laws::{examples_of_sizes, laws_of_generated_projects, laws_of_made_numbers};
pub use store_laws::{laws_of_old_stores, laws_of_true_migration};
