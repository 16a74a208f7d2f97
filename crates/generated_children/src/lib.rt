//! Laws of what the compiler that is part of the program answers for the files of the generated project. Nothing here runs.
//! Laws of the tests of the generated project: which runs there are, what simulators answer, and what is counted of it.
//! Nothing here runs.
#![tactic(auto)]

mod answer_laws;
mod bench_laws;

pub use answer_laws::{
    examples_of_answers, laws_of_bench_answers, laws_of_generated_artefacts,
    laws_of_package_answers,
};
pub use bench_laws::{examples_of_tests, laws_of_simulations, laws_of_tests};
