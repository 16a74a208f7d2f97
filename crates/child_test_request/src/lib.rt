//! What a simulator is asked for a run of tests, as bytes.
#![tactic(auto)]

mod configuring;
mod laws;
mod paths;
mod reading;
mod writing;

pub use configuring::runner_cfg;
pub use laws::laws_of_bench_jobs;
pub use paths::results_path;
pub use reading::read_bench_request;
pub use writing::BenchWriter;
